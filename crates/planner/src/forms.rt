// Rules 5 to 8, tried in their order, as those of the whole list are by rules::count_rules: one line a
// rule, the search for its fault, and what it is given for.
ghost use Rattle.std.specs.Prelude.{Ok};
ghost use Rattle.trials.specs.Tries.{After};
ghost use Rattle.rules.specs.Rules.{form_rules};
ghost use Rattle.rules.specs.Leaves.{Even};
ghost use Rattle.planner.specs.Inside.{reports_in};

use answers::Fault;
use rules::{Report, ReportList};
use trials::{Verdict, refuse_at};

// Rules 5 to 8, of offsets and operations, each over the whole list before the next. That the lists are
// even is asked by itself here alone in this crate: settle has it in Sized, and behind it is a FairList.
pub fn form_rules(list: ReportList<'_>) -> Verdict
    requires { Even list.arrivals.now list.deadlines.now list.operations.now }
    ensures { After (Ok tt) (form_rules (reports_in list.entry)) result }
{
    refuse_at(
        trials::first_outside(list.operations, 1, Report::OPERATIONS),
        Fault::BadOperations,
    )?;
    refuse_at(
        trials::first_above(list.arrivals, Report::OFFSET),
        Fault::BadArrival,
    )?;
    refuse_at(
        trials::first_above(list.deadlines, Report::OFFSET),
        Fault::BadDeadline,
    )?;
    refuse_at(trials::first_fall(list.arrivals), Fault::ArrivalFalls)
}
