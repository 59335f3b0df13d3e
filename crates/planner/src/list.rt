// A list that is in order: what the functions behind rules 1 to 8 take.
ghost use Rattle.rules.specs.Leaves.{Fair, Paced};

use rules::{Report, ReportList};

// A list of offsets and operations, with the terms that it comes with, in order by rules 1, 2 and 4 to 7.
// A number of each report stands in each of three slices, as the caller lends them.
#[derive(Clone, Copy)]
pub struct FairList<'a> {
    pub list: ReportList<'a>,
    pub ghost fair: { Fair list.arrivals.now list.deadlines.now list.operations.now },
    pub ghost paced: { Paced list.terms },
}

impl FairList<'_> {
    ghost use Rattle.std.specs.Prelude.{◌≡◌, ◌<◌, length};
    ghost use Rattle.trials.specs.Tries.{Tells};
    ghost use Rattle.planner.specs.Inside.{report_in, FloorIs, Joins};

    // Report i. (That a report is on the list is asked by each method: it is about that argument alone.)
    pub fn report(&self, i: usize) -> Report
        requires { i < length self.now.list.arrivals.now }
        ensures { result ≡ report_in self.now.list i }
    {
        let list = self.list;
        Report::new(list.arrivals[i], list.deadlines[i], list.operations[i])
    }

    // Whether report j and the next belong to one stretch.
    pub fn joins(&self, j: usize) -> bool
        requires { j < length self.now.list.arrivals.now }
        ensures { Tells (Joins self.now.list.arrivals.now self.now.list.deadlines.now j) result }
    {
        let next = j + 1;
        next < self.list.arrivals.len() && self.list.arrivals[next] <= self.list.deadlines[j]
    }

    // The least time at which report j may end: the next arrival where they join, else its deadline. That
    // is the sooner of the two, where there is a next report.
    pub fn floor(&self, j: usize) -> u32
        requires { j < length self.now.list.arrivals.now }
        ensures { FloorIs self.now.list.arrivals.now self.now.list.deadlines.now j result }
    {
        let next = j + 1;
        let due = self.list.deadlines[j];
        if next < self.list.arrivals.len() {
            self.list.arrivals[next].min(due)
        } else {
            due
        }
    }
}
