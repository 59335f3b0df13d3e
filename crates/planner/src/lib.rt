// The planner: rules 1 to 9, 16 and 17, the pass at the fastest pace, the search for blocks, and their rows.
// Its one entry point is plan. What it is handed, and the refusals and their order, are the crate
// rules' specs/; what comes back, and what the row buffer then holds, is specs/Outcome.antt.
#![tactic(auto)]

use answers::Answer;
use fraction::Pace;
use rules::{ReportList, count_rules};

mod blocks;
mod forms;
mod list;
mod pass;
mod readings;
mod search;
mod settle;

ghost use Rattle.answers.specs.Numbers.{number_of, place_of, blocks_of};
ghost use Rattle.rules.specs.Offsets.{input};
ghost use Rattle.planner.specs.Outcome.{PlanOutcome};

// Plans a list of readings with the terms that they come with, the floor that may be absent, and a
// buffer for rows. What comes back, and what the buffer then holds, is PlanOutcome, for every input. The
// floor is tried by its rules; the rows are the same with it and without.
pub fn plan(list: ReportList<'_>, floor: Option<Pace>, rows: &mut [u32]) -> Answer
    ensures { PlanOutcome (input list.entry floor rows.old) (number_of result) (place_of result) (blocks_of result) rows.new }
{
    count_rules(
        Ok(()),
        list.arrivals.len(),
        list.deadlines.len(),
        list.operations.len(),
        list.terms,
        floor,
        rows.len(),
    )?;
    settle::settle_readings(list, rows)
}
