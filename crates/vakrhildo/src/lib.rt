// The library for other languages: the planner's entry points, the roll's reader and its writer under
// plain names, over numbers and slices. The crate vakrhildo_c exports them, include/vakrhildo.h declares
// them for C, outside/vakrhildo wraps them for Rust. The promises are those of planner::plan,
// roll::plan_roll, roll::read and writer::write, in 01's numbers.
#![tactic(auto)]

ghost use Rattle.std.specs.Prelude.{◌≡◌, ◌+◌, take, None, Some};
ghost use Rattle.rules.specs.Offsets.{input};
ghost use Rattle.planner.specs.Outcome.{PlanOutcome};
ghost use Rattle.roll.specs.Format.{RollOutcome};
ghost use Rattle.roll.specs.Answers.{NumbersIs};
ghost use Rattle.writer.specs.Bytes.{ReadsBack};
ghost use Rattle.writer.specs.Writing.{WriteOutcome};

use answers::Reply;
use fraction::Pace;
use roll::Numbers;
use rules::{ReportList, Roll};
use writer::WriteReply;

// Plans a list, and answers in numbers. (The three functions below that are handed a list write it as a
// literal: a constructor function would want a proof file more for each. C's arguments stay as they are.)
fn planned(list: ReportList<'_>, floor: Option<Pace>, rows: &mut [u32]) -> Reply
    ensures { PlanOutcome (input list.entry floor rows.old) result.number result.place result.blocks rows.new }
{
    planner::plan(list, floor, rows).into()
}

// Plans a list: three lists of readings, the reference, P and Q, and a buffer for rows. There is no
// floor. With a floor there is a function of its own, since C can leave no argument out.
pub fn vakrhildo_plan(
    arrivals: &[u32],
    deadlines: &[u32],
    operations: &[u32],
    reference: u32,
    p: u32,
    q: u32,
    rows: &mut [u32],
) -> Reply
    ensures { PlanOutcome (record { arrivals = arrivals.now; deadlines = deadlines.now; operations = operations.now; terms = record { reference = reference; p = p; q = q }; floor = None; buffer = rows.old }) result.number result.place result.blocks rows.new }
{
    let list = ReportList {
        arrivals,
        deadlines,
        operations,
        terms: Roll { reference, p, q },
    };
    planned(list, None, rows)
}

// The same with a floor, the slowest pace R/T.
pub fn vakrhildo_plan_floor(
    arrivals: &[u32],
    deadlines: &[u32],
    operations: &[u32],
    reference: u32,
    p: u32,
    q: u32,
    r: u32,
    t: u32,
    rows: &mut [u32],
) -> Reply
    ensures { PlanOutcome (record { arrivals = arrivals.now; deadlines = deadlines.now; operations = operations.now; terms = record { reference = reference; p = p; q = q }; floor = Some (record { ticks = r; operations = t }); buffer = rows.old }) result.number result.place result.blocks rows.new }
{
    let list = ReportList {
        arrivals,
        deadlines,
        operations,
        terms: Roll { reference, p, q },
    };
    let floor = Pace {
        ticks: r,
        operations: t,
    };
    planned(list, Some(floor), rows)
}

// Plans the list in a roll, by all the rules, file rules first.
pub fn vakrhildo_plan_roll(file: &[u8], rows: &mut [u32]) -> Reply
    ensures { RollOutcome file.now rows.old result.number result.place result.blocks rows.new }
{
    roll::plan_roll(file, rows).into()
}

// Reads a roll: the refusal's number, the trailer's numbers, and where the part of the caller's bytes
// lies that holds the records, and its size.
pub fn vakrhildo_read(file: &[u8]) -> Numbers
    ensures { NumbersIs file.now result }
{
    let reading = roll::read(file);
    reading.numbers
}

// Writes the roll of a list into a buffer of bytes, from a place on: three lists of readings, the
// reference, P and Q.
pub fn vakrhildo_write(
    arrivals: &[u32],
    deadlines: &[u32],
    operations: &[u32],
    reference: u32,
    p: u32,
    q: u32,
    out: &mut [u8],
    at: usize,
) -> WriteReply
    ensures write_outcome { WriteOutcome (record { arrivals = arrivals.now; deadlines = deadlines.now; operations = operations.now; terms = record { reference = reference; p = p; q = q } }) out.old at result.number result.place result.bytes out.new }
    ensures reads_back { result.number ≡ 0 → ReadsBack (take (at + result.bytes) out.new) (record { arrivals = arrivals.now; deadlines = deadlines.now; operations = operations.now; terms = record { reference = reference; p = p; q = q } }) }
{
    let list = ReportList {
        arrivals,
        deadlines,
        operations,
        terms: Roll { reference, p, q },
    };
    writer::write(list, out, at).into()
}
