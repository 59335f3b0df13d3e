// The static library for C: the functions of the crate vakrhildo under the same names, with the same
// promises. include/vakrhildo.h declares them. They stand twice since a crate is a library or a static
// library, and not both.
#![tactic(auto)]

ghost use Rattle.std.specs.Prelude.{◌≡◌, ◌+◌, take, None, Some};
ghost use Rattle.planner.specs.Outcome.{PlanOutcome};
ghost use Rattle.roll.specs.Format.{RollOutcome};
ghost use Rattle.roll.specs.Answers.{NumbersIs};
ghost use Rattle.writer.specs.Bytes.{ReadsBack};
ghost use Rattle.writer.specs.Writing.{WriteOutcome};

use answers::Reply;
use roll::Numbers;
use writer::WriteReply;

// Plans a list: three lists of readings, the reference, P and Q, and a buffer for rows. There is no
// floor.
#[unsafe(no_mangle)]
pub extern "C" fn vakrhildo_plan(
    arrivals: &[u32],
    deadlines: &[u32],
    operations: &[u32],
    reference: u32,
    p: u32,
    q: u32,
    rows: &mut [u32],
) -> Reply
    ensures { PlanOutcome (record { arrivals = arrivals.now; deadlines = deadlines.now; operations = operations.now; terms = record { reference = reference; p = p; q = q }; floor = None; buffer = rows.old }) result.number result.place result.blocks rows.new }
{
    vakrhildo::vakrhildo_plan(arrivals, deadlines, operations, reference, p, q, rows)
}

// The same with a floor, the slowest pace R/T.
#[unsafe(no_mangle)]
pub extern "C" fn vakrhildo_plan_floor(
    arrivals: &[u32],
    deadlines: &[u32],
    operations: &[u32],
    reference: u32,
    p: u32,
    q: u32,
    r: u32,
    t: u32,
    rows: &mut [u32],
) -> Reply
    ensures { PlanOutcome (record { arrivals = arrivals.now; deadlines = deadlines.now; operations = operations.now; terms = record { reference = reference; p = p; q = q }; floor = Some (record { ticks = r; operations = t }); buffer = rows.old }) result.number result.place result.blocks rows.new }
{
    vakrhildo::vakrhildo_plan_floor(arrivals, deadlines, operations, reference, p, q, r, t, rows)
}

// Plans the list in a roll, by all the rules, file rules first.
#[unsafe(no_mangle)]
pub extern "C" fn vakrhildo_plan_roll(file: &[u8], rows: &mut [u32]) -> Reply
    ensures { RollOutcome file.now rows.old result.number result.place result.blocks rows.new }
{
    vakrhildo::vakrhildo_plan_roll(file, rows)
}

// Reads a roll: the refusal's number, the trailer's numbers, and where the part of the caller's bytes
// lies that holds the records, and its size.
#[unsafe(no_mangle)]
pub extern "C" fn vakrhildo_read(file: &[u8]) -> Numbers
    ensures { NumbersIs file.now result }
{
    vakrhildo::vakrhildo_read(file)
}

// Writes the roll of a list into a buffer of bytes, from a place on: three lists of readings, the
// reference, P and Q.
#[unsafe(no_mangle)]
pub extern "C" fn vakrhildo_write(
    arrivals: &[u32],
    deadlines: &[u32],
    operations: &[u32],
    reference: u32,
    p: u32,
    q: u32,
    out: &mut [u8],
    at: usize,
) -> WriteReply
    ensures write_outcome { WriteOutcome (record { arrivals = arrivals.now; deadlines = deadlines.now; operations = operations.now; terms = record { reference = reference; p = p; q = q } }) out.old at result.number result.place result.bytes out.new }
    ensures reads_back { result.number ≡ 0 → ReadsBack (take (at + result.bytes) out.new) (record { arrivals = arrivals.now; deadlines = deadlines.now; operations = operations.now; terms = record { reference = reference; p = p; q = q } }) }
{
    vakrhildo::vakrhildo_write(arrivals, deadlines, operations, reference, p, q, out, at)
}
