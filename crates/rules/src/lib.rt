// 01's table of refusals, rules 1 to 9, with a floor's 16 and 17 (02, W2), and what they leave (specs/):
// the types that they are about, with their limits, and the rules of the whole list tried in their order.
#![tactic(auto)]

ghost use Rattle.std.specs.Prelude.{◌≡◌, ◌⊎◌, ◌*◌, ◌<◌, max};
ghost use Rattle.answers.specs.Numbers.{width};
ghost use Rattle.trials.specs.Tries.{Tells, After};
ghost use Rattle.fraction.specs.Fraction.{◌≺◌, over};
ghost use Rattle.rules.specs.Offsets.{pace_of};
ghost use Rattle.rules.specs.Rules.{BadPace, OfFloor, count_rules};

use answers::{Fault, Row};
use fraction::Pace;
use trials::{Verdict, refuse_if};

// A report, by its offsets.
#[derive(Clone, Copy)]
pub struct Report {
    pub arrival: u32,
    pub deadline: u32,
    pub operations: u32,
}

impl Report {
    // The most operations a report may have.
    pub const OPERATIONS: u32 = 65535;
    // The largest usable offset.
    pub const OFFSET: u32 = 2147483647;

    pub fn new(arrival: u32, deadline: u32, operations: u32) -> Report
        ensures { result ≡ record { arrival = arrival; deadline = deadline; operations = operations } }
    {
        Report {
            arrival,
            deadline,
            operations,
        }
    }
}

// The terms that a list comes with, what a roll says beside its reports: the reference reading, and
// the fastest pace P/Q.
#[repr(C)]
#[derive(Clone, Copy, Default)]
pub struct Roll {
    pub reference: u32,
    pub p: u32,
    pub q: u32,
}

impl Roll {
    // The most reports a roll may have.
    pub const REPORTS: usize = 1024;
    // The largest P and Q, and the largest R and T of a floor.
    pub const PACE: u32 = 65535;

    pub fn new(reference: u32, p: u32, q: u32) -> Roll
        ensures { result ≡ record { reference = reference; p = p; q = q } }
    {
        Roll { reference, p, q }
    }
}

// A list of reports, a number of each in each of three lists, with the terms that it comes with. Three
// slices, and none of reports, since the entry points for C and 01's planner are handed three lists.
#[derive(Clone, Copy)]
pub struct ReportList<'a> {
    pub arrivals: &'a [u32],
    pub deadlines: &'a [u32],
    pub operations: &'a [u32],
    pub terms: Roll,
}

// Whether three lists differ in length. It takes lengths, as count_rules does.
pub fn uneven(arrivals: usize, deadlines: usize, operations: usize) -> bool
    ensures { Tells ((arrivals ≡ deadlines → ⊥) ⊎ (arrivals ≡ operations → ⊥)) result }
{
    arrivals != deadlines || arrivals != operations
}

// Whether a buffer is too short for the rows of so many reports.
fn short(reports: usize, room: usize) -> bool
    ensures { Tells (room < width * reports) result }
{
    room / Row::WIDTH < reports
}

// Whether P or Q, or R or T, is a number that it may not be.
fn bad_pace(upper: u32, lower: u32) -> bool
    ensures { Tells (BadPace upper lower) result }
{
    trials::outside(upper, 1, Roll::PACE) || trials::outside(lower, 1, Roll::PACE)
}

// Whether there is a floor, R/T, and its R or T is such a number. (A match, here and in floor_below: by
// is_some_and the proof did not close.)
fn bad_floor(floor: Option<Pace>) -> bool
    ensures { Tells (OfFloor floor (λ x y. BadPace x y)) result }
{
    match floor {
        Some(slowest) => bad_pace(slowest.ticks, slowest.operations),
        None => false,
    }
}

// The pace of two numbers. A lower number of 0 counts as 1, as in the definition (over), since the test of
// rule 17 is promised for every input; count_rules does not come to it with one, which 4 or 16 refuses.
fn pace_over(upper: u32, lower: u32) -> Pace
    ensures { result ≡ record { ticks = upper; operations = max 1 lower } }
{
    Pace {
        ticks: upper,
        operations: lower.max(1),
    }
}

// Whether there is a floor, and it is below P/Q.
fn floor_below(floor: Option<Pace>, terms: Roll) -> bool
    ensures { Tells (OfFloor floor (λ x y. over x y ≺ pace_of terms)) result }
{
    match floor {
        Some(slowest) => {
            let fastest = pace_over(terms.p, terms.q);
            pace_over(slowest.ticks, slowest.operations).below(fastest)
        }
        None => false,
    }
}

// Rules 1 to 4, 16 and 17, of how long the lists and the row buffer are, of the terms and of the floor:
// behind the verdict so far, in which a refusal stays. One line a rule: whether it is given, and what for. It
// takes three lengths, and no list, since a roll's are known before its columns are read.
pub fn count_rules(
    so_far: Verdict,
    arrivals: usize,
    deadlines: usize,
    operations: usize,
    terms: Roll,
    floor: Option<Pace>,
    room: usize,
) -> Verdict
    ensures { After so_far (count_rules arrivals deadlines operations terms floor room) result }
{
    so_far?;
    refuse_if(uneven(arrivals, deadlines, operations), Fault::Lengths)?;
    refuse_if(Roll::REPORTS < arrivals, Fault::TooMany)?;
    refuse_if(short(arrivals, room), Fault::ShortBuffer)?;
    refuse_if(bad_pace(terms.p, terms.q), Fault::BadPace)?;
    refuse_if(bad_floor(floor), Fault::BadFloor)?;
    refuse_if(floor_below(floor, terms), Fault::FloorBelow)
}
