// Rules tried one behind the other: the first that is given refuses, and `?` hands its refusal on. What
// a rule is, and which refusal a list of rules gives, is specs/Rules.antt; a group of rules promises
// After (specs/Tries.antt), and proofs/Trying.antt puts groups one behind the other. Here too are the
// searches for a fault that rules are decided by.
#![tactic(auto)]

ghost use Rattle.std.specs.Prelude.{◌<◌, length, get_or};
ghost use Rattle.trials.specs.Rules.{Outside, Falls};
ghost use Rattle.trials.specs.Tries.{Tells, FirstOf, OrIf, RefuseIf, RefuseAt};

use answers::{Fault, Refusal};

// What rules give: nothing, or a refusal.
pub type Verdict = Result<(), Refusal>;

// A rule of the whole list, by a test: where it holds, a refusal, with place 0.
pub fn refuse_if(given: bool, fault: Fault) -> Verdict
    ensures { RefuseIf given fault result }
{
    if given {
        return Err(Refusal { fault, place: 0 });
    }
    Ok(())
}

// A rule of a report, by the search for its fault: where there is a place, a refusal with that place.
pub fn refuse_at(found: Option<usize>, fault: Fault) -> Verdict
    ensures { RefuseAt found fault result }
{
    match found {
        Some(place) => Err(Refusal { fault, place }),
        None => Ok(()),
    }
}

// The verdict so far, of rules whose refusals are of any type; where none of them refuses and a test holds, this
// refusal. It is for a tool that tries rules of its own besides: no Fault has their numbers, so their refusals
// are of a type of the tool's.
pub fn or_if<R: Copy>(so_far: Result<(), R>, holds: bool, refusal: R) -> Result<(), R>
    ensures { OrIf so_far holds refusal result }
{
    let Ok(()) = so_far else {
        return so_far;
    };
    if holds {
        return Err(refusal);
    }
    Ok(())
}

// Whether a number is outside least to most.
pub fn outside(x: u32, least: u32, most: u32) -> bool
    ensures { Tells (Outside least most x) result }
{
    x < least || most < x
}

// The least i at which xs is outside least to most.
pub fn first_outside(xs: &[u32], least: u32, most: u32) -> Option<usize>
    ensures { FirstOf (length xs.now) (λ i. Outside least most (get_or xs.now i 0)) result }
{
    xs.iter().position(|x| outside(*x, least, most))
}

// The least i at which xs is above most.
pub fn first_above(xs: &[u32], most: u32) -> Option<usize>
    ensures { FirstOf (length xs.now) (λ i. most < get_or xs.now i 0) result }
{
    xs.iter().position(|x| most < *x)
}

// The least i at which xs is below the number before. (A `for`: by windows(2) and position, and by find of
// a range, the proof did not close.)
pub fn first_fall(xs: &[u32]) -> Option<usize>
    ensures { FirstOf (length xs.now) (Falls (λ i. get_or xs.now i 0)) result }
{
    for i in 1..xs.len() {
        if xs[i] < xs[i - 1] {
            return Some(i);
        }
    }
    None
}
