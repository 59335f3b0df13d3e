// Exact fractions, for code. The definitions are in specs/Fraction.antt, their laws in proofs/.
#![tactic(auto)]

ghost use Rattle.std.specs.Prelude.{◌≡◌, ◌*◌, ltb};

// A pace: so many ticks for so many operations.
#[derive(Clone, Copy)]
pub struct Pace {
    pub ticks: u32,
    pub operations: u32,
}

impl Pace {
    // Whether this pace is below the other, by cross products. Every comparison of two paces is this one.
    // It is no PartialOrd: 1/2 and 2/4 are different values with neither below the other, and where the
    // operations are 0 it is no order, so the laws that the trait asks for do not hold.
    pub fn below(self, other: Pace) -> bool
        ensures { result ≡ ltb (self.ticks * other.operations) (other.ticks * self.operations) }
    {
        let mine = u64::from(self.ticks) * u64::from(other.operations);
        let theirs = u64::from(other.ticks) * u64::from(self.operations);
        mine < theirs
    }
}
