// A roll's end: the marks there, and what they decide: how long the trailer is, and whether it gives a
// floor; the numbers in it; and rules 11 to 13.
ghost use Rattle.std.specs.Prelude.{◌≡◌, ◌+◌, ◌*◌, ◌≤◌, ◌<◌, length, Ok};
ghost use Rattle.trials.specs.Tries.{Tells, After};
ghost use Rattle.roll.specs.Format.{ends_in, has_floor, Marked, trailer_long, back_of, count_of, trailer_rules};
ghost use Rattle.roll.specs.Answers.{TrailerIs};

use crate::{Trailer, bytes};
use answers::Fault;
use rules::Roll;
use trials::{Verdict, refuse_if};

// A roll's bytes that are no fewer than those of the shorter trailer: what stands at their end can be
// read.
#[derive(Clone, Copy)]
pub struct Ended<'a> {
    pub file: &'a [u8],
    ghost long: { 16 ≤ length file.now },
}

impl Ended<'_> {
    // Whether a mark stands at the end.
    #[tactic(auto, using(crate::proofs::Marking::ends_with_mark))]
    fn ends_in(self, mark: [u8; 2]) -> bool
        ensures { result ≡ ends_in self.entry.file.now mark }
    {
        self.file.ends_with(&mark)
    }

    // Whether the mark is that of a roll with a floor: all that a mark decides is decided here.
    pub fn has_floor(self) -> bool
        ensures { result ≡ has_floor self.entry.file.now }
    {
        self.ends_in(Trailer::FLOOR_MARK)
    }

    // Whether the mark is wrong.
    fn unmarked(self) -> bool
        ensures { Tells (Marked self.entry.file.now → ⊥) result }
    {
        !self.has_floor() && !self.ends_in(Trailer::MARK)
    }

    // The trailer's bytes.
    #[tactic(auto, using(crate::proofs::Marking::with_floor, crate::proofs::Marking::without_floor))]
    pub fn trailer_bytes(self) -> usize
        ensures { result ≡ trailer_long self.entry.file.now }
    {
        if self.has_floor() {
            Trailer::FLOOR_BYTES
        } else {
            Trailer::BYTES
        }
    }

    // The back distance. (`as`, here and for the record count: usize is no From<u32>.)
    pub fn back(self) -> usize
        ensures { result ≡ back_of self.entry.file.now }
    {
        bytes::u32_at(self.file, self.file.len() - Trailer::BYTES) as usize
    }

    // The record count.
    pub fn count(self) -> u32
        ensures { result ≡ count_of self.entry.file.now }
    {
        bytes::u16_at(self.file, self.file.len() - 8)
    }

    // The trailer's numbers.
    pub fn trailer(self) -> Trailer
        ensures { TrailerIs self.entry.file.now result }
    {
        let n = self.file.len();
        let reference = bytes::u32_at(self.file, n - 12);
        let p = bytes::u16_at(self.file, n - 6);
        let q = bytes::u16_at(self.file, n - 4);
        Trailer {
            count: self.count(),
            terms: Roll { reference, p, q },
        }
    }

    // Whether the back distance is not that of the record count.
    #[tactic(auto, using(crate::proofs::Marking::trailer_range))]
    fn bad_back(self) -> bool
        ensures { Tells (back_of self.entry.file.now ≡ trailer_long self.entry.file.now + 12 * count_of self.entry.file.now → ⊥) result }
    {
        self.back() != self.trailer_bytes() + Trailer::RECORD * self.count() as usize
    }

    // Whether the back distance exceeds the roll's length.
    fn too_far(self) -> bool
        ensures { Tells (length self.entry.file.now < back_of self.entry.file.now) result }
    {
        self.file.len() < self.back()
    }

    // Rules 11 to 13. One line a rule: whether it is given, and what for.
    pub fn trailer_rules(self) -> Verdict
        ensures { After (Ok tt) (trailer_rules self.entry.file.now) result }
    {
        refuse_if(self.unmarked(), Fault::BadMark)?;
        refuse_if(self.bad_back(), Fault::BadBack)?;
        refuse_if(self.too_far(), Fault::TooFar)
    }
}

// Whether a roll is shorter than its trailer.
#[tactic(auto, using(crate::proofs::Marking::trailer_range))]
pub fn short(file: &[u8]) -> bool
    ensures { Tells (length file.now < trailer_long file.now) result }
{
    file.len() < Trailer::BYTES || file.len() < Ended { file }.trailer_bytes()
}
