// A roll that no file rule refuses, and what is read of it.
ghost use Rattle.std.specs.Prelude.{◌≡◌, ◌*◌, ◌≤◌, length, MatchResult};
ghost use Rattle.answers.specs.Numbers.{number_of, place_of, blocks_of};
ghost use Rattle.trials.specs.Rules.{Accepted, Refuses};
ghost use Rattle.planner.specs.Outcome.{PlanOutcome};
ghost use Rattle.roll.specs.Format.{file_rules, floor_of, records_at, records_long, input_in, RollOutcome};
ghost use Rattle.trials.specs.Once.{Accepted-prop};
ghost use Rattle.roll.specs.Answers.{EndingIs, NumbersIs, PartIs};

use crate::marks::{Ended, short};
use crate::{Ending, FloorNumbers, Numbers, Trailer, bytes};
use answers::{Answer, Fault, Refusal};
use fraction::Pace;
use planner::plan;
use rules::{ReportList, Roll, count_rules};
use trials::refuse_if;

// A roll's bytes of which no file rule is given: all that is read of them is there.
#[derive(Clone, Copy)]
pub struct Opened<'a> {
    pub roll: Ended<'a>,
    ghost accepted: { Accepted (file_rules roll.file.now) } by { Accepted-prop (file_rules roll.file.now) },
}

impl<'a> Opened<'a> {
    // Opens a roll: file rules 10 to 13, in their order. One that is too short for its trailer is not
    // read any further.
    pub fn open(file: &'a [u8]) -> Result<Opened<'a>, Refusal>
        ensures { MatchResult result (λ opened. opened.roll.file ≡ file.entry) (λ refusal. Refuses (file_rules file.now) refusal) }
    {
        refuse_if(short(file), Fault::ShortRoll)?;
        let roll = Ended { file };
        roll.trailer_rules()?;
        Ok(Opened { roll })
    }

    // The floor in the trailer: R and T come first.
    #[tactic(auto, using(crate::proofs::Marking::with_floor, crate::proofs::Marking::without_floor, crate::proofs::FileRules::long_with_floor))]
    fn floor(self) -> Option<Pace>
        ensures { result ≡ floor_of self.entry.roll.file.now }
    {
        if self.roll.has_floor() {
            let n = self.roll.file.len();
            let ticks = bytes::u16_at(self.roll.file, n - Trailer::FLOOR_BYTES);
            let operations = bytes::u16_at(self.roll.file, n - 18);
            Some(Pace { ticks, operations })
        } else {
            None
        }
    }

    // What the roll's end says.
    pub fn ending(self) -> Ending
        ensures { EndingIs self.entry.roll.file.now result }
    {
        Ending {
            trailer: self.roll.trailer(),
            floor: self.floor(),
        }
    }

    // Where the records begin: the back distance before the end.
    #[tactic(auto, using(crate::proofs::FileRules::reaches))]
    fn records_at(self) -> usize
        ensures { result ≡ records_at self.entry.roll.file.now }
    {
        let reach = self.roll.back();
        self.roll.file.len() - reach
    }

    // How many bytes they are. (`as`, here and below: usize is no From<u32>.)
    fn records_long(self) -> usize
        ensures { result ≡ records_long self.entry.roll.file.now }
    {
        Trailer::RECORD * self.roll.count() as usize
    }

    // What is read, in numbers.
    #[tactic(auto, using(crate::proofs::HandsBack::numbers_read))]
    pub fn numbers(self) -> Numbers
        ensures { NumbersIs self.entry.roll.file.now result }
    {
        let ending = self.ending();
        let at = self.records_at();
        let size = self.records_long();
        Numbers {
            refusal: 0,
            trailer: ending.trailer,
            floor: FloorNumbers::from(ending.floor),
            at,
            size,
        }
    }

    // The part with the records, no copy.
    pub fn part(self) -> &'a [u8]
        ensures { PartIs self.entry.roll.file result }
    {
        let from = self.records_at();
        let to = from + self.records_long();
        &self.roll.file[from..to]
    }

    // Plans the list. The rules of the whole list are tried before its records are read, since there is
    // room for 1,024 of them.
    pub fn plan(self, rows: &mut [u32]) -> Answer
        ensures { RollOutcome self.entry.roll.file.now rows.old (number_of result) (place_of result) (blocks_of result) rows.new }
    {
        let ending = self.ending();
        let count = ending.trailer.count as usize;
        count_rules(
            Ok(()),
            count,
            count,
            count,
            ending.trailer.terms,
            ending.floor,
            rows.len(),
        )?;
        plan_records(self.part(), ending, rows)
    }
}

// Plans the list in a part with as many records as the roll's end says. Its columns go into three arrays,
// since plan takes three lists, with room for the most reports of a roll: no heap. That the part is long
// enough and the records few enough is a `requires`, and no type, since there is one caller.
fn plan_records(part: &[u8], ending: Ending, rows: &mut [u32]) -> Answer
    requires { (12 * ending.trailer.count ≤ length part.now) × (ending.trailer.count ≤ 1024) }
    ensures { PlanOutcome (input_in part.now ending.trailer.count ending.trailer.terms ending.floor rows.old) (number_of result) (place_of result) (blocks_of result) rows.new }
{
    let count = ending.trailer.count as usize;
    let mut arrivals = [0; Roll::REPORTS];
    let mut deadlines = [0; Roll::REPORTS];
    let mut operations = [0; Roll::REPORTS];
    let arrivals = &mut arrivals[..count];
    let deadlines = &mut deadlines[..count];
    let operations = &mut operations[..count];
    bytes::column(part, 0, arrivals);
    bytes::column(part, 4, deadlines);
    bytes::column(part, 8, operations);
    let list = ReportList {
        arrivals,
        deadlines,
        operations,
        terms: ending.trailer.terms,
    };
    plan(list, ending.floor, rows)
}
