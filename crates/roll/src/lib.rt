// The roll: its reader, and planning straight from a roll. A file is a roll's bytes, as they are handed
// in. The format is specs/Format.antt, what the reader gives back specs/Answers.antt.
#![tactic(auto)]

use answers::{Answer, Refusal};
use fraction::Pace;
use opened::Opened;
use rules::Roll;

mod bytes;
mod marks;
mod opened;

ghost use Rattle.std.specs.Prelude.{◌≡◌};
ghost use Rattle.answers.specs.Numbers.{number, number_of, place_of, blocks_of};
ghost use Rattle.roll.specs.Format.{RollOutcome};
ghost use Rattle.roll.specs.Answers.{TrailerAnswerIs, floor_numbers, NumbersIs, PartIs, numbers_refused};

// The numbers that every trailer has: the record count, and the terms that the list comes with.
#[repr(C)]
#[derive(Clone, Copy, Default)]
pub struct Trailer {
    pub count: u32,
    pub terms: Roll,
}

impl Trailer {
    // The mark at the roll's end.
    pub const MARK: [u8; 2] = *b"AQ";
    // The mark of a roll with a floor (02, W2).
    pub const FLOOR_MARK: [u8; 2] = *b"AF";
    // The trailer's bytes.
    pub const BYTES: usize = 16;
    // Those of a trailer that begins with a floor's R and T.
    pub const FLOOR_BYTES: usize = 20;
    // The bytes of a record before it.
    pub const RECORD: usize = 12;
}

// What a roll's end says: the trailer's numbers, and the floor, which only a roll marked AF has.
#[derive(Clone, Copy)]
pub struct Ending {
    pub trailer: Trailer,
    pub floor: Option<Pace>,
}

// A floor in numbers: 1, R and T where there is one; all 0 where there is none. A flag, and no Option,
// since C reads it.
#[repr(C)]
#[derive(Clone, Copy, Default)]
pub struct FloorNumbers {
    pub given: u32,
    pub r: u32,
    pub t: u32,
}

// A floor in numbers.
impl From<Option<Pace>> for FloorNumbers {
    ghost from_gives = { λ floor numbers. numbers ≡ floor_numbers floor };

    fn from(floor: Option<Pace>) -> FloorNumbers {
        match floor {
            None => FloorNumbers::default(),
            Some(pace) => FloorNumbers {
                given: 1,
                r: pace.ticks,
                t: pace.operations,
            },
        }
    }
}

// What is read of a roll, in numbers: the number of the refusal, 0 where there is none; the trailer's
// numbers; those of the floor; and where the part with the records lies, and its size. On a refusal all
// but its number are 0. A number, and no Result, and a place and a size, since C reads them.
#[repr(C)]
#[derive(Clone, Copy, Default)]
pub struct Numbers {
    pub refusal: u32,
    pub trailer: Trailer,
    pub floor: FloorNumbers,
    pub at: usize,
    pub size: usize,
}

// What is read of a roll that is refused: the number of the refusal; all else is 0.
impl From<Refusal> for Numbers {
    ghost from_gives = { λ refusal numbers. numbers ≡ numbers_refused (number refusal.fault) };

    fn from(refusal: Refusal) -> Numbers {
        Numbers {
            refusal: refusal.number(),
            ..Numbers::default()
        }
    }
}

// What the reader hands back: the numbers, and the part of the caller's bytes that holds the records. No
// Result: reading cannot fail, and what is said of a refused roll, its number and no bytes, stands in
// NumbersIs and PartIs.
#[derive(Clone, Copy)]
pub struct Reading<'a> {
    pub numbers: Numbers,
    pub part: &'a [u8],
}

// Reads the trailer, if no file rule, 10 to 13, is given; else gives the refusal of the first that is.
pub fn read_trailer(file: &[u8]) -> Result<Ending, Refusal>
    ensures { TrailerAnswerIs file.now result }
{
    Ok(Opened::open(file)?.ending())
}

// Reads a roll: the numbers, and the part with the records, no copy; no bytes where the roll is refused.
#[tactic(auto, using(crate::proofs::HandsBack::refused_numbers, crate::proofs::FileRules::refused_part))]
pub fn read<'a>(file: &'a [u8]) -> Reading<'a>
    ensures { NumbersIs file.now result.numbers × PartIs file.entry result.part }
{
    match Opened::open(file) {
        Ok(roll) => Reading {
            numbers: roll.numbers(),
            part: roll.part(),
        },
        Err(refusal) => Reading {
            numbers: Numbers::from(refusal),
            part: &file[0..0],
        },
    }
}

// What is read of a roll, in numbers.
pub fn read_numbers(file: &[u8]) -> Numbers
    ensures { NumbersIs file.now result }
{
    read(file).numbers
}

// The part of the caller's bytes that holds the records. A refused roll ends the reading at once: no
// bytes, and no Result, since this cannot fail (PartIs).
#[tactic(auto, using(crate::proofs::FileRules::refused_part))]
pub fn records(file: &[u8]) -> &[u8]
    ensures { PartIs file.entry result }
{
    let Ok(roll) = Opened::open(file) else {
        return &file[0..0];
    };
    roll.part()
}

// Plans the list in a roll, by all the rules, file rules first. What comes back, and what the row
// buffer then holds, is RollOutcome, for every input. A refused trailer ends the reading at once: its refusal
// is handed straight up.
pub fn plan_roll(file: &[u8], rows: &mut [u32]) -> Answer
    ensures { RollOutcome file.now rows.old (number_of result) (place_of result) (blocks_of result) rows.new }
{
    let opened = Opened::open(file);
    let Ok(roll) = opened else {
        return Err(opened.unwrap_err());
    };
    roll.plan(rows)
}
