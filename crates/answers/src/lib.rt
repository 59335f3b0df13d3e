// What is answered for a list and for a roll: a plan, or a refusal with its number and place; and
// how many numbers a row of a plan has. The definitions are specs/Numbers.antt.
#![tactic(auto)]

ghost use Rattle.std.specs.Prelude.{◌≡◌};
ghost use Rattle.answers.specs.Numbers.{InNumbers, number, numbers_of, refused};

// What a refusal is given for. Its number in 01's table, or in 02, is its discriminant.
#[derive(Clone, Copy, PartialEq, Eq)]
pub enum Fault {
    // The three lists differ in length.
    Lengths = 1,
    // More than 1,024 reports.
    TooMany = 2,
    // The row buffer is too short for the reports.
    ShortBuffer = 3,
    // P or Q is outside 1 to 65,535.
    BadPace = 4,
    // A report's operations are 0 or above 65,535.
    BadOperations = 5,
    // A report's arrival offset is above 2,147,483,647.
    BadArrival = 6,
    // A report's deadline offset is above 2,147,483,647.
    BadDeadline = 7,
    // A report's arrival offset is below that of the report before.
    ArrivalFalls = 8,
    // No allowed plan.
    NoPlan = 9,
    // The roll is shorter than its trailer.
    ShortRoll = 10,
    // The mark at the roll's end is wrong.
    BadMark = 11,
    // The back distance is not that of the record count.
    BadBack = 12,
    // The back distance exceeds the roll's length.
    TooFar = 13,
    // The program's input is too long.
    TooLong = 14,
    // The buffer that a roll is to be written into has too little room behind the place.
    NoRoom = 15,
    // R or T of a floor is outside 1 to 65,535.
    BadFloor = 16,
    // A floor R/T is below P/Q.
    FloorBelow = 17,
}

// A refusal: what it is given for, and the report it concerns, 0 where no report is. No Option, since 0
// is 01's own place there (place_of, and every outcome over it).
#[derive(Clone, Copy, PartialEq, Eq)]
pub struct Refusal {
    pub fault: Fault,
    pub place: usize,
}

impl Refusal {
    // Its number. (`as`: that is how Rust gives an enum's number.)
    pub fn number(self) -> u32
        ensures { result ≡ number self.fault }
    {
        self.fault as u32
    }
}

// The answer: the block count, or the refusal.
pub type Answer = Result<usize, Refusal>;

// An answer in 01's numbers: number, place and block count. Numbers, and no Result, since C reads them.
#[repr(C)]
#[derive(Clone, Copy)]
pub struct Reply {
    pub number: u32,
    pub place: usize,
    pub blocks: usize,
}

impl Reply {
    // The reply of a refusal with any number: a tool that tries rules of its own besides has refusals that are
    // no Fault.
    pub fn refused(number: u32, place: usize) -> Reply
        ensures { result ≡ refused number place }
    {
        Reply {
            number,
            place,
            blocks: 0,
        }
    }
}

impl From<Answer> for Reply {
    ghost from_gives = { InNumbers };

    fn from(answer: Answer) -> Reply {
        match answer {
            Ok(blocks) => Reply {
                number: 0,
                place: 0,
                blocks,
            },
            Err(refusal) => Reply {
                number: refusal.number(),
                place: refusal.place,
                blocks: 0,
            },
        }
    }
}

// A row of a plan: one block.
#[derive(Clone, Copy)]
pub struct Row {
    pub first: u32,
    pub last: u32,
    pub start: u32,
    pub end: u32,
    pub operations: u32,
}

impl Row {
    // How many numbers a row has.
    pub const WIDTH: usize = 5;
}

// The row's numbers, in the order in which they stand in a buffer.
impl From<Row> for [u32; Row::WIDTH] {
    ghost from_gives = { λ row numbers. numbers ≡ numbers_of row };

    fn from(row: Row) -> [u32; Row::WIDTH] {
        [row.first, row.last, row.start, row.end, row.operations]
    }
}
