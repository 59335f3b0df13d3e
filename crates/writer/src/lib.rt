// The writer of a roll: it puts a list into a lent buffer of bytes, from a place on, as the reader (roll)
// reads it. The bytes are specs/Bytes.antt, what comes back specs/Writing.antt.
#![tactic(auto)]

ghost use Rattle.std.specs.Prelude.{◌≡◌, ◌⊎◌, ◌+◌, ◌*◌, ◌^◌, ◌≤◌, ◌<◌, length, take, Ok, IfOk};
ghost use Rattle.answers.specs.Numbers.{number_of, place_of};
ghost use Rattle.lists.specs.Puts.{Puts};
ghost use Rattle.trials.specs.Tries.{Tells, After};
ghost use Rattle.rules.specs.Leaves.{Even};
ghost use Rattle.writer.specs.Bytes.{le16, listing, record_bytes, records_up_to, roll_long, trailer_bytes, roll_bytes, ReadsBack};
ghost use Rattle.writer.specs.Writing.{write_rules, WriteOutcome, bytes_of, InBytes};
ghost use Rattle.writer.specs.Inside.{RecordFits, RecordsFit};

use answers::{Fault, Refusal};
use roll::Trailer;
use rules::{ReportList, Roll};
use trials::{Verdict, refuse_if};

// What the writer answers: how many bytes were written, or the refusal.
pub type Wrote = Result<usize, Refusal>;

// The same in 01's numbers, as C takes it (a struct of its own beside Reply, since C calls its last field
// bytes): the number of the refusal, 0 where there is none; its place, 0
// always; and how many bytes were written, 0 on a refusal.
#[repr(C)]
#[derive(Clone, Copy)]
pub struct WriteReply {
    pub number: u32,
    pub place: usize,
    pub bytes: usize,
}

impl WriteReply {
    // The most bytes that are written: behind the place so many are room for every list.
    pub const MOST: usize = Trailer::BYTES + Trailer::RECORD * Roll::REPORTS;
}

impl From<Wrote> for WriteReply {
    ghost from_gives = { InBytes };

    fn from(answer: Wrote) -> WriteReply {
        match answer {
            Ok(bytes) => WriteReply {
                number: 0,
                place: 0,
                bytes,
            },
            Err(refusal) => WriteReply {
                number: refusal.number(),
                place: refusal.place,
                bytes: 0,
            },
        }
    }
}

// Whether P or Q has more than its two bytes.
fn too_wide(terms: Roll) -> bool
    ensures { Tells ((65535 < terms.p) ⊎ (65535 < terms.q)) result }
{
    Roll::PACE < terms.p || Roll::PACE < terms.q
}

// Whether a buffer has too little room for the roll of so many reports from a place on. The place may be
// any number, so it is added to nothing.
fn no_room(reports: usize, at: usize, room: usize) -> bool
    ensures { Tells (room < at + roll_long reports) result }
{
    room < at
        || room - at < Trailer::BYTES
        || (room - at - Trailer::BYTES) / Trailer::RECORD < reports
}

// The writer's rules: 1, 2, 4 and 15. One line a rule: whether it is given, and what for.
fn write_rules(list: ReportList<'_>, at: usize, room: usize) -> Verdict
    ensures { After (Ok tt) (write_rules (length list.entry.arrivals.now) (length list.entry.deadlines.now) (length list.entry.operations.now) list.entry.terms at room) result }
{
    let reports = list.arrivals.len();
    refuse_if(
        rules::uneven(reports, list.deadlines.len(), list.operations.len()),
        Fault::Lengths,
    )?;
    refuse_if(Roll::REPORTS < reports, Fault::TooMany)?;
    refuse_if(too_wide(list.terms), Fault::BadPace)?;
    refuse_if(no_room(reports, at, room), Fault::NoRoom)
}

// The two low bytes of a number. (`as`, here and below, where what is cast fits: try_from would bring an
// unwrap with the same proof; and usize is no From<u32>.)
fn low(n: u32) -> [u8; 2]
    ensures { result ≡ le16 n }
{
    ((n & 0xffff) as u16).to_le_bytes()
}

// Puts bytes into a part from a place on, and gives back the place behind them. (Text has the like for the
// front of a buffer: one function for both would be public, with a `requires`, and none here is.)
fn put(bytes: &[u8], out: &mut [u8], at: usize) -> usize
    requires { at + length bytes.now ≤ length out.old }
    ensures { Puts out.old at bytes.now result out.new }
{
    let behind = at + bytes.len();
    out[at..behind].copy_from_slice(bytes);
    behind
}

// Writes a record at the front of a part. Its three numbers come one by one, as they stand in three lists:
// a Report would be made here for one call.
fn write_record(arrival: u32, deadline: u32, operations: u32, part: &mut [u8])
    requires { 12 ≤ length part.old }
    ensures puts { Puts part.old 0 (record_bytes arrival deadline operations) 12 part.new }
    ensures record_fits { RecordFits arrival deadline operations }
{
    let at = put(&arrival.to_le_bytes(), part, 0);
    let at = put(&deadline.to_le_bytes(), part, at);
    put(&operations.to_le_bytes(), part, at);
}

// Writes the records of a list at the front of a part. Each is lent the part from its place on. That the
// lists are even is asked here and in write_roll alone: no type of its own for two.
fn write_records(list: ReportList<'_>, part: &mut [u8])
    requires even { Even list.arrivals.now list.deadlines.now list.operations.now }
    requires room { 12 * length list.arrivals.now ≤ length part.old }
    ensures puts { Puts part.old 0 (records_up_to list.entry.arrivals.now list.entry.deadlines.now list.entry.operations.now (length list.entry.arrivals.now)) (12 * length list.entry.arrivals.now) part.new }
    ensures records_fit { RecordsFit list.entry.arrivals.now list.entry.deadlines.now list.entry.operations.now (length list.entry.arrivals.now) }
{
    for i in 0..list.arrivals.len() {
        let at = Trailer::RECORD * i;
        write_record(
            list.arrivals[i],
            list.deadlines[i],
            list.operations[i],
            &mut part[at..],
        );
    }
}

// Writes a trailer at the front of a part: the numbers, and the mark that the reader compares.
fn write_trailer(trailer: Trailer, part: &mut [u8])
    requires room { 16 ≤ length part.old }
    requires few { trailer.count ≤ 1024 }
    ensures puts { Puts part.old 0 (trailer_bytes trailer) 16 part.new }
    ensures reference_fits { trailer.terms.reference < 2 ^ 32 }
{
    let back = Trailer::BYTES + Trailer::RECORD * trailer.count as usize;
    let terms = trailer.terms;
    let at = put(&(back as u32).to_le_bytes(), part, 0);
    let at = put(&terms.reference.to_le_bytes(), part, at);
    let at = put(&low(trailer.count), part, at);
    let at = put(&low(terms.p), part, at);
    let at = put(&low(terms.q), part, at);
    put(&Trailer::MARK, part, at);
}

// Writes a roll at the front of a part: the records, and the trailer behind them. Its length comes back.
fn write_roll(list: ReportList<'_>, part: &mut [u8]) -> usize
    requires even { Even list.arrivals.now list.deadlines.now list.operations.now }
    requires few { length list.arrivals.now ≤ 1024 }
    requires room { roll_long (length list.arrivals.now) ≤ length part.old }
    ensures puts { Puts part.old 0 (roll_bytes (listing list.entry)) result part.new }
    ensures records_fit { RecordsFit list.entry.arrivals.now list.entry.deadlines.now list.entry.operations.now (length list.entry.arrivals.now) }
    ensures reference_fits { list.entry.terms.reference < 2 ^ 32 }
{
    let n = list.arrivals.len();
    let at = Trailer::RECORD * n;
    write_records(list, part);
    let trailer = Trailer {
        count: n as u32,
        terms: list.terms,
    };
    write_trailer(trailer, &mut part[at..]);
    at + Trailer::BYTES
}

// Writes the roll of a list into a buffer, from a place on: the part from there on is lent to those who
// write the records and the trailer. What comes back, and what the buffer then holds, is WriteOutcome,
// for every input; and what is written reads back.
pub fn write(list: ReportList<'_>, out: &mut [u8], at: usize) -> Wrote
    ensures write_outcome { WriteOutcome (listing list.entry) out.old at (number_of result) (place_of result) (bytes_of result) out.new }
    ensures reads_back { IfOk result (λ bytes. ReadsBack (take (at + bytes) out.new) (listing list.entry)) }
{
    write_rules(list, at, out.len())?;
    Ok(write_roll(list, &mut out[at..]))
}
