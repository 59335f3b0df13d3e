// rolls: made rolls, each with its name and the text that rollplan would write for it. Every number
// that a roll can be answered with is among them, with a floor and without, as is every shorter front of
// 01's sample.
#![tactic(auto)]

ghost use Rattle.std.specs.Prelude.{◌<◌, ◌≤◌, length};

use answers::Row;
use rolltext::Program;
use std::io;

// 01's sample.
const SAMPLE: [u8; 40] = [
    0x64, 0, 0, 0, 0x68, 0, 0, 0, 2, 0, 0, 0, 0x64, 0, 0, 0, 0x70, 0, 0, 0, 2, 0, 0, 0, 0x28, 0, 0,
    0, 0x64, 0, 0, 0, 2, 0, 1, 0, 1, 0, 0x41, 0x51,
];

// The sample with a floor, the slowest pace 3/2: R and T come first in the trailer, the back distance is
// 4 longer, and the mark is AF (02, W2).
const FLOORED: [u8; 44] = [
    0x64, 0, 0, 0, 0x68, 0, 0, 0, 2, 0, 0, 0, 0x64, 0, 0, 0, 0x70, 0, 0, 0, 2, 0, 0, 0, 3, 0, 2, 0,
    0x2c, 0, 0, 0, 0x64, 0, 0, 0, 2, 0, 1, 0, 1, 0, 0x41, 0x46,
];

// The text for an input, with a row buffer of the caller's.
fn show(rt: &impl Print, input: &[u8], rows: &mut [u32]) -> io::Result<()> {
    let mut out = [0u8; Program::TEXT];
    let length = rolltext::roll_text(input, rows, &mut out);
    rt.write_all(&out[..length])
}

// The same with row room for 1,024 reports, as the program has.
fn plan(rt: &impl Print, input: &[u8]) -> io::Result<()> {
    let mut rows = [0u32; Program::ROWS];
    show(rt, input, &mut rows)
}

fn named(rt: &impl Print, name: &str, input: &[u8]) -> io::Result<()> {
    println!(rt; "{name}")?;
    plan(rt, input)
}

// A roll with one byte changed.
fn changed<const N: usize>(
    rt: &impl Print,
    name: &str,
    mut roll: [u8; N],
    at: usize,
    to: u8,
) -> io::Result<()>
    requires { at < N }
{
    roll[at] = to;
    named(rt, name, &roll)
}

// Rolls with a floor: the rows are as without one, and every rule in which 20 stands for 16.
fn floors(rt: &impl Print) -> io::Result<()> {
    named(rt, "0, the sample with the floor 3/2:", &FLOORED)?;
    changed(rt, "0, the floor is P/Q:", FLOORED, 24, 2)?;
    changed(rt, "16, R is 0:", FLOORED, 24, 0)?;
    changed(rt, "16, T is 0:", FLOORED, 26, 0)?;
    changed(rt, "17, the floor is 1/2:", FLOORED, 24, 1)?;
    changed(
        rt,
        "4 before 17, the floor is 3/2 and Q is 0:",
        FLOORED,
        40,
        0,
    )?;
    changed(rt, "11, the mark is AE:", FLOORED, 43, 0x45)?;
    changed(rt, "12, marked AQ:", FLOORED, 43, 0x51)?;
    changed(rt, "12, the back distance of AQ:", FLOORED, 28, 40)?;
    let mut roll = FLOORED;
    roll[28] = 56;
    roll[36] = 3;
    named(rt, "13, a record more than there are bytes:", &roll)?;
    named(rt, "10, the last 19 bytes:", &FLOORED[25..])?;
    named(rt, "13, the last 20 bytes:", &FLOORED[24..])
}

// Rules of the file.
fn file_rules(rt: &impl Print) -> io::Result<()> {
    changed(rt, "11, the mark's first byte:", SAMPLE, 38, 0x42)?;
    changed(rt, "11, the mark's last byte:", SAMPLE, 39, 0x41)?;
    changed(rt, "12, back distance one too far:", SAMPLE, 24, 41)?;
    changed(rt, "12, back distance 0:", SAMPLE, 24, 0)?;
    changed(rt, "12, one record too few:", SAMPLE, 32, 1)?;
    changed(rt, "12, back distance huge:", SAMPLE, 27, 255)?;
    let mut roll = SAMPLE;
    roll[24] = 52;
    roll[32] = 3;
    named(rt, "13, a record more than there are bytes:", &roll)
}

// Rules of the whole list.
fn list_rules(rt: &impl Print) -> io::Result<()> {
    let mut many = [0u8; 12316];
    many[12300] = 0x1c;
    many[12301] = 0x30;
    many[12308] = 1;
    many[12309] = 4;
    many[12314] = 0x41;
    many[12315] = 0x51;
    named(rt, "2, 1025 records:", &many)?;
    println!(rt; "3, row room for one report of two:")?;
    let mut rows = [0u32; Row::WIDTH];
    show(rt, &SAMPLE, &mut rows)?;
    changed(rt, "4, P is 0:", SAMPLE, 34, 0)?;
    changed(rt, "4, Q is 0:", SAMPLE, 36, 0)
}

// Rules of its reports.
fn report_rules(rt: &impl Print) -> io::Result<()> {
    changed(rt, "5, no operations:", SAMPLE, 8, 0)?;
    changed(rt, "5, 65538 operations of report 1:", SAMPLE, 22, 1)?;
    changed(rt, "6, arrival before the reference:", SAMPLE, 0, 99)?;
    changed(
        rt,
        "6, arrival of report 1 before the reference:",
        SAMPLE,
        12,
        99,
    )?;
    changed(rt, "7, deadline before the reference:", SAMPLE, 4, 99)?;
    changed(
        rt,
        "7, deadline of report 1 before the reference:",
        SAMPLE,
        16,
        99,
    )?;
    changed(rt, "8, report 1 arrives before report 0:", SAMPLE, 0, 102)?;
    changed(rt, "9, five operations in four ticks:", SAMPLE, 8, 5)?;
    changed(
        rt,
        "9, thirteen operations in twelve ticks:",
        SAMPLE,
        20,
        11,
    )
}

// Every shorter front of the sample: 10, then 11.
fn fronts(rt: &impl Print) -> io::Result<()> {
    let roll = SAMPLE;
    for n in 0..roll.len() {
        plan(rt, &roll[..n])?;
    }
    Ok(())
}

// Puts the sample at the end of a roll.
fn put_last(roll: &mut [u8])
    requires { 40 ≤ length roll.old }
{
    let at = roll.len() - SAMPLE.len();
    roll[at..].copy_from_slice(&SAMPLE);
}

// The longest input and one with a byte more: the sample, with a preface that is never looked at.
fn longest(rt: &impl Print) -> io::Result<()> {
    let mut roll = [0xffu8; Program::INPUT + 1];
    put_last(&mut roll);
    named(rt, "0, 65536 bytes:", &roll[1..])?;
    named(rt, "14, 65537 bytes:", &roll)
}

fn main(rt: HostRuntime) -> io::Result<()> {
    named(&rt, "0, the sample:", &SAMPLE)?;
    changed(&rt, "0, one more operation of report 0:", SAMPLE, 8, 3)?;
    file_rules(&rt)?;
    list_rules(&rt)?;
    report_rules(&rt)?;
    longest(&rt)?;
    println!(rt; "every shorter front of the sample:")?;
    fronts(&rt)?;
    floors(&rt)
}
