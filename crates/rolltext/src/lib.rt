// The text of the plan of a roll: what the program rollplan writes for its input. The promise is
// specs/Program.antt.
#![tactic(auto)]

ghost use Rattle.std.specs.Prelude.{◌≤◌, length};
ghost use Rattle.answers.specs.Numbers.{number_of, place_of, blocks_of};
ghost use Rattle.rolltext.specs.Program.{ProgramOutcome, Says};
ghost use Rattle.text.specs.Text.{TextIs};

use answers::{Answer, Fault, Reply, Row};
use rules::Roll;
use text::Text;
use trials::refuse_if;

// The program's limits: with buffers of these sizes every answer has its text whole
// (proofs/Buffers.antt).
#[derive(Clone, Copy)]
pub struct Program;

impl Program {
    // The longest input that is taken, in bytes.
    pub const INPUT: usize = 65536;
    // Room for the rows of as many reports as a roll may have.
    pub const ROWS: usize = Row::WIDTH * Roll::REPORTS;
    // Room for the text of as many rows.
    pub const TEXT: usize = Text::ROOM;
}

// The answer for an input. Rule 14 is before all others.
fn answer_input(input: &[u8], rows: &mut [u32]) -> Answer
    ensures { ProgramOutcome input.now rows.old (number_of result) (place_of result) (blocks_of result) rows.new }
{
    refuse_if(Program::INPUT < input.len(), Fault::TooLong)?;
    roll::plan_roll(input, rows)
}

// The text of an answer, at the front of out; its length comes back, beside the buffer, since there is no
// heap, and TextIs has it so.
fn say(answer: Answer, rows: &[u32], out: &mut [u8]) -> usize
    ensures text_is { TextIs (number_of answer) (place_of answer) (blocks_of answer) rows.now out.old result out.new }
    ensures upper_bound { result ≤ length out.new }
{
    let reply = Reply::from(answer);
    let number = u64::from(reply.number);
    // `as`: u64 is no From<usize>.
    let place = reply.place as u64;
    text::plan_text(number, place, reply.blocks, rows, out)
}

// The text for an input, at the front of out; its length comes back, 0 where out has no room for it, as
// from plan_text.
pub fn roll_text(input: &[u8], rows: &mut [u32], out: &mut [u8]) -> usize
    ensures says { Says input.now rows.old out.old result rows.new out.new }
    ensures upper_bound { result ≤ length out.new }
{
    let answer = answer_input(input, rows);
    say(answer, rows, out)
}
