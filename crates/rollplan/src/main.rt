// rollplan: reads one roll from standard input and writes its plan (01, "The roll"). What it writes
// is rolltext::roll_text's; what is left here is the reading and the writing, and one line on
// standard error where there is no answer. It ends with status 0 there too: ./plan gives it another.
#![tactic(auto)]

ghost use Rattle.std.specs.Prelude.{◌<◌, ◌≤◌, length, take, IfOk};
ghost use Rattle.std.specs.Io.KnownBytes.{Consumes, IsAtEnd};

use rolltext::Program;
use std::env::FillError;
use std::fmt::InlineText;
use std::io;
use std::io::Read;
use std::rt::Env;

// One byte more than the program takes is enough to know that the input is too long.
const INPUT: usize = Program::INPUT + 1;

// Room for what std says of an error: the system's text, of at most 256 bytes, and the error's number.
const MESSAGE: usize = 300;

// Reads until buf is full or the input ends. A failed read must not pass for a short roll; a read that a signal interrupts
// counts as failed, which a program that handles no signal does not meet. The count is kept here, since no method of std
// fills a lent buffer and says how far it came where the input ends: read_exact fails there, read_to_end wants a Vec, and
// io::copy bounds no count where the input's bytes are not known.
#[tactic(auto, using(crate::proofs::Filling::reads_more))]
fn read_all<R: Read>(input: &mut R, buf: &mut [u8]) -> io::Result<usize>
    ensures bound { IfOk result (λ n. n ≤ length buf.new) }
    ensures bytes { IfOk result (λ n. Consumes (R.remaining input.old) (R.remaining input.new) (take n buf.new)) }
    ensures whole { IfOk result (λ n. n < length buf.new → IsAtEnd (R.remaining input.new)) }
{
    let mut n: usize = 0;
    while n < buf.len() {
        let more = input.read(&mut buf[n..])?;
        if more == 0 {
            return Ok(n);
        }
        n += more;
    }
    Ok(n)
}

// The system's text of an error, without the number of the error that std writes behind it.
fn reason(text: &str) -> &str {
    text.split_once(" (os error ")
        .map_or(text, |(reason, _)| reason)
}

// A line on standard error: the program, what failed and the system's text, with colons between them.
fn fail(rt: &impl Eprint, what: &str, error: io::Error) -> io::Result<()> {
    let text = InlineText::<MESSAGE>::of(error);
    eprintln!(rt; "rollplan: {what}: {}", reason(text.as_str()))
}

// Arguments, reading, the plan, writing. An argument is refused, since whoever gives a file's name
// would wait for an answer while the program waits for standard input.
fn main(rt: HostRuntime) -> io::Result<()> {
    // Whatever it is: empty, long or no text. None of it is kept.
    if !matches!(rt.arg(1, &mut []), Err(FillError::NotPresent)) {
        return eprintln!(rt; "usage: rollplan < FILE (it takes no argument)");
    }
    let mut input = [0u8; INPUT];
    let mut rows = [0u32; Program::ROWS];
    let mut out = [0u8; Program::TEXT];
    // No heap: a buffer, and beside it how much of it was read.
    let n = match read_all(&mut rt.stdin(), &mut input) {
        Ok(n) => n,
        Err(error) => return fail(&rt, "reading standard input", error),
    };
    let length = rolltext::roll_text(&input[..n], &mut rows, &mut out);
    rt.write_all(&out[..length])
        .or_else(|error| fail(&rt, "writing standard output", error))
}
