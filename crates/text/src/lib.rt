// Numbers and lines as text, put into a buffer. The text is specs/Text.antt.
#![tactic(auto)]

mod lines;
mod put;

ghost use Rattle.std.specs.Prelude.{◌≤◌, length};
ghost use Rattle.text.specs.Text.{TextIs};

use answers::Row;

// How long the text of a plan can be, for those who keep a buffer for it.
#[derive(Clone, Copy)]
pub struct Text;

impl Text {
    // A number has at most 20 digits, and one byte behind it.
    pub const NUMBER: usize = 21;
    // The first line: its word, and three numbers.
    pub const FIRST: usize = 5 + 3 * Text::NUMBER;
    // A block's line: the numbers of its row.
    pub const LINE: usize = Text::NUMBER * Row::WIDTH;
    // The most blocks that a plan has.
    pub const MOST: usize = 1024;
    // The text of a plan with the most blocks.
    pub const ROOM: usize = Text::FIRST + Text::LINE * Text::MOST;
}

// The text of an answer and its rows, at the front of out; its length comes back. Without room
// nothing is written, and 0 comes back: no Option, since no text is empty, and who writes out so many
// bytes of it needs no case for that. A length beside the buffer, since there is no heap for a String; and
// the three numbers by themselves, since TextIs, which is the promise, has them so. upper_bound stands here
// and in rolltext's say and roll_text, since callers cut the text off by it.
pub fn plan_text(number: u64, place: u64, blocks: usize, rows: &[u32], out: &mut [u8]) -> usize
    ensures text_is { TextIs number place blocks rows.now out.old result out.new }
    ensures upper_bound { result ≤ length out.new }
{
    if Text::MOST < blocks
        || rows.len() < Row::WIDTH * blocks
        || out.len() < Text::FIRST + Text::LINE * blocks
    {
        return 0;
    }
    // `as`: u64 is no From<usize>.
    let behind = lines::put_first(number, place, blocks as u64, out);
    behind + lines::put_rows(rows, blocks, &mut out[behind..])
}
