// The lines of a plan, put at the front of a buffer; how many bytes they take comes back.
ghost use Rattle.std.specs.Prelude.{◌≡◌, ◌*◌, ◌≤◌, length};
ghost use Rattle.answers.specs.Numbers.{width};
ghost use Rattle.lists.specs.Puts.{Puts};
ghost use Rattle.text.specs.Text.{first_line, row_lines, line_room, text_room};

use crate::put;
use answers::Row;

// The first line: its word, and three numbers.
pub fn put_first(number: u64, place: u64, blocks: u64, out: &mut [u8]) -> usize
    requires { text_room 0 ≤ length out.old }
    ensures puts { Puts out.old 0 (first_line number place blocks) result out.new }
    ensures upper_bound { result ≤ text_room 0 }
{
    let word = put::put(b"plan ", out);
    word + put::put_line(&[number, place, blocks], &mut out[word..])
}

// The numbers of a row in 64 bits, as a line takes them.
fn widened(row: &[u32; Row::WIDTH]) -> [u64; Row::WIDTH]
    ensures { result ≡ row.now }
{
    row.map(u64::from)
}

// One line a block. The rows are a flat buffer and a block count, as they come from plan through C.
pub fn put_rows(rows: &[u32], blocks: usize, out: &mut [u8]) -> usize
    requires rows_long { width * blocks ≤ length rows.now }
    requires room { line_room width * blocks ≤ length out.old }
    ensures puts { Puts out.old 0 (row_lines rows.now blocks) result out.new }
    ensures upper_bound { result ≤ line_room width * blocks }
{
    let (rows, _) = rows.as_chunks::<{ Row::WIDTH }>();
    let mut behind = 0;
    for row in &rows[..blocks] {
        behind += put::put_line(&widened(row), &mut out[behind..]);
    }
    behind
}
