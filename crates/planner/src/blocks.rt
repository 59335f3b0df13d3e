// Block after block: the nested search over block starts and reports, and the rows.
ghost use Rattle.std.specs.Prelude.{◌≡◌, ◌+◌, ◌*◌, ◌≤◌, length};
ghost use Rattle.answers.specs.Numbers.{width, numbers_of};
ghost use Rattle.planner.specs.Inside.{BlocksIn, put_row, reports_in};

use crate::list::FairList;
use crate::search::Search;
use answers::Row;
use std::ops::ControlFlow;

// Writes row k of a buffer. Number by number: copy_from_slice took a tenth more instructions on 1,024
// reports in 854 blocks (callgrind), and so missed the bar of docs/BENCHMARKS.md, the same search in Rust.
fn put_row(rows: &mut [u32], k: usize, row: Row)
    requires { width * k + width ≤ length rows.old }
    ensures { rows.new ≡ put_row rows.old k (numbers_of row) }
{
    let at = Row::WIDTH * k;
    let numbers: [u32; Row::WIDTH] = row.into();
    for (j, number) in numbers.iter().enumerate() {
        rows[at + j] = *number;
    }
}

// Finds the blocks of the list, writes their rows and returns how many there are. The rows stand in the
// caller's buffer with their number beside it: the buffer is lent through C, and there is no heap. The
// outer loop counts no index: each turn goes on behind the block that it found. The search stands inside it
// and is left with the block's end, as 01 asks for.
pub fn blocks(fair: FairList<'_>, rows: &mut [u32]) -> usize
    requires { width * length fair.list.arrivals.now ≤ length rows.old }
    ensures { BlocksIn (reports_in fair.entry.list) rows.old result rows.new }
{
    let mut count = 0;
    let mut first = 0;
    let mut ended: u32 = 0;
    while first < fair.list.arrivals.len() {
        let from = fair.list.arrivals[first].max(ended);
        let search = Search { fair, first, from };
        let mut kept = search.begin();
        let end = 'search: loop {
            match search.take(kept) {
                ControlFlow::Break(end) => break 'search end,
                ControlFlow::Continue(next) => kept = next,
            }
        };
        // `as`: both fit, by the list's length; try_from would bring an unwrap with the same proof.
        let row = Row {
            first: first as u32,
            last: end.last as u32,
            start: from,
            end: end.time,
            operations: end.operations,
        };
        put_row(rows, count, row);
        count += 1;
        ended = end.time;
        first = end.last + 1;
    }
    count
}
