// Puts text at the front of a buffer, and gives back how many bytes it takes.
ghost use Rattle.std.specs.Prelude.{◌≤◌, [], ◌∷◌, ◌++◌, length};
ghost use Rattle.lists.specs.Puts.{Puts};
ghost use Rattle.text.specs.Text.{decimal, line, line_room};

pub fn put(text: &[u8], out: &mut [u8]) -> usize
    requires { length text.now ≤ length out.old }
    ensures { Puts out.old 0 text.now result out.new }
{
    let long = text.len();
    out[..long].copy_from_slice(text);
    long
}

// A number, in decimal: it has at most 20 digits. The kit's io::decimal gives them, since no law ties
// std's decimal text to the definition here (specs/Text.antt).
fn put_number(n: u64, out: &mut [u8]) -> usize
    requires { 20 ≤ length out.old }
    ensures puts { Puts out.old 0 (decimal n) result out.new }
    ensures upper_bound { result ≤ 20 }
{
    let mut digits = [0u8; 20];
    let k = io::decimal(n, &mut digits);
    put(&digits[..k], out)
}

// A number of a line, with the byte that ends it: a space where others follow it, and a line feed
// where it is the last.
fn put_ended(n: u64, end: u8, out: &mut [u8]) -> usize
    requires { line_room 1 ≤ length out.old }
    ensures puts { Puts out.old 0 (decimal n ++ (end ∷ [])) result out.new }
    ensures upper_bound { result ≤ line_room 1 }
{
    let behind = put_number(n, out);
    out[behind] = end;
    behind + 1
}

// A line of numbers: each has a space behind it, but the last has a line feed.
pub fn put_line(numbers: &[u64], out: &mut [u8]) -> usize
    requires nonempty { 1 ≤ length numbers.now }
    requires room { line_room (length numbers.now) ≤ length out.old }
    ensures puts { Puts out.old 0 (line numbers.now) result out.new }
    ensures upper_bound { result ≤ line_room (length numbers.now) }
{
    let last = numbers.len() - 1;
    let mut behind = 0;
    for &n in &numbers[..last] {
        behind += put_ended(n, b' ', &mut out[behind..]);
    }
    behind + put_ended(numbers[last], b'\n', &mut out[behind..])
}
