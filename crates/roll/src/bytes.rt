// Little-endian numbers in bytes. For two bytes and for four there is a function each, as std has it: one
// generic function would need a trait of ours over u16 and u32, with two impls, to say what it gives.
ghost use Rattle.std.specs.Prelude.{◌≡◌, ◌+◌, ◌*◌, ◌≤◌, ◌<◌, length};
ghost use Rattle.roll.specs.Format.{column_in, u16_at, u32_at};

use crate::Trailer;

// Two bytes from a place on.
pub fn u16_at(s: &[u8], at: usize) -> u32
    requires { at + 1 < length s.now }
    ensures { (result ≡ u16_at s.now at) × (result < 65536) }
{
    u32::from(u16::from_le_bytes([s[at], s[at + 1]]))
}

// Four bytes from a place on.
pub fn u32_at(s: &[u8], at: usize) -> u32
    requires { at + 3 < length s.now }
    ensures { result ≡ u32_at s.now at }
{
    u32::from_le_bytes([s[at], s[at + 1], s[at + 2], s[at + 3]])
}

// One number of each record of a part, at a place of the record: of as many records as out has numbers.
pub fn column(part: &[u8], at: usize, out: &mut [u32])
    requires { (12 * length out.old ≤ length part.now) × (at ≤ 8) }
    ensures { out.new ≡ column_in part.now (length out.old) at }
{
    for (i, number) in out.iter_mut().enumerate() {
        *number = u32_at(part, Trailer::RECORD * i + at);
    }
}
