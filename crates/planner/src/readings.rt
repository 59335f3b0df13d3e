// The offsets of readings.
ghost use Rattle.std.specs.Prelude.{◌≡◌, ◌≤◌, map, length, take};
ghost use Rattle.rules.specs.Offsets.{offset};

// A reading's offset: the clock runs past its top and goes on from 0.
pub fn offset(reading: u32, reference: u32) -> u32
    ensures { result ≡ offset reference reading }
{
    reading.wrapping_sub(reference)
}

// The offsets of all readings, at the front of out. (By out.iter_mut().zip(readings) the kit would know
// nothing of what out then holds.)
pub fn offsets(readings: &[u32], reference: u32, out: &mut [u32])
    requires { length readings.now ≤ length out.old }
    ensures { take (length readings.now) out.new ≡ map (offset reference) readings.now }
{
    for (i, reading) in readings.iter().enumerate() {
        out[i] = offset(*reading, reference);
    }
}
