// One number, read and written: groups of seven bits, low group first; the top bit is set in every byte but the last.
#![tactic(auto)]

ghost use Rattle.std.specs.Prelude.{◌≡◌, ◌+◌, ◌≤◌, ◌<◌, length};
ghost use Rattle.wire.specs.Number.{most_bytes, number_at, number_read, bytes_of};
ghost use Rattle.wire.specs.Reading.{ended};
ghost use Rattle.wire.specs.Placed.{placed};

pub mod glancing;

// Why the bytes hold no number where one is to begin.
#[derive(Clone, Copy, PartialEq, Eq)]
pub enum NumberFault {
    // The bytes end before its last one.
    Cut,
    // Not the shortest form, too large, or no end in five bytes.
    Wrong,
}

// The number that is `value` in all and whose last byte this is, where `i` bytes stand before it; with the bytes it takes.
fn end(value: u64, i: usize, byte: u64) -> Result<(u32, usize), NumberFault>
    requires { (i < most_bytes) × (i ≡ 0 → value < 128) }
    ensures { result ≡ number_read (ended value i byte) }
{
    if i == 0 {
        return Ok((value as u32, 1));
    }
    if byte == 0 || u64::from(u32::MAX) < value {
        return Err(NumberFault::Wrong);
    }
    Ok((value as u32, i + 1))
}

// The number that `rest` begins with, and the bytes it takes, group by group: each counts 128 times as much as the one before it.
pub fn read(rest: &[u8]) -> Result<(u32, usize), NumberFault>
    ensures { result ≡ number_read (number_at rest.now) }
{
    let mut value = 0;
    let mut unit = 1;
    for (i, &group) in rest.iter().enumerate() {
        let byte = u64::from(group);
        value += byte % 128 * unit;
        if byte < 128 {
            return end(value, i, byte);
        }
        if i == 4 {
            return Err(NumberFault::Wrong);
        }
        unit *= 128;
    }
    Err(NumberFault::Cut)
}

// Writes the number at the start of `out`, and returns how many bytes it takes.
pub fn write(out: &mut [u8], value: u32) -> usize
    requires { length (bytes_of value) ≤ length out.old }
    ensures { (result ≡ length (bytes_of value)) × (out.new ≡ placed out.old 0 (bytes_of value)) }
{
    if value < 128 {
        out[0] = value as u8;
        return 1;
    }
    out[0] = (128 + value % 128) as u8;
    write(&mut out[1..], value / 128) + 1
}

// Writes the number at the place `at`, and returns the place after it.
pub fn put(out: &mut [u8], at: usize, value: u32) -> usize
    requires { at + length (bytes_of value) ≤ length out.old }
    ensures { (result ≡ at + length (bytes_of value)) × (out.new ≡ placed out.old at (bytes_of value)) }
{
    at + write(&mut out[at..], value)
}
