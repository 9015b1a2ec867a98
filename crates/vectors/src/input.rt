// Parts of a case, on standard input: each its length in 4 bytes, lowest first, and its bytes.
ghost use Rattle.std.specs.Prelude.{◌≡◌, ◌+◌, ◌*◌, ◌≤◌, length, slice_index, IfOk};

use std::fmt;
use std::io::Read;
use streams::read_full;

// Why the program stops before the input ends.
#[derive(Clone, Copy)]
pub enum Stopped {
    NoSuchKind,
    TooLong,
    Ends,
}

impl fmt::Display for Stopped {
    fn fmt<W: fmt::Write>(&self, f: &mut fmt::Formatter<W>) -> fmt::Result {
        f.write_str(match self {
            Stopped::NoSuchKind => "no such kind",
            Stopped::TooLong => "a part is too long",
            Stopped::Ends => "the file ends within a case",
        })
    }
}

// The number that stands in these 4 bytes, lowest first.
fn number_of(four: [u8; 4]) -> usize
    ensures { result ≡ slice_index four 0 + 256 * (slice_index four 1 + 256 * (slice_index four 2 + 256 * slice_index four 3)) }
{
    u32::from_le_bytes(four) as usize
}

// Reads bytes until the buffer is full.
fn fill<R: Read>(input: &mut R, buffer: &mut [u8]) -> Result<(), Stopped> {
    if read_full(input, buffer) < buffer.len() {
        return Err(Stopped::Ends);
    }
    Ok(())
}

// Reads the next part into the start of the buffer, where it stays.
pub fn read_part<'a, R: Read>(input: &mut R, buffer: &'a mut [u8]) -> Result<&'a mut [u8], Stopped>
    ensures { IfOk result (λ part. length part.now ≤ length buffer.old) }
{
    let mut four = [0; 4];
    fill(input, &mut four)?;
    let Some(part) = buffer.get_mut(..number_of(four)) else {
        return Err(Stopped::TooLong);
    };
    fill(input, part)?;
    Ok(part)
}
