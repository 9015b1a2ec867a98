// Reading until a buffer is full, and writing bytes and numbers, over any stream: what the programs share.
#![tactic(auto)]

ghost use Rattle.std.specs.Prelude.{◌≡◌, length, take, OnOk};
ghost use Rattle.std.specs.Io.KnownBytes.{Appends, Consumes};
ghost use Rattle.std.specs.Fmt.{decimal};
ghost use Rattle.streams.specs.Counts.{IsPrefixLen};
ghost use Rattle.streams.specs.Digits.{padded_hex};

use std::io::{self, Read, Write};

// 65,536 zeros: room for a file, or for a part of a case.
pub fn large_buffer() -> [u8; 65536]
    ensures { 65536 ≡ length result }
{
    [0; 65536]
}

// Writes all of the bytes; after an error some of them may have been written.
pub fn write_all<W: Write>(out: &mut W, bytes: &[u8]) -> io::Result<()>
    ensures { OnOk result (Appends (W.contents out.old) (W.contents out.new) bytes.now) }
{
    out.write_all(bytes)
}

// Reads until the buffer is full, the input ends or a read fails, and answers how many bytes it put at the start.
pub fn read_full<R: Read>(input: &mut R, buffer: &mut [u8]) -> usize
    ensures within { IsPrefixLen result buffer.new }
    ensures bytes { Consumes (R.remaining input.old) (R.remaining input.new) (take result buffer.new) }
{
    let mut done = 0;
    while done < buffer.len() {
        match input.read(&mut buffer[done..]) {
            Ok(0) | Err(_) => return done,
            Ok(more) => done += more,
        }
    }
    done
}

// Writes the number in decimal digits, and answers as `write_all` does.
pub fn print_decimal<W: Write>(out: &mut W, number: u64) -> io::Result<()>
    ensures { OnOk result (Appends (W.contents out.old) (W.contents out.new) (decimal number)) }
{
    write!(out, "{number}")
}

// Writes the number in hexadecimal digits, with zeros in front up to so many, and answers as `write_all` does.
pub fn print_hex<W: Write>(out: &mut W, number: u64, width: usize) -> io::Result<()>
    ensures { OnOk result (Appends (W.contents out.old) (W.contents out.new) (padded_hex width number)) }
{
    write!(out, "{number:0width$x}")
}
