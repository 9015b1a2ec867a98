// Kind 12: translates a table.
ghost use Rattle.std.specs.Prelude.{◌≡◌};
ghost use Rattle.kernel.specs.Promises.{TellsTranslation};
ghost use Rattle.vectors.specs.Hashes.{hash_of};

use crate::hashes::{hash_of, write_hash};
use crate::input::{Stopped, read_part};
use crate::lines::{end_line, write_answer};
use kernel::answers::Answer;
use kernel::rustamgheb_translate;
use std::io::{Read, Write};
use streams::large_buffer;

// What the line says: the answer, and the hash of the whole buffer.
#[derive(Clone, Copy)]
pub struct Row {
    pub answer: Answer,
    pub buffer: u32,
}

// The row of a table that is translated.
fn row_of(table: &[u8], buffer: &mut [u8]) -> Row
    ensures { TellsTranslation table.now buffer.old result.answer buffer.new × (result.buffer ≡ hash_of buffer.new) }
{
    let answer = rustamgheb_translate(table, buffer);
    Row {
        answer,
        buffer: hash_of(buffer),
    }
}

// Answers the case.
pub fn answer<R: Read, W: Write>(input: &mut R, out: &mut W) -> Result<(), Stopped> {
    let mut first = large_buffer();
    let table = read_part(input, &mut first)?;
    let mut second = large_buffer();
    let buffer = read_part(input, &mut second)?;
    let row = row_of(table, buffer);
    write_answer(out, row.answer);
    write_hash(out, row.buffer);
    end_line(out);
    Ok(())
}
