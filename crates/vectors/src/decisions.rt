// Kind 10: decides a request.
ghost use Rattle.std.specs.Prelude.{◌≡◌, ◌*◌, ◌≤◌, length, drop};
ghost use Rattle.kernel.specs.Promises.{TellsDecision};
ghost use Rattle.vectors.specs.Hashes.{hash_of, numbers_bytes};

use crate::hashes::{hash_of, hash_of_numbers, write_hash, write_hex};
use crate::input::{Stopped, read_part};
use crate::lines::{end_line, write_answer};
use kernel::answers::Answer;
use kernel::rustamgheb_decide;
use std::io::{Read, Write};
use streams::{large_buffer, write_all};

// What the line says: the answer, the hash of the whole sheet, and the hash of the bytes behind the derivation.
#[derive(Clone, Copy)]
pub struct Row {
    pub answer: Answer,
    pub sheet: u32,
    pub rest: u32,
}

// The row of a request that is decided.
fn row_of(table: &[u8], request: &[u8], sheet: &mut [u32], derivation: &mut [u8]) -> Row
    ensures tells_decision { TellsDecision table.now request.now sheet.old derivation.old result.answer sheet.new derivation.new }
    ensures sheet { result.sheet ≡ hash_of (numbers_bytes sheet.new) }
    ensures rest { result.rest ≡ hash_of (drop result.answer.length derivation.new) }
    ensures fits { result.answer.length ≤ length derivation.old }
{
    let answer = rustamgheb_decide(table, request, sheet, derivation);
    Row {
        answer,
        sheet: hash_of_numbers(sheet),
        rest: hash_of(&derivation[answer.length as usize..]),
    }
}

// Reads numbers of 4 bytes each, lowest first; there are as many as there is room for.
fn read_numbers(bytes: &[u8], numbers: &mut [u32])
    requires { 4 * length numbers.old ≤ length bytes.now }
{
    for (number, four) in numbers.iter_mut().zip(bytes.as_chunks::<4>().0) {
        *number = u32::from_le_bytes(*four);
    }
}

// Writes the line: the derivation in digits, or a dash.
fn write_row<W: Write>(out: &mut W, row: Row, derivation: &[u8])
    requires { row.answer.length ≤ length derivation.now }
{
    write_answer(out, row.answer);
    write_hash(out, row.sheet);
    write_hash(out, row.rest);
    let length = row.answer.length as usize;
    if length == 0 {
        let _ = write_all(out, b" -");
    } else {
        write_hex(out, &derivation[..length]);
    }
    end_line(out);
}

// Answers the case: decides with a sheet that holds the third part's numbers before, and writes the line.
pub fn answer<R: Read, W: Write>(input: &mut R, out: &mut W) -> Result<(), Stopped> {
    let mut first = large_buffer();
    let table = read_part(input, &mut first)?;
    let mut second = large_buffer();
    let request = read_part(input, &mut second)?;
    let mut third = [0; 4096];
    let before = read_part(input, &mut third)?;
    let mut fourth = large_buffer();
    let derivation = read_part(input, &mut fourth)?;
    let mut numbers = [0; 1024];
    let sheet = &mut numbers[..before.len() / 4];
    read_numbers(before, sheet);
    let row = row_of(table, request, sheet, derivation);
    write_row(out, row, derivation);
    Ok(())
}
