// Kind 11: checks a derivation.
use crate::input::{Stopped, read_part};
use crate::lines::write_answer_line;
use kernel::rustamgheb_check;
use std::io::{Read, Write};
use streams::large_buffer;

// Answers the case.
pub fn answer<R: Read, W: Write>(input: &mut R, out: &mut W) -> Result<(), Stopped> {
    let mut first = large_buffer();
    let table = read_part(input, &mut first)?;
    let mut second = large_buffer();
    let request = read_part(input, &mut second)?;
    let mut third = large_buffer();
    let derivation = read_part(input, &mut third)?;
    write_answer_line(out, rustamgheb_check(table, request, derivation));
    Ok(())
}
