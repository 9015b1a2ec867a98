// Cases of one part, and of a table and a request.
use crate::input::{Stopped, read_part};
use std::io::{Read, Write};
use streams::large_buffer;

// Reads a case of one part and answers it.
pub fn answer_one<R: Read, W: Write, F: FnOnce(&mut W, &[u8])>(
    input: &mut R,
    out: &mut W,
    answer: F,
) -> Result<(), Stopped>
    requires { F.IsAlwaysCallable answer }
{
    let mut buffer = large_buffer();
    let bytes = read_part(input, &mut buffer)?;
    answer(out, bytes);
    Ok(())
}

// Reads a case of a table and a request, and answers it.
pub fn answer_two<R: Read, W: Write, F: FnOnce(&mut W, &[u8], &[u8])>(
    input: &mut R,
    out: &mut W,
    answer: F,
) -> Result<(), Stopped>
    requires { F.IsAlwaysCallable answer }
{
    let mut first = large_buffer();
    let table = read_part(input, &mut first)?;
    let mut second = large_buffer();
    let request = read_part(input, &mut second)?;
    answer(out, table, request);
    Ok(())
}
