// review translate TABLE OUT: writes the table's key table.
use crate::answers::{say_answer, say_refusal};
use crate::files::{read_file, write_file};
use crate::printing::say;
use crate::troubles::Trouble;
use kernel::answers::DONE;
use kernel::rustamgheb_translate;
use std::rt::{Env, Files};
use streams::large_buffer;

// Writes the key table, and says so.
fn done(rt: &(impl Env + Files + Print), key_table: &[u8]) -> Result<(), Trouble> {
    write_file(rt, 3, key_table)?;
    say_answer(rt, DONE);
    say!(rt; "0 Translated: the key table has {} bytes.\n", key_table.len());
    Ok(())
}

// Translates the table.
fn answer(rt: &(impl Env + Files + Print), table: &[u8]) -> Result<(), Trouble> {
    let mut out = [0u8; 16384];
    let told = rustamgheb_translate(table, &mut out);
    if told.number != DONE {
        say_refusal(rt, told);
        return Ok(());
    }
    let length = told.length as usize;
    done(rt, &out[..length])
}

// Reads the table, and translates it.
pub fn run(rt: &(impl Env + Files + Print)) -> Result<(), Trouble> {
    let mut first = large_buffer();
    let table = read_file(rt, 2, &mut first)?;
    answer(rt, &first[..table])
}
