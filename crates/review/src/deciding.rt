// review decide TABLE SAVE REQUEST: decides, explains a grant, and saves its derivation.
use crate::answers::{say_answer, say_refusal};
use crate::asking::ask;
use crate::explaining::explain;
use crate::files::{read_file, write_file};
use crate::opening::open;
use crate::printing::{say, say_bytes};
use crate::troubles::Trouble;
use crate::words::is_word;
use kernel::answers::{DONE, UNNAMED};
use kernel::rustamgheb_decide;
use std::rt::{Env, Files};
use streams::large_buffer;

// Saves the derivation where that was asked for.
fn save(rt: &(impl Env + Files), derivation: &[u8]) -> Result<(), Trouble> {
    if is_word(rt, 3, b"-") {
        return Ok(());
    }
    write_file(rt, 3, derivation)
}

// Tells a grant.
fn grant(
    rt: &(impl Env + Files + Print),
    table: &[u8],
    request: &[u8],
    depth: u32,
    derivation: &[u8],
) -> Result<(), Trouble> {
    save(rt, derivation)?;
    say_answer(rt, DONE);
    let length = derivation.len();
    say!(rt; "0 Granted, depth {depth}. The derivation has {length} bytes:");
    say_bytes(rt, derivation);
    say!(rt; "\n");
    open(rt, table, |opened| {
        explain(rt, opened, request, derivation)
    });
    Ok(())
}

// Answers a request by a table. From Unnamed on it was read, and what the subject's name goes through is told.
pub fn answer(
    rt: &(impl Env + Files + Print),
    table: &[u8],
    request: &[u8],
) -> Result<(), Trouble> {
    let mut sheet = [0u32; 256];
    let mut derivation = [0u8; 512];
    let told = rustamgheb_decide(table, request, &mut sheet, &mut derivation);
    if told.number == DONE {
        let length = told.length as usize;
        return grant(rt, table, request, told.depth, &derivation[..length]);
    }
    say_refusal(rt, told);
    if UNNAMED <= told.number {
        open(rt, table, |opened| explain(rt, opened, request, b""));
    }
    Ok(())
}

// Reads the table and the request, and answers.
pub fn run(rt: &(impl Env + Files + Print)) -> Result<(), Trouble> {
    let mut first = large_buffer();
    let table = read_file(rt, 2, &mut first)?;
    let mut second = large_buffer();
    let request = ask(rt, &mut second, 4)?;
    answer(rt, &first[..table], &second[..request])
}
