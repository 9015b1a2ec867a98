// review decide-by-keys KEYTABLE KEYREQUEST: decides over a key table.
use crate::answers::{say_answer, say_refusal};
use crate::asking::ask_by_keys;
use crate::files::read_file;
use crate::printing::say;
use crate::troubles::Trouble;
use kernel::answers::DONE;
use kernel::rustamgheb_decide_by_keys;
use std::rt::{Env, Files};
use streams::large_buffer;

// Answers a key request by a key table.
pub fn answer(rt: &impl Print, table: &[u8], request: &[u8]) {
    let told = rustamgheb_decide_by_keys(table, request);
    if told.number != DONE {
        say_refusal(rt, told);
        return;
    }
    say_answer(rt, DONE);
    say!(rt; "0 Granted, depth {}.\n", told.depth);
}

// Reads the key table and the key request, and answers.
pub fn run(rt: &(impl Env + Files + Print)) -> Result<(), Trouble> {
    let mut first = large_buffer();
    let table = read_file(rt, 2, &mut first)?;
    let mut second = large_buffer();
    let request = ask_by_keys(rt, &mut second, 3)?;
    answer(rt, &first[..table], &second[..request]);
    Ok(())
}
