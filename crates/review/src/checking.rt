// review check TABLE DERIVATION REQUEST: checks the derivation, and explains one that holds.
use crate::answers::{say_answer, say_refusal};
use crate::asking::ask;
use crate::explaining::explain;
use crate::files::read_file;
use crate::opening::open;
use crate::printing::say;
use crate::troubles::Trouble;
use kernel::answers::DONE;
use kernel::rustamgheb_check;
use std::rt::{Env, Files};
use streams::large_buffer;

// Answers whether the derivation holds.
fn answer(rt: &impl Print, table: &[u8], request: &[u8], derivation: &[u8]) {
    let told = rustamgheb_check(table, request, derivation);
    if told.number != DONE {
        say_refusal(rt, told);
        return;
    }
    say_answer(rt, DONE);
    say!(rt; "0 Accepted, depth {}.\n", told.depth);
    open(rt, table, |opened| {
        explain(rt, opened, request, derivation)
    });
}

// Reads the table, the derivation and the request, and answers.
pub fn run(rt: &(impl Env + Files + Print)) -> Result<(), Trouble> {
    let mut first = large_buffer();
    let table = read_file(rt, 2, &mut first)?;
    let mut second = large_buffer();
    let derivation = read_file(rt, 3, &mut second)?;
    let mut third = large_buffer();
    let request = ask(rt, &mut third, 4)?;
    answer(
        rt,
        &first[..table],
        &third[..request],
        &second[..derivation],
    );
    Ok(())
}
