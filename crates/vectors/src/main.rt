// vectors < CASES > LINES: the answer line of each case of a case file, in the file's order.
#![tactic(auto)]

use crate::input::Stopped;
use crate::kinds::Kind;
use crate::parts::{answer_one, answer_two};
use std::io::{Read, Write};
use streams::read_full;

mod checks;
mod decisions;
mod derivations;
mod hashes;
mod input;
mod key_decisions;
mod key_requests;
mod key_tables;
mod kinds;
mod lines;
mod parts;
mod requests;
mod sheets;
mod tables;
mod translations;

// Answers a case of this kind.
fn answer_case<R: Read, W: Write>(input: &mut R, out: &mut W, kind: Kind) -> Result<(), Stopped> {
    match kind {
        Kind::Table => answer_one(input, out, tables::answer),
        Kind::Request => answer_two(input, out, requests::answer),
        Kind::Derivation => answer_one(input, out, derivations::answer),
        Kind::KeyTable => answer_one(input, out, key_tables::answer),
        Kind::KeyRequest => answer_one(input, out, key_requests::answer),
        Kind::Sheet => answer_one(input, out, sheets::answer),
        Kind::Decision => decisions::answer(input, out),
        Kind::Check => checks::answer(input, out),
        Kind::Translation => translations::answer(input, out),
        Kind::KeyDecision => answer_two(input, out, key_decisions::answer),
    }
}

// Answers the cases up to the end of the input. A proved loop has to end, and nothing says that the input does: the turns are counted.
fn answer_all<R: Read, W: Write>(input: &mut R, out: &mut W) -> Result<(), Stopped> {
    for _ in 0..u64::MAX {
        let mut kind = [0];
        if read_full(input, &mut kind) == 0 {
            return Ok(());
        }
        answer_case(input, out, Kind::try_from(kind[0])?)?;
    }
    Ok(())
}

// What cannot be written is left out, and the program goes on.
fn main(rt: HostRuntime) {
    if let Err(reason) = answer_all(&mut rt.stdin(), &mut rt.stdout()) {
        let _ = eprintln!(rt; "vectors: {reason}");
    }
}
