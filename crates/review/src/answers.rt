// The reviewer's list of answers in words: the number on the first line, then its name, its place if it has one, and what it means.
use crate::printing::say;
use kernel::answers::{Answer, WRONG_REQUEST};

pub const WRONG_USE: u32 = 64;

pub const NO_INPUT: u32 = 66;

pub const NO_OUTPUT: u32 = 73;

// The name of an answer, and what it means in a sentence. The numbers are those that C gets.
fn words_of(number: u32) -> (&'static str, &'static str) {
    match number {
        1 => ("Long", "the table is over its byte limit."),
        2 => ("Cut", "the table ends before a number is whole."),
        3 => (
            "Number",
            "a number is not in its shortest form, or is too large.",
        ),
        4 => (
            "Range",
            "a number is outside its field; a count is a number too.",
        ),
        5 => (
            "Twice",
            "a second space has this key, or a space binds this base name a second time.",
        ),
        6 => ("Extra", "bytes follow the last record."),
        7 => (
            "Version",
            "the first number is not the version of such a table.",
        ),
        8 => (
            "Request",
            "the request is not well formed, or names a space that the table does not have.",
        ),
        9 => ("Room", "a buffer for the output is short."),
        10 => ("Unnamed", "the subject's name has no meaning."),
        11 => ("Denied", "the subject has a meaning, but no access."),
        12 => (
            "Not a derivation",
            "it is malformed, or does not hold in this table for this request.",
        ),
        _ => (
            "Overrun",
            "access is there, but the derivation found does not fit in 512 bytes.",
        ),
    }
}

// Writes the number of the answer on a line of its own.
pub fn say_answer(rt: &impl Print, number: u32) {
    say!(rt; "{number}\n");
}

// Writes a refusal, with the place of a table's fault.
pub fn say_refusal(rt: &impl Print, answer: Answer) {
    let number = answer.number;
    let (name, meaning) = words_of(number);
    say_answer(rt, number);
    say!(rt; "{number} {name}");
    if number < WRONG_REQUEST {
        say!(rt; " at offset {}", answer.offset);
    }
    say!(rt; ": {meaning}\n");
}
