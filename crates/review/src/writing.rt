// A request that words say, written number by number with the kernel's own writer. What is answered is the place after what was written;
// nothing, where a word says no number or there is no more room.
ghost use Rattle.std.specs.Prelude.{IfSome};
ghost use Rattle.streams.specs.Counts.{IsPrefixLen};

use crate::words::{is_word, number_word};
use std::rt::Env;

// The longest number.
const MOST_BYTES: usize = 5;

// The words `owner S object O right R`.
const LAST_WORDS: usize = 6;

// No name has more than 4 base names; the kernel says so of one that has.
const MOST_BASES: usize = 16;

// Writes the number at the place `at`.
fn put_number(out: &mut [u8], at: usize, value: u32) -> Option<usize>
    ensures { IfSome result (λ n. IsPrefixLen n out.new) }
{
    if out.len() < MOST_BYTES || out.len() - MOST_BYTES < at {
        return None;
    }
    Some(wire::put(out, at, value))
}

// Writes the number that word number `i` says at the place `at`.
fn put_word(rt: &impl Env, out: &mut [u8], at: usize, i: usize) -> Option<usize>
    ensures { IfSome result (λ n. IsPrefixLen n out.new) }
{
    let value = number_word(rt, i)?;
    put_number(out, at, value)
}

// Writes the numbers that the words from number `first` to before `end` say.
fn put_words(
    rt: &impl Env,
    out: &mut [u8],
    from: usize,
    first: usize,
    end: usize,
) -> Option<usize> {
    let mut at = from;
    for i in first..end {
        at = put_word(rt, out, at, i)?;
    }
    Some(at)
}

// Writes a name: the words `S B1 B2 ..` from number `first` to before `end`.
fn put_name(rt: &impl Env, out: &mut [u8], first: usize, end: usize) -> Option<usize> {
    if end <= first {
        return None;
    }
    let bases = end - first - 1;
    if MOST_BASES < bases {
        return None;
    }
    let after_form = put_number(out, 0, 1)?;
    let after_space = put_word(rt, out, after_form, first)?;
    let after_count = put_number(out, after_space, bases as u32)?;
    put_words(rt, out, after_count, first + 1, end)
}

// Writes a key: the word `K`, number `first`, and no other before `end`.
fn put_key(rt: &impl Env, out: &mut [u8], first: usize, end: usize) -> Option<usize> {
    if end <= first || end - first != 1 {
        return None;
    }
    let after_form = put_number(out, 0, 0)?;
    put_word(rt, out, after_form, first)
}

// Writes the subject: `key K`, or `name S B1 B2 ..`, in the words from number `first` to before `end`.
fn put_subject(rt: &impl Env, out: &mut [u8], first: usize, end: usize) -> Option<usize> {
    if end <= first {
        return None;
    }
    if is_word(rt, first, b"key") {
        return put_key(rt, out, first + 1, end);
    }
    if is_word(rt, first, b"name") {
        return put_name(rt, out, first + 1, end);
    }
    None
}

// Writes the owner, the object and the right: the last six words before `end`, `owner S object O right R`.
fn put_wanted(rt: &impl Env, out: &mut [u8], at: usize, end: usize) -> Option<usize>
    ensures { IfSome result (λ n. IsPrefixLen n out.new) }
{
    if end < LAST_WORDS
        || !is_word(rt, end - 6, b"owner")
        || !is_word(rt, end - 4, b"object")
        || !is_word(rt, end - 2, b"right")
    {
        return None;
    }
    let after_owner = put_word(rt, out, at, end - 5)?;
    let after_object = put_word(rt, out, after_owner, end - 3)?;
    put_word(rt, out, after_object, end - 1)
}

// Writes the request that the words from number `first` to before `end` say.
pub fn put_request(rt: &impl Env, out: &mut [u8], first: usize, end: usize) -> Option<usize>
    ensures { IfSome result (λ n. IsPrefixLen n out.new) }
{
    if end < LAST_WORDS {
        return None;
    }
    let after_subject = put_subject(rt, out, first, end - LAST_WORDS)?;
    put_wanted(rt, out, after_subject, end)
}

// Writes the key request that the words from number `first` to before `end` say.
pub fn put_key_request(rt: &impl Env, out: &mut [u8], first: usize, end: usize) -> Option<usize>
    ensures { IfSome result (λ n. IsPrefixLen n out.new) }
{
    if end <= first || end - first != LAST_WORDS + 2 || !is_word(rt, first, b"key") {
        return None;
    }
    let after_subject = put_word(rt, out, 0, first + 1)?;
    put_wanted(rt, out, after_subject, end)
}
