// A request as the words say it, or from a file.
ghost use Rattle.std.specs.Prelude.{IfOk};
ghost use Rattle.streams.specs.Counts.{IsPrefixLen};

use crate::files::read_file;
use crate::troubles::Trouble;
use crate::words::word_count;
use crate::writing::{put_key_request, put_request};
use std::rt::{Env, Files};

// The request that the words from number `first` on say, or the file that the only one of them names.
pub fn ask(rt: &(impl Env + Files), buffer: &mut [u8], first: usize) -> Result<usize, Trouble>
    ensures { IfOk result (λ n. IsPrefixLen n buffer.new) }
{
    let end = word_count(rt);
    if first < end && end - first == 1 {
        return read_file(rt, first, buffer);
    }
    put_request(rt, buffer, first, end).ok_or(Trouble::NoRequest)
}

// The same for a key request. A function taken as a parameter would need a contract longer than what it saves.
pub fn ask_by_keys(
    rt: &(impl Env + Files),
    buffer: &mut [u8],
    first: usize,
) -> Result<usize, Trouble>
    ensures { IfOk result (λ n. IsPrefixLen n buffer.new) }
{
    let end = word_count(rt);
    if first < end && end - first == 1 {
        return read_file(rt, first, buffer);
    }
    put_key_request(rt, buffer, first, end).ok_or(Trouble::NoRequest)
}
