// review COMMAND WORDS: answers with the kernel, and says in words why. The first line that it writes is the answer's number,
// or 64 for words that say nothing, 66 for a file that cannot be read, 73 for one that cannot be written.
#![tactic(auto)]

use crate::troubles::{Trouble, say_trouble};
use std::rt::{Env, Files};

mod answers;
mod asking;
mod chains;
mod checking;
mod columns;
mod deciding;
mod explaining;
mod files;
mod finding;
mod key_deciding;
mod names;
mod opened;
mod opening;
mod printing;
mod recounting;
mod showing;
mod translating;
mod troubles;
mod words;
mod writing;

// Carries out the command that the first word says.
fn run(rt: &(impl Env + Files + Print)) -> Result<(), Trouble> {
    let mut word = [0u8; 16];
    let length = rt.arg(1, &mut word).map_err(|_| Trouble::NoCommand)?;
    match &word[..length] {
        b"decide" => deciding::run(rt),
        b"check" => checking::run(rt),
        b"translate" => translating::run(rt),
        b"decide-by-keys" => key_deciding::run(rt),
        b"show" => showing::run(rt),
        _ => Err(Trouble::NoCommand),
    }
}

fn main(rt: HostRuntime) {
    if let Err(trouble) = run(&rt) {
        say_trouble(&rt, trouble);
    }
}
