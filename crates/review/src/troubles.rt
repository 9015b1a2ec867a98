// What keeps a command from being carried out, in words.
use crate::answers::{NO_INPUT, NO_OUTPUT, WRONG_USE, say_answer};
use crate::files::say_word;
use crate::printing::say;
use std::rt::Env;

// A file goes by the number of the word that names it.
#[derive(Clone, Copy)]
pub enum Trouble {
    NoCommand,
    NoRequest,
    Unread(usize),
    Unwritten(usize),
    PartlyWritten(usize),
}

impl Trouble {
    // The number that the program answers: of words that say nothing, of a file that cannot be read, of one that cannot be written.
    fn number(self) -> u32 {
        match self {
            Trouble::NoCommand | Trouble::NoRequest => WRONG_USE,
            Trouble::Unread(_) => NO_INPUT,
            Trouble::Unwritten(_) | Trouble::PartlyWritten(_) => NO_OUTPUT,
        }
    }
}

// Writes what the trouble is.
pub fn say_trouble(rt: &(impl Env + Print), trouble: Trouble) {
    say_answer(rt, trouble.number());
    match trouble {
        Trouble::NoCommand => say!(rt; "no such command; './review help' has the words"),
        Trouble::NoRequest => say!(rt; "these words say no request; './review help' has the words"),
        Trouble::Unread(i) => {
            say!(rt; "cannot read ");
            say_word(rt, i);
        }
        Trouble::Unwritten(i) => {
            say!(rt; "cannot write ");
            say_word(rt, i);
        }
        Trouble::PartlyWritten(i) => {
            say!(rt; "cannot write all of ");
            say_word(rt, i);
        }
    }
    say!(rt; "\n");
}
