// The reviewer's list of answers, as a host gets them: a number, with the values that the answer carries.
ghost use Rattle.std.specs.Prelude.{◌≡◌};
ghost use Rattle.kernel.specs.Answers.{fault_number, succeeded, bare, of_fault, of_decided, of_checked, of_translated, of_key_answer, Fits};

use decision::Grant;
use keytable::KeyRefusal;
use records::faults::{Fault, Kind};
use rules::Depth;

// The numbers stay plain: C gets them as they are.
pub const DONE: u32 = 0;

pub const WRONG_REQUEST: u32 = 8;

pub const ROOM: u32 = 9;

pub const UNNAMED: u32 = 10;

pub const DENIED: u32 = 11;

pub const NOT_A_DERIVATION: u32 = 12;

pub const OVERRUN: u32 = 13;

// What an answer does not carry is 0.
#[repr(C)]
#[derive(Clone, Copy)]
pub struct Answer {
    pub number: u32,
    pub offset: u32,
    pub depth: u32,
    pub length: u32,
}

// The number of a fault of this kind. No From: both types are other crates'.
pub fn number_of(kind: Kind) -> u32
    ensures { result ≡ fault_number kind }
{
    match kind {
        Kind::Long => 1,
        Kind::Cut => 2,
        Kind::Number => 3,
        Kind::Range => 4,
        Kind::Twice => 5,
        Kind::Extra => 6,
        Kind::Version => 7,
    }
}

// A refusal that carries nothing.
pub fn refusal(number: u32) -> Answer
    ensures { result ≡ bare number }
{
    Answer {
        number,
        offset: 0,
        depth: 0,
        length: 0,
    }
}

// A success, with its depth and length.
pub fn success(depth: u32, length: usize) -> Answer
    requires { Fits (succeeded depth length) }
    ensures { result ≡ succeeded depth length }
{
    Answer {
        number: DONE,
        offset: 0,
        depth,
        length: length as u32,
    }
}

// A fault, with its offset. This and those below are no From: each asks that its answer fits, and a From may ask nothing.
pub fn of_fault(fault: Fault) -> Answer
    requires { Fits (of_fault fault) }
    ensures { result ≡ of_fault fault }
{
    Answer {
        number: number_of(fault.kind),
        offset: fault.place.offset as u32,
        depth: 0,
        length: 0,
    }
}

// The decision's answer.
pub fn of_decided(answer: Result<Grant, decision::Refusal>) -> Answer
    requires { Fits (of_decided answer) }
    ensures { result ≡ of_decided answer }
{
    match answer {
        Ok(grant) => success(grant.depth.number(), grant.length),
        Err(decision::Refusal::Table(fault)) => of_fault(fault),
        Err(decision::Refusal::Request) => refusal(WRONG_REQUEST),
        Err(decision::Refusal::Room) => refusal(ROOM),
        Err(decision::Refusal::Unnamed) => refusal(UNNAMED),
        Err(decision::Refusal::Denied) => refusal(DENIED),
        Err(decision::Refusal::Overrun) => refusal(OVERRUN),
    }
}

// The checker's answer.
pub fn of_checked(answer: Result<Depth, checker::Refusal>) -> Answer
    requires { Fits (of_checked answer) }
    ensures { result ≡ of_checked answer }
{
    match answer {
        Ok(depth) => success(depth.number(), 0),
        Err(checker::Refusal::Table(fault)) => of_fault(fault),
        Err(checker::Refusal::Request) => refusal(WRONG_REQUEST),
        Err(checker::Refusal::Derivation) => refusal(NOT_A_DERIVATION),
    }
}

// The translation's answer.
pub fn of_translated(answer: Result<usize, translation::Refusal>) -> Answer
    requires { Fits (of_translated answer) }
    ensures { result ≡ of_translated answer }
{
    match answer {
        Ok(length) => success(0, length),
        Err(translation::Refusal::Table(fault)) => of_fault(fault),
        Err(translation::Refusal::Room) => refusal(ROOM),
    }
}

// The answer of the decision over a key table.
pub fn of_key_answer(answer: Result<Depth, KeyRefusal>) -> Answer
    requires { Fits (of_key_answer answer) }
    ensures { result ≡ of_key_answer answer }
{
    match answer {
        Ok(depth) => success(depth.number(), 0),
        Err(KeyRefusal::Table(fault)) => of_fault(fault),
        Err(KeyRefusal::Request) => refusal(WRONG_REQUEST),
        Err(KeyRefusal::Denied) => refusal(DENIED),
    }
}
