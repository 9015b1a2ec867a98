// The decision: whether a request is granted, at the greatest depth, with a derivation.
#![tactic(auto)]

ghost use Rattle.decision.specs.Promise.{Decides};

use crate::deciding::decide_good;
use matching::opening::Rows;
use records::faults::Fault;
use rules::Depth;

pub mod deciding;
pub mod finding;
pub mod gathering;
pub mod settling;
pub mod showing;
pub mod writing;

// What is granted: the greatest depth, with a derivation of that length.
#[derive(Clone, Copy, PartialEq, Eq)]
pub struct Grant {
    pub depth: Depth,
    pub length: usize,
}

// Why nothing is granted.
#[derive(Clone, Copy, PartialEq, Eq)]
pub enum Refusal {
    Table(Fault),
    Request,
    Room,
    Unnamed,
    Denied,
    Overrun,
}

// Decides the request by the table: fills the sheet, and writes the derivation of a grant.
pub fn decide(
    table: &[u8],
    request: &[u8],
    sheet: &mut [u32],
    derivation: &mut [u8],
) -> Result<Grant, Refusal>
    ensures { Decides table.now request.now sheet.old derivation.old result sheet.new derivation.new }
{
    let mut rows = Rows::new();
    let good = rows.open(table).map_err(Refusal::Table)?;
    decide_good(&good, request, sheet, derivation)
}
