// The checker: whether a derivation holds in the table that is shown, and at which depth. It writes nothing.
#![tactic(auto)]

ghost use Rattle.checker.specs.Promise.{Checks};

use crate::holding::check_good;
use matching::opening::Rows;
use records::faults::Fault;
use rules::Depth;

pub mod holding;
pub mod listing;
pub mod walking;

// Why a derivation is not accepted.
#[derive(Clone, Copy, PartialEq, Eq)]
pub enum Refusal {
    Table(Fault),
    Request,
    Derivation,
}

// Checks the derivation of a request against a table: the depth at which it holds.
pub fn check(table: &[u8], request: &[u8], derivation: &[u8]) -> Result<Depth, Refusal>
    ensures { Checks table.now request.now derivation.now result }
{
    let mut rows = Rows::new();
    let good = rows.open(table).map_err(Refusal::Table)?;
    check_good(&good, request, derivation)
}
