// Kind 3: reads a derivation.
ghost use Rattle.std.specs.Prelude.{◌≡◌};
ghost use Rattle.records.specs.DerivationBytes.{read_derivation};
ghost use Rattle.vectors.specs.Lines.{derivation_line};

use crate::lines::{Line, write_line};
use kernel::answers::{DONE, NOT_A_DERIVATION};
use records::derivations::read_derivation;
use std::io::Write;

// The line of a derivation: how many bindings it lists and how many records its chain has.
fn line_of(bytes: &[u8]) -> Line
    ensures { result ≡ derivation_line (read_derivation bytes.now) }
{
    match read_derivation(bytes) {
        Some(parts) => Line::Three(DONE, parts.bindings, parts.delegations + 1),
        None => Line::One(NOT_A_DERIVATION),
    }
}

// Answers the case.
pub fn answer<W: Write>(out: &mut W, bytes: &[u8]) {
    write_line(out, line_of(bytes));
}
