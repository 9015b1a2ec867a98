// The kernel's interface for hosts: four functions, each thin over the part that it names. Crate kernel_c exports them to C.
#![tactic(auto)]

ghost use Rattle.kernel.specs.Promises.{TellsDecision, TellsCheck, TellsTranslation, TellsKeyDecision};

use crate::answers::{Answer, of_checked, of_decided, of_key_answer, of_translated};
use checker::check;
use decision::decide;
use keytable::decide_by_keys;
use translation::translate;

pub mod answers;

// Decides the request by the table: fills the sheet, and writes the derivation of a grant.
pub fn rustamgheb_decide(
    table: &[u8],
    request: &[u8],
    sheet: &mut [u32],
    derivation: &mut [u8],
) -> Answer
    ensures { TellsDecision table.now request.now sheet.old derivation.old result sheet.new derivation.new }
{
    of_decided(decide(table, request, sheet, derivation))
}

// Checks the derivation of a request against the table.
pub fn rustamgheb_check(table: &[u8], request: &[u8], derivation: &[u8]) -> Answer
    ensures { TellsCheck table.now request.now derivation.now result }
{
    of_checked(check(table, request, derivation))
}

// Translates the table to a key table, which it writes at the start of `out`.
pub fn rustamgheb_translate(table: &[u8], out: &mut [u8]) -> Answer
    ensures { TellsTranslation table.now out.old result out.new }
{
    of_translated(translate(table, out))
}

// Decides the key request by the key table.
pub fn rustamgheb_decide_by_keys(table: &[u8], request: &[u8]) -> Answer
    ensures { TellsKeyDecision table.now request.now result }
{
    of_key_answer(decide_by_keys(table, request))
}
