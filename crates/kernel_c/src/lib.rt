// The kernel's interface for hosts in C: four functions, which answer what those of crate kernel answer. See include/rustamgheb.h.
#![tactic(auto)]

ghost use Rattle.kernel.specs.Promises.{TellsDecision, TellsCheck, TellsTranslation, TellsKeyDecision};

use kernel::answers::Answer;

// Decides the request by the table: fills the sheet, and writes the derivation of a grant.
#[unsafe(no_mangle)]
pub extern "C" fn rustamgheb_decide(
    table: &[u8],
    request: &[u8],
    sheet: &mut [u32],
    derivation: &mut [u8],
) -> Answer
    ensures { TellsDecision table.now request.now sheet.old derivation.old result sheet.new derivation.new }
{
    kernel::rustamgheb_decide(table, request, sheet, derivation)
}

// Checks the derivation of a request against the table.
#[unsafe(no_mangle)]
pub extern "C" fn rustamgheb_check(table: &[u8], request: &[u8], derivation: &[u8]) -> Answer
    ensures { TellsCheck table.now request.now derivation.now result }
{
    kernel::rustamgheb_check(table, request, derivation)
}

// Translates the table to a key table, which it writes at the start of `out`.
#[unsafe(no_mangle)]
pub extern "C" fn rustamgheb_translate(table: &[u8], out: &mut [u8]) -> Answer
    ensures { TellsTranslation table.now out.old result out.new }
{
    kernel::rustamgheb_translate(table, out)
}

// Decides the key request by the key table.
#[unsafe(no_mangle)]
pub extern "C" fn rustamgheb_decide_by_keys(table: &[u8], request: &[u8]) -> Answer
    ensures { TellsKeyDecision table.now request.now result }
{
    kernel::rustamgheb_decide_by_keys(table, request)
}
