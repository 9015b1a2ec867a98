// A derivation's chain, record by record, with the depth after each.
ghost use Rattle.review.specs.Steps.{Stepped};

use crate::opened::OpenTable;
use crate::printing::say;
use crate::recounting::{recount_access, recount_delegation};
use records::fields::read_field;
use rules::Depth;

// The depth that is reached.
fn say_depth(rt: &impl Print, depth: Depth) {
    say!(rt; "      depth after it: {}\n", depth.number());
}

// The depth after a step from `before` by a delegation, or nothing where no step is left.
fn step(before: Depth, by: Depth) -> Option<Depth>
    ensures { Stepped before by result }
{
    if before.number() == 0 {
        return None;
    }
    Some(before.step(by))
}

// Delegation number `j` as a step from the depth `before`; answers the depth after it.
fn explain_step(rt: &impl Print, opened: &OpenTable, j: usize, before: Depth) -> Option<Depth> {
    if opened.good.delegations.len() <= j {
        return None;
    }
    let by = recount_delegation(rt, &opened.good.records(), opened.sheet, j);
    let after = step(before, by)?;
    say_depth(rt, after);
    Some(after)
}

// The delegations whose numbers stand from the place `from` on, so many of them, as steps from the depth `start`.
fn explain_steps(
    rt: &impl Print,
    opened: &OpenTable,
    derivation: &[u8],
    from: usize,
    count: usize,
    start: Depth,
) {
    let mut depth = start;
    let mut at = from;
    for _ in 0..count {
        let Ok((value, next)) = read_field(derivation, at, 0, 511) else {
            return;
        };
        let Some(after) = explain_step(rt, opened, value as usize, depth) else {
            return;
        };
        depth = after;
        at = next;
    }
}

// The chain whose access record's number stands at the place `at`, with so many delegations.
pub fn explain_chain(
    rt: &impl Print,
    opened: &OpenTable,
    derivation: &[u8],
    at: usize,
    count: usize,
) {
    let Ok((value, from)) = read_field(derivation, at, 0, 255) else {
        return;
    };
    let i = value as usize;
    if opened.good.accesses.len() <= i {
        return;
    }
    let depth = recount_access(rt, &opened.good.records(), opened.sheet, i);
    say_depth(rt, depth);
    explain_steps(rt, opened, derivation, from, count, depth);
}
