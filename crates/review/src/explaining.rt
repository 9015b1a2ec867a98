// A request and its derivation: who asks for what, the bindings that the derivation lists, and its chain.
use crate::chains::explain_chain;
use crate::names::{InWords, say_space, say_way};
use crate::opened::{Meanings, OpenTable};
use crate::printing::say;
use crate::recounting::recount_binding;
use records::derivations::read_derivation;
use records::fields::{Use, read_field};
use records::requests::read_request;
use records::targets::Target;

// The bindings whose numbers stand from the place `from` on, so many of them.
fn explain_bindings(
    rt: &impl Print,
    opened: &OpenTable,
    derivation: &[u8],
    from: usize,
    count: usize,
) {
    let mut at = from;
    for _ in 0..count {
        let Ok((value, next)) = read_field(derivation, at, 0, 255) else {
            return;
        };
        let i = value as usize;
        if i < opened.good.names.packed.len() {
            recount_binding(rt, &opened.good.names, opened.sheet, i);
        }
        at = next;
    }
}

// Who asks for what, and which key that is.
fn explain_request(rt: &impl Print, opened: &OpenTable, request: &[u8]) {
    let names = &opened.good.names;
    let Some(asked) = read_request(request, names.keys.len()) else {
        return;
    };
    let Use { object, right } = asked.wanted;
    let subject = InWords(asked.subject);
    say!(rt; "Asked: {subject}, right {right} on object {object} of ");
    say_space(rt, names.keys, asked.owner);
    say!(rt; "\n");
    if let Target::Name(space, path) = asked.subject {
        let meanings = Meanings {
            lookup: names.lookup(),
            sheet: opened.sheet,
        };
        say_way(rt, &meanings, space, path);
    }
}

// The request, and the whole derivation.
pub fn explain(rt: &impl Print, opened: &OpenTable, request: &[u8], derivation: &[u8]) {
    explain_request(rt, opened, request);
    let Some(parts) = read_derivation(derivation) else {
        return;
    };
    say!(rt; "\nThe bindings that its names go through:\n");
    explain_bindings(rt, opened, derivation, parts.first, parts.bindings);
    say!(rt; "\nIts chain:\n");
    explain_chain(rt, opened, derivation, parts.chain, parts.delegations);
}
