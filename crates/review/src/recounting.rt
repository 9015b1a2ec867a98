// Records by their number, in words, with what their names mean.
ghost use Rattle.std.specs.Prelude.{◌<◌, ◌≤◌, length};

use crate::finding::{binding_at, meaning_at};
use crate::names::{InWords, say_space, say_way};
use crate::opened::Meanings;
use crate::printing::say;
use matching::good::Records;
use records::bindings::Binding;
use records::fields::Use;
use rules::{Depth, Key};
use sheet::names::Names;

// What a binding means.
fn say_meaning(rt: &impl Print, meaning: Option<Key>) {
    match meaning {
        None => say!(rt; ", which has no meaning\n"),
        Some(key) => say!(rt; ", which means key {}\n", key.0),
    }
}

// Binding number `i`: the name that it binds, its target, and the key that this means.
pub fn recount_binding(rt: &impl Print, names: &Names, sheet: &[u32], i: usize)
    requires { (length names.now.packed.now ≤ length sheet.now) × (i < length names.now.packed.now) }
{
    let Binding {
        space,
        base,
        target,
    } = binding_at(names, i);
    say!(rt; "  binding {i}: space {} binds {base} to {}", space.0, InWords(target));
    say_meaning(rt, meaning_at(sheet, i));
}

// Access record number `i`: whose list it is in, what it gives and to which name, and which key that means; answers its depth.
pub fn recount_access(rt: &impl Print, records: &Records, sheet: &[u32], i: usize) -> Depth
    requires { (length records.now.lookup.packed.now ≤ length sheet.now) × (i < length records.now.accesses.now) }
{
    let access = records.access(i);
    say!(rt; "  access record {i}: ");
    say_space(rt, records.lookup.keys, access.owner);
    let Use { object, right } = access.wanted;
    let depth = access.depth.number();
    let path = InWords(access.path);
    say!(rt; " gives its name {path} right {right} on object {object}, depth {depth}\n");
    let meanings = Meanings {
        lookup: records.lookup,
        sheet,
    };
    say_way(rt, &meanings, access.owner, access.path);
    access.depth
}

// Delegation number `j`: who wrote it, whose object it is for, what it gives and to which name, and which keys these mean; answers its depth.
pub fn recount_delegation(rt: &impl Print, records: &Records, sheet: &[u32], j: usize) -> Depth
    requires { (length records.now.lookup.packed.now ≤ length sheet.now) × (j < length records.now.delegations.now) }
{
    let delegation = records.delegation(j);
    say!(rt; "  delegation {j}: ");
    say_space(rt, records.lookup.keys, delegation.writer);
    let Use { object, right } = delegation.wanted;
    let depth = delegation.depth.number();
    let path = InWords(delegation.delegatee);
    let owner = InWords(delegation.owner);
    say!(rt; " hands its name {path} right {right} on object {object} of its name {owner}, depth {depth}\n");
    let meanings = Meanings {
        lookup: records.lookup,
        sheet,
    };
    say_way(rt, &meanings, delegation.writer, delegation.owner);
    say_way(rt, &meanings, delegation.writer, delegation.delegatee);
    delegation.depth
}
