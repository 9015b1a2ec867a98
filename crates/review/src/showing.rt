// review show TABLE: shows all records of a table in columns, with what their names mean.
ghost use Rattle.std.specs.Prelude.{◌<◌, length};
ghost use Rattle.sheet.specs.Finds.{Fitting};

use crate::answers::say_answer;
use crate::columns::{key_column, path_column};
use crate::files::read_file;
use crate::finding::{binding_at, meaning_at};
use crate::names::InWords;
use crate::opened::OpenTable;
use crate::opening::open;
use crate::printing::say;
use crate::troubles::Trouble;
use kernel::answers::DONE;
use records::fields::Use;
use records::paths::Path;
use rules::{Key, Space};
use std::rt::{Env, Files};
use streams::large_buffer;

// The key that a name means, if any.
fn key_of(opened: &OpenTable, space: Space, path: Path) -> Option<Key>
    requires { (space.0 < length opened.now.good.names.keys.now) × Fitting path }
{
    opened.good.names.follow_name(opened.sheet, space, path)
}

// The spaces, each with its key.
fn show_spaces(rt: &impl Print, keys: &[u32]) {
    say!(rt; "  space         key\n");
    for (i, key) in keys.iter().enumerate() {
        say!(rt; "{i:7}{key:12}\n");
    }
}

// Binding number `i`.
fn show_binding(rt: &impl Print, opened: &OpenTable, i: usize)
    requires { i < length opened.now.good.names.packed.now }
{
    let binding = binding_at(&opened.good.names, i);
    say!(rt; "{i:9}{:7}{:7}", binding.space.0, binding.base);
    key_column(rt, 12, meaning_at(opened.sheet, i));
    say!(rt; "  {}\n", InWords(binding.target));
}

// The bindings.
fn show_bindings(rt: &impl Print, opened: &OpenTable) {
    say!(rt; "\n  binding  space   name         key  target\n");
    for i in 0..opened.good.names.packed.len() {
        show_binding(rt, opened, i);
    }
}

// Access record number `i`.
fn show_access(rt: &impl Print, opened: &OpenTable, i: usize)
    requires { i < length opened.now.good.accesses.now }
{
    let access = opened.good.access(i);
    let Use { object, right } = access.wanted;
    let depth = access.depth.number();
    say!(rt; "{i:15}{:7}{object:8}{right:7}{depth:7}", access.owner.0);
    key_column(rt, 12, key_of(opened, access.owner, access.path));
    say!(rt; "  {}\n", InWords(access.path));
}

// The access records.
fn show_accesses(rt: &impl Print, opened: &OpenTable) {
    say!(rt; "\n  access record  owner  object  right  depth         key  name\n");
    for i in 0..opened.good.accesses.len() {
        show_access(rt, opened, i);
    }
}

// Delegation number `j`.
fn show_delegation(rt: &impl Print, opened: &OpenTable, j: usize)
    requires { j < length opened.now.good.delegations.now }
{
    let delegation = opened.good.delegation(j);
    let Use { object, right } = delegation.wanted;
    let depth = delegation.depth.number();
    let writer = delegation.writer;
    say!(rt; "{j:12}{:8}{object:8}{right:7}{depth:7}", writer.0);
    key_column(rt, 12, key_of(opened, writer, delegation.owner));
    key_column(rt, 12, key_of(opened, writer, delegation.delegatee));
    say!(rt; "  ");
    path_column(rt, delegation.owner);
    say!(rt; "  {}\n", InWords(delegation.delegatee));
}

// The delegations.
fn show_delegations(rt: &impl Print, opened: &OpenTable) {
    say!(rt; "\n  delegation  writer  object  right  depth   owner key         key  owner                    name\n");
    for j in 0..opened.good.delegations.len() {
        show_delegation(rt, opened, j);
    }
}

// The whole table.
pub fn show(rt: &impl Print, opened: &OpenTable) {
    say_answer(rt, DONE);
    show_spaces(rt, opened.good.names.keys);
    show_bindings(rt, opened);
    show_accesses(rt, opened);
    show_delegations(rt, opened);
}

// Reads the table, and shows it.
pub fn run(rt: &(impl Env + Files + Print)) -> Result<(), Trouble> {
    let mut first = large_buffer();
    let table = read_file(rt, 2, &mut first)?;
    open(rt, &first[..table], |opened| show(rt, opened));
    Ok(())
}
