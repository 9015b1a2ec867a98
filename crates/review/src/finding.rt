// A binding by its number, read where it stands in a good table, and what it means by a sheet.
ghost use Rattle.std.specs.Prelude.{◌≡◌, ◌<◌, ◌≤◌, length, slice_index, MatchOption};
ghost use Rattle.table.specs.ReadTable.{table_at};
ghost use Rattle.review.specs.Bindings.{IsBinding};

use records::bindings::{Binding, read_binding};
use rules::Key;
use sheet::names::Names;

// Binding number `i`.
pub fn binding_at(names: &Names, i: usize) -> Binding
    requires { i < length names.now.packed.now }
    ensures { IsBinding (table_at names.now.table.now) i result }
{
    let place = usize::from(names.bindings[i]);
    let (binding, _) = read_binding(&names.table[place..], names.keys.len(), &[]).unwrap();
    binding
}

// What binding number `i` means, by the sheet: a key, unless its entry is 0.
pub fn meaning_at(sheet: &[u32], i: usize) -> Option<Key>
    requires { i < length sheet.now }
    ensures { MatchOption result (slice_index sheet.now i ≡ 0) (λ k. (k.0 ≡ slice_index sheet.now i) × (1 ≤ k.0)) }
{
    match sheet[i] {
        0 => None,
        key => Some(Key(key)),
    }
}
