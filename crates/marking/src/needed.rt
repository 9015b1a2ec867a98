// Marking what the marked bindings need: each listed binding's target goes through bindings listed before it, so one pass from the last to the first is enough.
ghost use Rattle.std.specs.Prelude.{◌<◌, ◌≤◌, length};
ghost use Rattle.rules.specs.Sheets.{Exact};
ghost use Rattle.table.specs.ReadTable.{table_at};
ghost use Rattle.marking.specs.Marks.{Adds};
ghost use Rattle.marking.specs.Needed.{Listed, Wanted, Needed};

use crate::keeping::is_marked;
use crate::through::mark_target;
use records::bindings::read_binding;
use sheet::names::Names;

// If binding number `i` is marked, marks the bindings that its target goes through.
fn mark_for(names: &Names<'_>, sheet: &[u32], marks: &mut [bool], i: usize)
    requires { Exact (table_at names.now.table.now).names sheet.now × (length names.now.packed.now ≤ length sheet.now) × (length names.now.packed.now ≤ length marks.old) × (i < length names.now.packed.now) }
    ensures { Adds (Wanted (table_at names.now.table.now).names marks.old i) marks.old marks.new }
{
    if !is_marked(marks, i) {
        return;
    }
    let place = names.bindings[i] as usize;
    let Ok((binding, _)) = read_binding(&names.table[place..], names.keys.len(), &names.packed[..0])
    else {
        return;
    };
    mark_target(&names.lookup(), sheet, marks, binding.target);
}

// Marks whatever the marked ones among the listed bindings need.
pub fn mark_needed(names: &Names<'_>, sheet: &[u32], order: &[u16], marks: &mut [bool])
    requires { Listed (table_at names.now.table.now).names sheet.now order.now × (length names.now.packed.now ≤ length sheet.now) × (length names.now.packed.now ≤ length marks.old) }
    ensures { Needed (table_at names.now.table.now).names order.now marks.old marks.new }
{
    for n in (0..order.len()).rev() {
        mark_for(names, sheet, marks, order[n] as usize);
    }
}
