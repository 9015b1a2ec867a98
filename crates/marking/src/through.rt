// Marking the bindings that a path, a name or a target goes through, where a sheet tells what each binding gives.
ghost use Rattle.std.specs.Prelude.{◌<◌, ◌≤◌, length};
ghost use Rattle.rules.specs.Names.{Through, TargetThrough};
ghost use Rattle.rules.specs.Following.{InSheet, PathThrough};
ghost use Rattle.records.specs.Paths.{path_of};
ghost use Rattle.records.specs.Targets.{target_of};
ghost use Rattle.sheet.specs.Finds.{Fitting, FittingTarget, InTables};
ghost use Rattle.marking.specs.Marks.{Adds, InExact};

use records::paths::Path;
use records::targets::Target;
use rules::{Key, Space};
use sheet::following::rest_of;
use sheet::names::Lookup;
use table::finding::{find_binding, find_space};

// Marks the bindings that the path goes through from the key.
pub fn mark(lookup: &Lookup<'_>, sheet: &[u32], marks: &mut [bool], from: Key, path: Path)
    requires { (length lookup.now.packed.now ≤ length sheet.now) × (length lookup.now.packed.now ≤ length marks.old) × Fitting path }
    ensures { InTables lookup.now.keys.now lookup.now.packed.now (λ t. Adds (PathThrough t (InSheet t sheet.now) from (path_of path)) marks.old marks.new) }
{
    if path.length == 0 {
        return;
    }
    let Some(space) = find_space(lookup.keys, from) else {
        return;
    };
    let Some(i) = find_binding(lookup.packed, space, path.first) else {
        return;
    };
    marks[i] = true;
    let key = sheet[i];
    if key == 0 {
        return;
    }
    mark(lookup, sheet, marks, Key(key), rest_of(path))
}

// Marks the bindings that the name goes through.
pub fn mark_name(lookup: &Lookup<'_>, sheet: &[u32], marks: &mut [bool], space: Space, path: Path)
    requires { (length lookup.now.packed.now ≤ length sheet.now) × (length lookup.now.packed.now ≤ length marks.old) × (space.0 < length lookup.now.keys.now) × Fitting path }
    ensures { InExact lookup.now.keys.now lookup.now.packed.now sheet.now (λ t. Adds (Through t space (path_of path)) marks.old marks.new) }
{
    mark(lookup, sheet, marks, Key(lookup.keys[space.0]), path)
}

// Marks the bindings that the target goes through; a key goes through none.
pub fn mark_target(lookup: &Lookup<'_>, sheet: &[u32], marks: &mut [bool], target: Target)
    requires { (length lookup.now.packed.now ≤ length sheet.now) × (length lookup.now.packed.now ≤ length marks.old) × FittingTarget (length lookup.now.keys.now) target }
    ensures { InExact lookup.now.keys.now lookup.now.packed.now sheet.now (λ t. Adds (TargetThrough t (target_of target)) marks.old marks.new) }
{
    if let Target::Name(space, path) = target {
        mark_name(lookup, sheet, marks, space, path);
    }
}
