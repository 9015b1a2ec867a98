// Records passed over: where one is good, the place after it; nothing where it is left to its reader. Each number is seen at a glance.
ghost use Rattle.std.specs.Prelude.{◌≡◌, ◌≤◌, IfSome};
ghost use Rattle.records.specs.Parsed.{◌⊗◌};
ghost use Rattle.records.specs.Fields.{space_field, key_field, depth_field, use_fields};
ghost use Rattle.records.specs.Paths.{names_from, path_field};
ghost use Rattle.records.specs.Targets.{target_field};
ghost use Rattle.records.specs.Accesses.{access_record};
ghost use Rattle.records.specs.Delegations.{delegation_record};
ghost use Rattle.records.specs.KeyRecords.{key_access_record, key_delegation_record};
ghost use Rattle.records.specs.Passing.{Passes, PassesBinding, Sifts, is_for};

use crate::fields::{BASE, KEY, LENGTH, OBJECT, RIGHT, Use};
use rules::Key;
use wire::glancing::glance_at;

// A key.
fn pass_key(s: &[u8], at: usize) -> Option<usize>
    ensures { IfSome result (λ next. Passes key_field s.now at next) }
{
    let (_, next) = KEY.glance(s, at)?;
    Some(next)
}

// A space number below the count of spaces.
fn pass_space(s: &[u8], at: usize, spaces: usize) -> Option<usize>
    ensures { IfSome result (λ next. Passes (space_field spaces) s.now at next) }
{
    let (space, next) = glance_at(s, at, 0, 0, 127)?;
    if spaces <= space as usize {
        return None;
    }
    Some(next)
}

// A depth.
fn pass_depth(s: &[u8], at: usize) -> Option<usize>
    ensures { IfSome result (λ next. Passes depth_field s.now at next) }
{
    let (_, next) = glance_at(s, at, 0, 0, 15)?;
    Some(next)
}

// An object and a right.
fn pass_use(s: &[u8], at: usize) -> Option<usize>
    ensures { IfSome result (λ next. Passes use_fields s.now at next) }
{
    let (_, middle) = OBJECT.glance(s, at)?;
    let (_, next) = RIGHT.glance(s, middle)?;
    Some(next)
}

// So many base names from a place on.
fn pass_names(s: &[u8], from: usize, count: u32) -> Option<usize>
    ensures { IfSome result (λ next. Passes (names_from count) s.now from next) }
{
    let mut at = from;
    for _ in 0..count {
        let (_, next) = BASE.glance(s, at)?;
        at = next;
    }
    Some(at)
}

// A path: its length, and so many base names.
fn pass_path(s: &[u8], at: usize) -> Option<usize>
    ensures { IfSome result (λ next. Passes path_field s.now at next) }
{
    let (count, first) = LENGTH.glance(s, at)?;
    pass_names(s, first, count)
}

// A space and a path.
fn pass_name(s: &[u8], at: usize, spaces: usize) -> Option<usize>
    ensures { IfSome result (λ next. Passes (space_field spaces ⊗ path_field) s.now at next) }
{
    let middle = pass_space(s, at, spaces)?;
    pass_path(s, middle)
}

// A target: a key or a name.
fn pass_target(s: &[u8], at: usize, spaces: usize) -> Option<usize>
    ensures { IfSome result (λ next. Passes (target_field spaces) s.now at next) }
{
    let (form, middle) = glance_at(s, at, 0, 0, 1)?;
    if form == 0 {
        return pass_key(s, middle);
    }
    pass_name(s, middle, spaces)
}

// The binding that `rest` begins with: the name that it binds, packed, and the place after it.
pub fn pass_binding(rest: &[u8], spaces: usize) -> Option<(u32, usize)>
    ensures { IfSome result (λ passed. PassesBinding spaces rest.now passed.0 passed.1) }
{
    let (space, at1) = glance_at(rest, 0, 0, 0, 63)?;
    if spaces <= space as usize {
        return None;
    }
    let (base, at2) = BASE.glance(rest, at1)?;
    let next = pass_target(rest, at2, spaces)?;
    Some((space * 65536 + base, next))
}

// The access record that `rest` begins with.
pub fn pass_access(rest: &[u8], spaces: usize) -> Option<usize>
    ensures { IfSome result (λ next. Passes (access_record spaces) rest.now 0 next) }
{
    let at1 = pass_space(rest, 0, spaces)?;
    let at2 = pass_use(rest, at1)?;
    let at3 = pass_path(rest, at2)?;
    pass_depth(rest, at3)
}

// The delegation that `rest` begins with.
pub fn pass_delegation(rest: &[u8], spaces: usize) -> Option<usize>
    ensures { IfSome result (λ next. Passes (delegation_record spaces) rest.now 0 next) }
{
    let at1 = pass_space(rest, 0, spaces)?;
    let at2 = pass_path(rest, at1)?;
    let at3 = pass_use(rest, at2)?;
    let at4 = pass_path(rest, at3)?;
    pass_depth(rest, at4)
}

// Whether a key, an object and a right are those of this owner and use.
fn is_for(owner: Key, wanted: Use, who: u32, object: u32, right: u32) -> bool
    ensures { result ≡ is_for owner.0 wanted.object wanted.right (record { 0 = who }) object right }
{
    who == owner.0 && object == wanted.object && right == wanted.right
}

// An owner key, an object, a right, a key and a depth: the place after them, and whether the first three are these.
fn pass_from_owner(s: &[u8], at: usize, owner: Key, wanted: Use) -> Option<(usize, bool)>
    ensures { IfSome result (λ passed. Sifts (key_field ⊗ use_fields ⊗ key_field ⊗ depth_field) (λ w. is_for owner.0 wanted.object wanted.right w.0 w.1.0.0 w.1.0.1) s.now at passed.0 passed.1) }
{
    let (who, at1) = KEY.glance(s, at)?;
    let (object, at2) = OBJECT.glance(s, at1)?;
    let (right, at3) = RIGHT.glance(s, at2)?;
    let at4 = pass_key(s, at3)?;
    let next = pass_depth(s, at4)?;
    Some((next, is_for(owner, wanted, who, object, right)))
}

// The key access record at the place `at`: the place after it, and whether it is for this owner and use.
pub fn pass_key_access(s: &[u8], at: usize, owner: Key, wanted: Use) -> Option<(usize, bool)>
    ensures { IfSome result (λ passed. Sifts key_access_record (λ x. is_for owner.0 wanted.object wanted.right x.owner x.object x.right) s.now at passed.0 passed.1) }
{
    pass_from_owner(s, at, owner, wanted)
}

// The key delegation at the place `at`: the place after it, and whether it is for this owner and use.
pub fn pass_key_delegation(s: &[u8], at: usize, owner: Key, wanted: Use) -> Option<(usize, bool)>
    ensures { IfSome result (λ passed. Sifts key_delegation_record (λ x. is_for owner.0 wanted.object wanted.right x.owner x.object x.right) s.now at passed.0 passed.1) }
{
    let middle = pass_key(s, at)?;
    pass_from_owner(s, middle, owner, wanted)
}
