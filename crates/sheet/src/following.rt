// Following: which key a path, a name or a target leads to, where a sheet tells what each binding gives.
ghost use Rattle.std.specs.Prelude.{◌≡◌, ◌<◌, ◌≤◌, length};
ghost use Rattle.rules.specs.Tables.{to_name};
ghost use Rattle.rules.specs.Following.{InSheet, NameLeads, TargetLeads};
ghost use Rattle.records.specs.Paths.{path_of};
ghost use Rattle.records.specs.Targets.{target_of};
ghost use Rattle.sheet.specs.Finds.{Finds, Fitting, FittingTarget, rest_of, InTables};
ghost use Rattle.sheet.specs.Walks.{Walks, for_now};

use crate::names::{Lookup, Names};
use records::paths::Path;
use records::targets::Target;
use rules::{Key, Space};
use table::finding::{find_binding, find_space};

// A key; or the number of the binding whose entry, still 0, stopped it; or nothing, however the sheet is filled further.
#[derive(Clone, Copy, PartialEq, Eq)]
pub enum Walked {
    Key(Key),
    Waits(usize),
    Nothing,
}

// The path without its first name.
pub fn rest_of(path: Path) -> Path
    requires { 0 < path.length }
    ensures { result ≡ rest_of path }
{
    Path {
        length: path.length - 1,
        first: path.second,
        second: path.third,
        third: path.fourth,
        fourth: 0,
    }
}

impl Walked {
    // For now: what waits for an entry leads to nothing.
    pub fn for_now(self) -> Option<Key>
        ensures { result ≡ for_now self }
    {
        match self {
            Walked::Key(key) => Some(key),
            Walked::Waits(_) | Walked::Nothing => None,
        }
    }
}

impl Lookup<'_> {
    // In the space, the path takes its first name's meaning and goes on with one name fewer.
    pub fn walk(&self, sheet: &[u32], space: Space, path: Path) -> Walked
        requires { (length self.now.packed.now ≤ length sheet.now) × (space.0 < length self.now.keys.now) × Fitting path }
        ensures { InTables self.now.keys.now self.now.packed.now (λ t. Walks t sheet.now (to_name space (path_of path)) result) }
    {
        if path.length == 0 {
            return Walked::Key(Key(self.keys[space.0]));
        }
        let Some(i) = find_binding(self.packed, space, path.first) else {
            return Walked::Nothing;
        };
        let key = sheet[i];
        if key == 0 {
            return Walked::Waits(i);
        }
        if path.length == 1 {
            return Walked::Key(Key(key));
        }
        match find_space(self.keys, Key(key)) {
            None => Walked::Nothing,
            Some(next) => self.walk(sheet, next, rest_of(path)),
        }
    }

    // Where the target leads; a key leads to itself.
    pub fn walk_target(&self, sheet: &[u32], target: Target) -> Walked
        requires { (length self.now.packed.now ≤ length sheet.now) × FittingTarget (length self.now.keys.now) target }
        ensures { InTables self.now.keys.now self.now.packed.now (λ t. Walks t sheet.now (target_of target) result) }
    {
        match target {
            Target::Key(key) => Walked::Key(key),
            Target::Name(space, path) => self.walk(sheet, space, path),
        }
    }

    // The key that the name leads to.
    pub fn follow_name(&self, sheet: &[u32], space: Space, path: Path) -> Option<Key>
        requires { (length self.now.packed.now ≤ length sheet.now) × (space.0 < length self.now.keys.now) × Fitting path }
        ensures { InTables self.now.keys.now self.now.packed.now (λ t. Finds (NameLeads t (InSheet t sheet.now) space (path_of path)) result) }
    {
        self.walk(sheet, space, path).for_now()
    }

    // The key that the target leads to.
    pub fn follow_target(&self, sheet: &[u32], target: Target) -> Option<Key>
        requires { (length self.now.packed.now ≤ length sheet.now) × FittingTarget (length self.now.keys.now) target }
        ensures { InTables self.now.keys.now self.now.packed.now (λ t. Finds (TargetLeads t (InSheet t sheet.now) (target_of target)) result) }
    {
        self.walk_target(sheet, target).for_now()
    }
}

impl Names<'_> {
    // The key that the name leads to.
    pub fn follow_name(&self, sheet: &[u32], space: Space, path: Path) -> Option<Key>
        requires { (length self.now.packed.now ≤ length sheet.now) × (space.0 < length self.now.keys.now) × Fitting path }
        ensures { InTables self.now.keys.now self.now.packed.now (λ t. Finds (NameLeads t (InSheet t sheet.now) space (path_of path)) result) }
    {
        self.lookup().follow_name(sheet, space, path)
    }

    // The key that the target leads to.
    pub fn follow_target(&self, sheet: &[u32], target: Target) -> Option<Key>
        requires { (length self.now.packed.now ≤ length sheet.now) × FittingTarget (length self.now.keys.now) target }
        ensures { InTables self.now.keys.now self.now.packed.now (λ t. Finds (TargetLeads t (InSheet t sheet.now) (target_of target)) result) }
    {
        self.lookup().follow_target(sheet, target)
    }
}
