// Targets: a key, or a name, which is a space and a path.
ghost use Rattle.std.specs.Prelude.{◌≡◌};
ghost use Rattle.records.specs.Parsed.{found_as};
ghost use Rattle.records.specs.Targets.{target_field, name_fields, target_value};

use crate::faults::Fault;
use crate::fields::{read_field, read_key, read_space};
use crate::paths::{Path, read_path};
use rules::{Key, Space};

#[derive(Clone, Copy, PartialEq, Eq)]
pub enum Target {
    Key(Key),
    Name(Space, Path),
}

// The space and the path at the place `at`.
fn read_name(s: &[u8], at: usize, spaces: usize) -> Result<(Target, usize), Fault>
    ensures { result ≡ found_as target_value (name_fields spaces s.now at) }
{
    let (space, middle) = read_space(s, at, spaces)?;
    let (path, next) = read_path(s, middle)?;
    Ok((Target::Name(space, path), next))
}

// The target at the place `at`.
pub fn read_target(s: &[u8], at: usize, spaces: usize) -> Result<(Target, usize), Fault>
    ensures { result ≡ found_as target_value (target_field spaces s.now at) }
{
    let (form, middle) = read_field(s, at, 0, 1)?;
    if form == 0 {
        let (key, next) = read_key(s, middle)?;
        return Ok((Target::Key(key), next));
    }
    read_name(s, middle, spaces)
}
