// Bindings: a space number, a base name and a target.
ghost use Rattle.std.specs.Prelude.{◌≡◌, ◌+◌, ◌*◌, ◌<◌, ◌≤◌};
ghost use Rattle.records.specs.Parsed.{found_as};
ghost use Rattle.records.specs.Bindings.{binding_record, binding_value, packed};
ghost use Rattle.records.specs.Rows.{is_among};

use crate::faults::{Fault, Kind, fault_at};
use crate::fields::{BASE, read_space};
use crate::rows::is_among;
use crate::targets::{Target, read_target};
use rules::Space;

#[derive(Clone, Copy, PartialEq, Eq)]
pub struct Binding {
    pub space: Space,
    pub base: u32,
    pub target: Target,
}

// A space and a base name as one number.
pub fn pack(space: Space, base: u32) -> u32
    requires { (space.0 < 64) × (base < 65536) }
    ensures { result ≡ packed space base }
{
    space.0 as u32 * 65536 + base
}

// The binding that `rest` begins with; `earlier` are the names that are bound already, packed.
pub fn read_binding(rest: &[u8], spaces: usize, earlier: &[u32]) -> Result<(Binding, usize), Fault>
    requires { spaces ≤ 64 }
    ensures { result ≡ found_as binding_value (binding_record spaces (λ S b. is_among earlier.now (packed S b)) rest.now 0) }
{
    let (space, at1) = read_space(rest, 0, spaces)?;
    let (base, at2) = BASE.read(rest, at1)?;
    if is_among(earlier, pack(space, base)) {
        return Err(fault_at(Kind::Twice, at1));
    }
    let (target, next) = read_target(rest, at2, spaces)?;
    Ok((
        Binding {
            space,
            base,
            target,
        },
        next,
    ))
}
