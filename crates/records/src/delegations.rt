// Delegations: the writer, a path to the owner, what it is for, a path to the delegatee and a depth.
ghost use Rattle.std.specs.Prelude.{◌≡◌};
ghost use Rattle.records.specs.Parsed.{found_as};
ghost use Rattle.records.specs.Delegations.{delegation_record, delegation_value};

use crate::faults::Fault;
use crate::fields::{Use, read_depth, read_space, read_use};
use crate::paths::{Path, read_path};
use rules::{Depth, Space};

#[derive(Clone, Copy, PartialEq, Eq)]
pub struct Delegation {
    pub writer: Space,
    pub owner: Path,
    pub wanted: Use,
    pub delegatee: Path,
    pub depth: Depth,
}

// The delegation that `rest` begins with.
pub fn read_delegation(rest: &[u8], spaces: usize) -> Result<(Delegation, usize), Fault>
    ensures { result ≡ found_as delegation_value (delegation_record spaces rest.now 0) }
{
    let (writer, at1) = read_space(rest, 0, spaces)?;
    let (owner, at2) = read_path(rest, at1)?;
    let (wanted, at3) = read_use(rest, at2)?;
    let (delegatee, at4) = read_path(rest, at3)?;
    let (depth, next) = read_depth(rest, at4)?;
    Ok((
        Delegation {
            writer,
            owner,
            wanted,
            delegatee,
            depth,
        },
        next,
    ))
}
