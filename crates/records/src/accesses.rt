// Access records: the owner, what it is for, a path and a depth.
ghost use Rattle.std.specs.Prelude.{◌≡◌};
ghost use Rattle.records.specs.Parsed.{found_as};
ghost use Rattle.records.specs.Accesses.{access_record, access_value};

use crate::faults::Fault;
use crate::fields::{Use, read_depth, read_space, read_use};
use crate::paths::{Path, read_path};
use rules::{Depth, Space};

#[derive(Clone, Copy, PartialEq, Eq)]
pub struct Access {
    pub owner: Space,
    pub wanted: Use,
    pub path: Path,
    pub depth: Depth,
}

// The access record that `rest` begins with.
pub fn read_access(rest: &[u8], spaces: usize) -> Result<(Access, usize), Fault>
    ensures { result ≡ found_as access_value (access_record spaces rest.now 0) }
{
    let (owner, at1) = read_space(rest, 0, spaces)?;
    let (wanted, at2) = read_use(rest, at1)?;
    let (path, at3) = read_path(rest, at2)?;
    let (depth, next) = read_depth(rest, at3)?;
    Ok((
        Access {
            owner,
            wanted,
            path,
            depth,
        },
        next,
    ))
}
