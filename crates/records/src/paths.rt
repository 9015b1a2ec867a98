// Paths: at most four base names.
ghost use Rattle.std.specs.Prelude.{◌≡◌, ◌≤◌};
ghost use Rattle.records.specs.Parsed.{found_as};
ghost use Rattle.records.specs.Paths.{names_from, path_field, path_value};

use crate::faults::Fault;
use crate::fields::{BASE, LENGTH};

// The base names; those from `length` on are 0.
#[derive(Clone, Copy, PartialEq, Eq)]
pub struct Path {
    pub length: usize,
    pub first: u32,
    pub second: u32,
    pub third: u32,
    pub fourth: u32,
}

// The path with these names, of which `length` are there.
fn path_of(length: usize, first: u32, second: u32, third: u32, fourth: u32) -> Path
    ensures { result ≡ record { length = length; first = first; second = second; third = third; fourth = fourth } }
{
    Path {
        length,
        first,
        second,
        third,
        fourth,
    }
}

// The path of `count` base names that stand from the place `at` on.
fn read_names(s: &[u8], at: usize, count: u32) -> Result<(Path, usize), Fault>
    requires { count ≤ 4 }
    ensures { result ≡ found_as path_value (names_from count s.now at) }
{
    if count == 0 {
        return Ok((path_of(0, 0, 0, 0, 0), at));
    }
    let (first, at1) = BASE.read(s, at)?;
    if count == 1 {
        return Ok((path_of(1, first, 0, 0, 0), at1));
    }
    let (second, at2) = BASE.read(s, at1)?;
    if count == 2 {
        return Ok((path_of(2, first, second, 0, 0), at2));
    }
    let (third, at3) = BASE.read(s, at2)?;
    if count == 3 {
        return Ok((path_of(3, first, second, third, 0), at3));
    }
    let (fourth, at4) = BASE.read(s, at3)?;
    Ok((path_of(4, first, second, third, fourth), at4))
}

// The path at the place `at`.
pub fn read_path(s: &[u8], at: usize) -> Result<(Path, usize), Fault>
    ensures { result ≡ found_as path_value (path_field s.now at) }
{
    let (count, next) = LENGTH.read(s, at)?;
    read_names(s, next, count)
}
