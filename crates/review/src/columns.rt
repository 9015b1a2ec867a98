// Keys and paths in columns.
ghost use Rattle.std.specs.Prelude.{◌≤◌};

use crate::names::InWords;
use crate::printing::say;
use records::paths::Path;
use rules::Key;

// The longest path: four base names of five digits, and three points.
const PATH_WIDTH: usize = 23;

// How many digits the number has.
fn digits(number: u32) -> usize
    ensures { result ≤ 10 }
{
    number.max(1).ilog10() as usize + 1
}

// Writes the key, if there is one, at the right end of a column of this width.
pub fn key_column(rt: &impl Print, width: usize, key: Option<Key>) {
    match key {
        None => say!(rt; "{:>width$}", "-"),
        Some(key) => say!(rt; "{:width$}", key.0),
    }
}

// How many bytes the base name takes in a path, with the point before it, if it is there.
fn base_width(length: usize, place: usize, base: u32) -> usize
    ensures { result ≤ 11 }
{
    if length <= place {
        return 0;
    }
    digits(base) + 1
}

// How many bytes the path takes.
fn path_width(path: Path) -> usize {
    if path.length == 0 {
        return 4;
    }
    digits(path.first)
        + base_width(path.length, 1, path.second)
        + base_width(path.length, 2, path.third)
        + base_width(path.length, 3, path.fourth)
}

// Writes the path at the left end of a column.
pub fn path_column(rt: &impl Print, path: Path) {
    say!(rt; "{}", InWords(path));
    for _ in path_width(path)..PATH_WIDTH {
        say!(rt; " ");
    }
}
