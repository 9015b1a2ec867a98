// Files that words name.
ghost use Rattle.std.specs.Prelude.{IfOk};
ghost use Rattle.streams.specs.Counts.{IsPrefixLen};

use crate::troubles::Trouble;
use std::fs;
use std::fs::OpenFile;
use std::io::{ErrorKind, Write};
use std::rt::{Env, Files};
use streams::read_full;

// No path is longer.
const MOST_PATH: usize = 4096;

// Writes the word number `i`; nothing, where it is missing or longer than any path.
pub fn say_word(rt: &(impl Env + Print), i: usize) {
    let mut text = [0; MOST_PATH];
    if let Ok(length) = rt.arg(i, &mut text) {
        let _ = rt.write_all(&text[..length]);
    }
}

// Whether the system has taken what was written, where a write alone may not tell. A pipe or a device that knows no such question has taken it.
fn settled(file: &impl OpenFile) -> bool {
    match file.sync_all() {
        Ok(()) => true,
        Err(error) => matches!(
            error.kind(),
            ErrorKind::InvalidInput | ErrorKind::Unsupported | ErrorKind::ReadOnlyFilesystem
        ),
    }
}

// Reads the file that word number `i` names, as much of it as the buffer holds, and answers how many bytes that is.
pub fn read_file(rt: &(impl Env + Files), i: usize, buffer: &mut [u8]) -> Result<usize, Trouble>
    ensures { IfOk result (λ n. IsPrefixLen n buffer.new) }
{
    let mut path = [0; MOST_PATH];
    let length = rt.arg(i, &mut path).map_err(|_| Trouble::Unread(i))?;
    let name = str::from_utf8(&path[..length]).map_err(|_| Trouble::Unread(i))?;
    let mut file = fs::open(rt, name).map_err(|_| Trouble::Unread(i))?;
    Ok(read_full(&mut file, buffer))
}

// Writes the bytes to the file that word number `i` names, all of them.
pub fn write_file(rt: &(impl Env + Files), i: usize, bytes: &[u8]) -> Result<(), Trouble> {
    let mut path = [0; MOST_PATH];
    let length = rt.arg(i, &mut path).map_err(|_| Trouble::Unwritten(i))?;
    let name = str::from_utf8(&path[..length]).map_err(|_| Trouble::Unwritten(i))?;
    let mut file = fs::create(rt, name).map_err(|_| Trouble::Unwritten(i))?;
    if file.write_all(bytes).is_ok() && settled(&file) {
        return Ok(());
    }
    Err(Trouble::PartlyWritten(i))
}
