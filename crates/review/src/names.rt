// Names in words, and the bindings that they go through.
ghost use Rattle.std.specs.Prelude.{◌<◌, length};
ghost use Rattle.sheet.specs.Finds.{Fitting};

use crate::finding::meaning_at;
use crate::opened::Meanings;
use crate::printing::say;
use records::paths::Path;
use records::targets::Target;
use rules::{Key, Space};
use sheet::following::rest_of;
use std::fmt;
use table::finding::{find_binding, find_space};

// What is printed in words.
#[derive(Clone, Copy)]
pub struct InWords<T>(pub T);

// The base names, with a point between them; SELF where there are none.
impl fmt::Display for InWords<Path> {
    fn fmt<W: fmt::Write>(&self, f: &mut fmt::Formatter<W>) -> fmt::Result {
        let path = self.0;
        if path.length == 0 {
            return write!(f, "SELF");
        }
        write!(f, "{}", path.first)?;
        let further = [path.second, path.third, path.fourth];
        for base in further.iter().take(path.length - 1) {
            write!(f, ".{base}")?;
        }
        Ok(())
    }
}

// A key, or a name: a path in a space.
impl fmt::Display for InWords<Target> {
    fn fmt<W: fmt::Write>(&self, f: &mut fmt::Formatter<W>) -> fmt::Result {
        match self.0 {
            Target::Key(key) => write!(f, "key {}", key.0),
            Target::Name(space, path) => write!(f, "name {} in space {}", InWords(path), space.0),
        }
    }
}

// A space with its key.
pub fn say_space(rt: &impl Print, keys: &[u32], space: Space)
    requires { space.0 < length keys.now }
{
    let number = space.0;
    say!(rt; "space {number} (key {})", keys[number]);
}

// Follows one name from the key, and says the binding that it goes through, or why there is none.
fn go_on(rt: &impl Print, meanings: &Meanings, from: Key, base: u32) -> Option<Key>
    requires { base < 65536 }
{
    let Some(space) = find_space(meanings.lookup.keys, from) else {
        say!(rt; " -> no space has this key, so there is no meaning");
        return None;
    };
    let Some(i) = find_binding(meanings.lookup.packed, space, base) else {
        say!(rt; " -> its space does not bind {base}, so there is no meaning");
        return None;
    };
    say!(rt; " -> binding {i} -> ");
    let meaning = meaning_at(meanings.sheet, i);
    if meaning.is_none() {
        say!(rt; "no meaning");
    }
    meaning
}

// Follows the path from the key, and says the bindings that it goes through and the keys that they mean.
fn go_through(rt: &impl Print, meanings: &Meanings, from: Key, path: Path)
    requires { Fitting path }
{
    say!(rt; "key {}", from.0);
    if path.length == 0 {
        return;
    }
    if let Some(key) = go_on(rt, meanings, from, path.first) {
        go_through(rt, meanings, key, rest_of(path));
    }
}

// A line of the name: from its space's key, the bindings that it goes through and the keys that they mean.
pub fn say_way(rt: &impl Print, meanings: &Meanings, space: Space, path: Path)
    requires { (space.0 < length meanings.now.lookup.keys.now) × Fitting path }
{
    say!(rt; "      {}: ", InWords(Target::Name(space, path)));
    go_through(rt, meanings, Key(meanings.lookup.keys[space.0]), path);
    say!(rt; "\n");
}
