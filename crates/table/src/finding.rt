// Finding the space that has a key, and the binding that a space opens for a base name.
ghost use Rattle.std.specs.Prelude.{◌<◌, length, IfSome};
ghost use Rattle.table.specs.Finding.{FindsSpace, FindsNamed, keys_of};

use records::bindings::pack;
use records::rows::find_first;
use rules::{Key, Space};

// The space that has the key; `keys` are the keys of the spaces, in their order.
pub fn find_space(keys: &[u32], key: Key) -> Option<Space>
    ensures { FindsSpace (keys_of keys.now) key result }
{
    let number = find_first(keys, key.0)?;
    Some(Space(number))
}

// The number of the binding that the space opens for the base name; `names` are the names that the bindings bind, packed, in their order.
pub fn find_binding(names: &[u32], space: Space, base: u32) -> Option<usize>
    requires { (space.0 < 64) × (base < 65536) }
    ensures found { FindsNamed names.now space base result }
    ensures there { IfSome result (λ i. i < length names.now) }
{
    find_first(names, pack(space, base))
}
