// The specimen table, T, and tables that differ from it in one thing.
ghost use Rattle.std.specs.Prelude.{◌≡◌, ℕ, ◌<◌, ◌≤◌, get_or, set};
ghost use Rattle.demands.specs.Rows.{T};
ghost use Rattle.specimen.specs.Tables.{T_with_spaces};

use std::array;

// The bytes of T: the version and the spaces, the bindings, the access records, the delegation.
pub fn specimen_table() -> [u8; 59]
    ensures { result ≡ T }
{
    *b"\x01\x03\x0a\x14\x1e\
       \x06\x00\x01\x00\x14\x01\x02\x01\x02\x00\x00\x03\x01\x00\x02\x01\x02\x02\x04\x00\x28\x00\x05\x01\x00\x01\x05\x01\x06\x00\x0a\
       \x02\x00\x07\x02\x01\x01\x01\x00\x07\x03\x01\x03\x00\
       \x01\x01\x01\x06\x07\x02\x02\x02\x04\x03"
}

// T with another byte at this place.
pub fn with_byte(at: usize, byte: u8) -> [u8; 59]
    requires { at < 59 }
    ensures { result ≡ set T at byte }
{
    let mut table = specimen_table();
    table[at] = byte;
    table
}

// The byte at this place of T with so many spaces more, which have the keys from 31 on; 0 behind its end.
fn byte_at(more: usize, at: usize) -> u8
    requires { more ≤ 62 }
    ensures { result ≡ get_or (T_with_spaces more) at 0 }
{
    let table = specimen_table();
    if at == 1 {
        (3 + more) as u8
    } else if at < 5 {
        table[at]
    } else if at < 5 + more {
        (26 + at) as u8
    } else if at < 59 + more {
        table[at - more]
    } else {
        0
    }
}

// T with so many spaces more; what stands behind its end is 0.
pub fn with_spaces<const N: usize>(more: usize) -> [u8; N]
    requires { more ≤ 62 }
    ensures { (i : ℕ) → i < N → get_or result i 0 ≡ get_or (T_with_spaces more) i 0 }
{
    array::from_fn(|at| byte_at(more, at))
}
