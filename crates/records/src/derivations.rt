// Derivations: numbers of bindings, none twice, and a chain of an access record and delegations.
ghost use Rattle.std.specs.Prelude.{◌≡◌, [], ◌+◌, ◌≤◌, length};
ghost use Rattle.rules.specs.Depths.{top};
ghost use Rattle.rules.specs.Ranges.{most_bindings};
ghost use Rattle.wire.specs.Number.{bytes_of};
ghost use Rattle.wire.specs.Placed.{placed};
ghost use Rattle.records.specs.Parsed.{place_after};
ghost use Rattle.records.specs.Requests.{held_as};
ghost use Rattle.records.specs.Many.{many, many_bytes};
ghost use Rattle.records.specs.DerivationBytes.{listed_number, chain_number, read_derivation, parts_of, derivation_bytes};

use crate::fields::read_field;

pub const MOST_DERIVATION: usize = 512;

pub const MOST_CHAIN: u32 = 16;

// How many bindings it lists and where their numbers begin; how many delegations its chain has and where the number of its access record stands.
#[derive(Clone, Copy, PartialEq, Eq)]
pub struct Parts {
    pub bindings: usize,
    pub first: usize,
    pub delegations: usize,
    pub chain: usize,
}

// The place after so many binding numbers from a place on, none of them twice.
fn read_listed(s: &[u8], from: usize, count: usize) -> Option<usize>
    ensures { result ≡ place_after (many listed_number count [] s.now from) }
{
    let mut seen = [false; 256];
    let mut at = from;
    for _ in 0..count {
        let (value, next) = read_field(s, at, 0, 255).ok()?;
        let which = value as usize;
        if seen[which] {
            return None;
        }
        seen[which] = true;
        at = next;
    }
    Some(at)
}

// The place after so many delegation numbers from a place on.
fn read_chain(s: &[u8], from: usize, count: usize) -> Option<usize>
    ensures { result ≡ place_after (many chain_number count [] s.now from) }
{
    let mut at = from;
    for _ in 0..count {
        let (_, next) = read_field(s, at, 0, 511).ok()?;
        at = next;
    }
    Some(at)
}

// The derivation that the bytes hold.
pub fn read_derivation(bytes: &[u8]) -> Option<Parts>
    ensures { result ≡ held_as parts_of (read_derivation bytes.now) }
{
    if MOST_DERIVATION < bytes.len() {
        return None;
    }
    let (count, first) = read_field(bytes, 0, 0, 256).ok()?;
    let bindings = count as usize;
    let at = read_listed(bytes, first, bindings)?;
    let (records, chain) = read_field(bytes, at, 1, MOST_CHAIN).ok()?;
    let (_, from) = read_field(bytes, chain, 0, 255).ok()?;
    let delegations = records as usize - 1;
    let end = read_chain(bytes, from, delegations)?;
    if end != bytes.len() {
        return None;
    }
    Some(Parts {
        bindings,
        first,
        delegations,
        chain,
    })
}

// Writes the numbers one behind the other from the place `from` on, and returns the place after them.
fn put_numbers(out: &mut [u8], from: usize, numbers: &[u16]) -> usize
    requires { from + length (many_bytes bytes_of numbers.now) ≤ length out.old }
    ensures { (result ≡ from + length (many_bytes bytes_of numbers.now)) × (out.new ≡ placed out.old from (many_bytes bytes_of numbers.now)) }
{
    let mut at = from;
    for &number in numbers {
        at = wire::put(out, at, u32::from(number));
    }
    at
}

// Writes the derivation at the start of `out`, and returns how many bytes it takes.
pub fn write_derivation(out: &mut [u8], bindings: &[u16], access: u32, delegations: &[u16]) -> usize
    requires { (length bindings.now ≤ most_bindings) × (length delegations.now ≤ top)
        × (length (derivation_bytes (record { bindings = bindings.now; access = access; delegations = delegations.now })) ≤ length out.old) }
    ensures { (result ≡ length (derivation_bytes (record { bindings = bindings.entry.now; access = access; delegations = delegations.now })))
        × (out.new ≡ placed out.old 0 (derivation_bytes (record { bindings = bindings.entry.now; access = access; delegations = delegations.now }))) }
{
    let at1 = wire::write(out, bindings.len() as u32);
    let at2 = put_numbers(out, at1, bindings);
    let at3 = wire::put(out, at2, delegations.len() as u32 + 1);
    let at4 = wire::put(out, at3, access);
    put_numbers(out, at4, delegations)
}
