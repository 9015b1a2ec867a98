// Writing the derivation, if it fits.
ghost use Rattle.std.specs.Prelude.{◌≡◌, ◌+◌, ◌<◌, ◌≤◌, length};
ghost use Rattle.rules.specs.Depths.{top};
ghost use Rattle.rules.specs.Ranges.{most_bindings};
ghost use Rattle.wire.specs.Number.{bytes_of};
ghost use Rattle.records.specs.Many.{many_bytes};
ghost use Rattle.records.specs.DerivationBytes.{most_derivation};
ghost use Rattle.decision.specs.Writing.{WritesDerivation, derivation_of};

use marking::keeping::keep_marked;
use records::derivations::write_derivation;

pub const MOST_DERIVATION: usize = 512;

// How many bytes the number takes.
fn size_of(number: u16) -> usize
    ensures { result ≡ length (bytes_of number) }
{
    if number < 128 {
        1
    } else if number < 16384 {
        2
    } else {
        3
    }
}

// How many bytes the numbers take. The library's `sum` was tried: the goal that nothing runs over did not close.
fn size_of_all(numbers: &[u16]) -> usize
    requires { length numbers.now ≤ most_bindings }
    ensures { result ≡ length (many_bytes bytes_of numbers.now) }
{
    let mut sum = 0;
    for x in numbers {
        sum += size_of(*x);
    }
    sum
}

// Writes the derivation that lists the marked ones of the listed bindings, if it fits in 512 bytes; answers how many it took.
pub fn write_shown(
    marks: &[bool],
    order: &mut [u16],
    access: u16,
    chain: &[u16],
    derivation: &mut [u8],
) -> Option<usize>
    requires { (length order.old ≤ most_bindings) × (length chain.now ≤ top) × (most_derivation ≤ length derivation.old) }
    ensures { WritesDerivation (derivation_of marks.now order.old access chain.now) derivation.old derivation.new result }
{
    let kept = keep_marked(marks, order);
    write_kept(&order[..kept], access, chain, derivation)
}

// Writes the derivation with these bindings, if it fits in 512 bytes; answers how many it took.
fn write_kept(bindings: &[u16], access: u16, chain: &[u16], derivation: &mut [u8]) -> Option<usize>
    requires { (length bindings.now ≤ most_bindings) × (length chain.now ≤ top) × (most_derivation ≤ length derivation.old) }
    ensures { WritesDerivation (record { bindings = bindings.entry.now; access = access; delegations = chain.now }) derivation.old derivation.new result }
{
    let count = bindings.len() as u16;
    let records = chain.len() as u16 + 1;
    let listing = size_of(count) + size_of_all(bindings);
    let ending = size_of(records) + size_of(access) + size_of_all(chain);
    if MOST_DERIVATION < listing + ending {
        return None;
    }
    Some(write_derivation(derivation, bindings, u32::from(access), chain))
}
