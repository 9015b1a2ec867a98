// Hashes of byte strings, FNV-1a of 32 bits, and bytes in hexadecimal digits.
ghost use Rattle.std.specs.Prelude.{◌≡◌};
ghost use Rattle.vectors.specs.Hashes.{hashed, hash_from, hash_of, four_bytes, numbers_bytes};

use std::io::Write;
use streams::{print_hex, write_all};

// The hash of no bytes.
const START: u32 = 2166136261;

// The hash with one byte more.
fn hash_byte(hash: u32, byte: u8) -> u32
    ensures { result ≡ hashed hash byte }
{
    (u32::from(byte) ^ hash).wrapping_mul(16777619)
}

// The hash with these bytes more.
fn hash_from(hash: u32, bytes: &[u8]) -> u32
    ensures { result ≡ hash_from hash bytes.now }
{
    bytes.iter().fold(hash, |hash, byte| hash_byte(hash, *byte))
}

// The hash of these bytes.
pub fn hash_of(bytes: &[u8]) -> u32
    ensures { result ≡ hash_of bytes.now }
{
    hash_from(START, bytes)
}

// The hash with the 4 bytes of a number more.
fn hash_number(hash: u32, number: u32) -> u32
    ensures { result ≡ hash_from hash (four_bytes number) }
{
    hash_from(hash, &number.to_le_bytes())
}

// The hash of these numbers, each as 4 bytes, lowest first.
pub fn hash_of_numbers(numbers: &[u32]) -> u32
    ensures { result ≡ hash_of (numbers_bytes numbers.now) }
{
    numbers
        .iter()
        .fold(START, |hash, number| hash_number(hash, *number))
}

// Writes a further part of a line: the hash in 8 digits.
pub fn write_hash<W: Write>(out: &mut W, hash: u32) {
    let _ = write_all(out, b" ");
    let _ = print_hex(out, u64::from(hash), 8);
}

// Writes a further part of a line: the bytes, each in 2 digits.
pub fn write_hex<W: Write>(out: &mut W, bytes: &[u8]) {
    let _ = write_all(out, b" ");
    for byte in bytes {
        let _ = print_hex(out, u64::from(*byte), 2);
    }
}
