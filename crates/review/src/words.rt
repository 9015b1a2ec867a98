// The words that the program was started with, by their number.
ghost use Rattle.std.specs.Prelude.{◌≡◌};
ghost use Rattle.review.specs.Words.{number_said, alike};

use std::env::FillError;
use std::rt::Env;

// Whether both are the same bytes.
fn same(first: &[u8], second: &[u8]) -> bool
    ensures { result ≡ alike first.now second.now }
{
    first == second
}

// How many words there are, the program's own name among them.
pub fn word_count(rt: &impl Env) -> usize {
    let mut word = [0u8; 16];
    for i in 0..usize::MAX {
        if let Err(FillError::NotPresent) = rt.arg(i, &mut word) {
            return i;
        }
    }
    usize::MAX
}

// Whether word number `i` is this text.
pub fn is_word(rt: &impl Env, i: usize, text: &[u8]) -> bool {
    let mut word = [0u8; 16];
    let found = rt.arg(i, &mut word);
    found.is_ok_and(|length| same(&word[..length], text))
}

// The number that decimal digits say, unless it is above 4,294,967,295.
fn read_digits(digits: &[u8]) -> Option<u32>
    ensures { result ≡ number_said digits.now }
{
    if digits.is_empty() {
        return None;
    }
    let mut value = 0u32;
    for byte in digits {
        if !byte.is_ascii_digit() {
            return None;
        }
        let digit = u32::from(*byte - b'0');
        value = value.checked_mul(10)?.checked_add(digit)?;
    }
    Some(value)
}

// The number that word number `i` says.
pub fn number_word(rt: &impl Env, i: usize) -> Option<u32> {
    let mut word = [0u8; 16];
    let length = rt.arg(i, &mut word).ok()?;
    read_digits(&word[..length])
}
