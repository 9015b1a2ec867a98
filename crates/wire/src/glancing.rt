// A number seen at a glance: the bounds of the bytes are looked at once for all of its bytes. What is outside its range, wrong, or too near the end
// is not told, and left to `read`.
ghost use Rattle.std.specs.Prelude.{◌≡◌, ◌+◌, ◌-◌, ◌*◌, ◌^◌, ◌≤◌, ◌<◌, IfSome};
ghost use Rattle.wire.specs.Glancing.{Glances};

// The number at the place `at`, with the place after it, which is to be at least `low`, which is 0 or 1, and to have at most `more` bytes before its last, and behind so many a last one of at most `last`.
#[inline(always)]
pub fn glance_at(s: &[u8], at: usize, low: u32, more: usize, last: u32) -> Option<(u32, usize)>
    requires { (low ≤ 1) × (more ≤ 4) × (last < 128) × ((last + 1) * 128 ^ more ≤ 2 ^ 32) }
    ensures { IfSome result (λ seen. Glances low ((last + 1) * 128 ^ more - 1) s.now at seen.0 seen.1) }
{
    if s.len() <= more || s.len() - more <= at {
        return None;
    }
    let mut value = 0;
    let mut unit = 1;
    let mut least = low;
    for i in 0..more {
        let byte = u32::from(s[at + i]);
        value += byte % 128 * unit;
        if byte < 128 {
            return if byte < least {
                None
            } else {
                Some((value, at + i + 1))
            };
        }
        unit *= 128;
        least = 1;
    }
    let byte = u32::from(s[at + more]);
    if byte < least || last < byte {
        return None;
    }
    Some((value + byte * unit, at + more + 1))
}
