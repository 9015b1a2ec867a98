// The fields of records: each a number in its range.
ghost use Rattle.std.specs.Prelude.{◌≡◌, ◌+◌, ◌*◌, ◌^◌, ◌≤◌, ◌<◌, IfSome};
ghost use Rattle.records.specs.Parsed.{got, found, found_as};
ghost use Rattle.records.specs.Fields.{any_number, field, space_field, key_field, depth_field, use_fields, depth_value, use_value};

use crate::faults::{Fault, Kind, fault_at};
use crate::reader::number_at;
use rules::{Depth, Key, Space};
use wire::glancing::glance_at;

pub const MOST_KEY: u32 = 4294967295;

pub const MOST_BASE: u32 = 65535;

pub const MOST_OBJECT: u32 = 65535;

pub const MOST_RIGHT: u32 = 32;

pub const MOST_NAMES: u32 = 4;

// What a record is for: an object and a right.
#[derive(Clone, Copy, PartialEq, Eq)]
pub struct Use {
    pub object: u32,
    pub right: u32,
}

// The number at the place `at`, with the place after it, as all that is read here.
pub fn read_number(s: &[u8], at: usize) -> Result<(u32, usize), Fault>
    ensures { result ≡ found (any_number s.now at) }
{
    if s.len() <= at {
        return Err(fault_at(Kind::Cut, at));
    }
    match wire::read(&s[at..]) {
        Ok((value, taken)) => Ok((value, at + taken)),
        Err(fault) => Err(fault_at(Kind::from(fault), at)),
    }
}

// The number at the place `at`, which is to be from `low` to `high`.
pub fn read_field(s: &[u8], at: usize, low: u32, high: u32) -> Result<(u32, usize), Fault>
    ensures { result ≡ found (field low high s.now at) }
{
    let (value, next) = number_at(s, at)?;
    if value < low || high < value {
        return Err(fault_at(Kind::Range, at));
    }
    Ok((value, next))
}

// The bounds of a field: from `low` to `high`; and how a number in it is seen at a glance, with at most `more` bytes before its last, which is at most `last` behind so many.
#[derive(Clone, Copy)]
pub struct Bounds {
    low: u32,
    high: u32,
    more: usize,
    last: u32,
    ghost glanced: { (low ≤ 1) × (more ≤ 4) × (last < 128) × ((last + 1) * 128 ^ more ≡ high + 1) },
}

pub const KEY: Bounds = Bounds {
    low: 1,
    high: MOST_KEY,
    more: 4,
    last: 15,
};

pub const OBJECT: Bounds = Bounds {
    low: 0,
    high: MOST_OBJECT,
    more: 2,
    last: 3,
};

pub const RIGHT: Bounds = Bounds {
    low: 1,
    high: MOST_RIGHT,
    more: 0,
    last: 32,
};

pub const BASE: Bounds = Bounds {
    low: 1,
    high: MOST_BASE,
    more: 2,
    last: 3,
};

// The length of a path.
pub const LENGTH: Bounds = Bounds {
    low: 0,
    high: MOST_NAMES,
    more: 0,
    last: 4,
};

impl Bounds {
    // The number at the place `at`, if a glance tells that it is in these bounds.
    #[inline(always)]
    pub fn glance(self, s: &[u8], at: usize) -> Option<(u32, usize)>
        ensures { IfSome result (λ seen. field self.low self.high s.now at ≡ got seen.0 seen.1) }
    {
        glance_at(s, at, self.low, self.more, self.last)
    }

    // The number at the place `at`, which is to be in these bounds.
    #[inline(always)]
    pub fn read(self, s: &[u8], at: usize) -> Result<(u32, usize), Fault>
        ensures { result ≡ found (field self.low self.high s.now at) }
    {
        match self.glance(s, at) {
            Some(seen) => Ok(seen),
            None => read_field(s, at, self.low, self.high),
        }
    }
}

// The space number at the place `at`, which is to be below the count of spaces.
pub fn read_space(s: &[u8], at: usize, spaces: usize) -> Result<(Space, usize), Fault>
    ensures { result ≡ found (space_field spaces s.now at) }
{
    let (value, next) = number_at(s, at)?;
    let space = value as usize;
    if space < spaces {
        Ok((Space(space), next))
    } else {
        Err(fault_at(Kind::Range, at))
    }
}

pub fn read_key(s: &[u8], at: usize) -> Result<(Key, usize), Fault>
    ensures { result ≡ found (key_field s.now at) }
{
    let (value, next) = KEY.read(s, at)?;
    Ok((Key(value), next))
}

pub fn read_depth(s: &[u8], at: usize) -> Result<(Depth, usize), Fault>
    ensures { result ≡ found_as depth_value (depth_field s.now at) }
{
    let (value, next) = number_at(s, at)?;
    match Depth::new(value) {
        Some(depth) => Ok((depth, next)),
        None => Err(fault_at(Kind::Range, at)),
    }
}

// The object and the right at the place `at`.
pub fn read_use(s: &[u8], at: usize) -> Result<(Use, usize), Fault>
    ensures { result ≡ found_as use_value (use_fields s.now at) }
{
    let (object, middle) = OBJECT.read(s, at)?;
    let (right, next) = RIGHT.read(s, middle)?;
    Ok((Use { object, right }, next))
}
