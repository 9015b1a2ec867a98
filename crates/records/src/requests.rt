// Requests: who asks, whose object, which object and which right.
ghost use Rattle.std.specs.Prelude.{◌≡◌};
ghost use Rattle.records.specs.Requests.{read_request, request_value, read_key_request, key_request_value, held_as};

use crate::fields::{Use, read_key, read_space, read_use};
use crate::targets::{Target, read_target};
use rules::{Key, Space};

pub const MOST_REQUEST: usize = 64;

#[derive(Clone, Copy, PartialEq, Eq)]
pub struct Request {
    pub subject: Target,
    pub owner: Space,
    pub wanted: Use,
}

#[derive(Clone, Copy, PartialEq, Eq)]
pub struct KeyRequest {
    pub subject: Key,
    pub owner: Key,
    pub wanted: Use,
}

// The request that the bytes hold, against a table with so many spaces.
pub fn read_request(bytes: &[u8], spaces: usize) -> Option<Request>
    ensures { result ≡ held_as request_value (read_request spaces bytes.now) }
{
    if MOST_REQUEST < bytes.len() {
        return None;
    }
    let (subject, at1) = read_target(bytes, 0, spaces).ok()?;
    let (owner, at2) = read_space(bytes, at1, spaces).ok()?;
    let (wanted, next) = read_use(bytes, at2).ok()?;
    if next != bytes.len() {
        return None;
    }
    Some(Request {
        subject,
        owner,
        wanted,
    })
}

// The key request that the bytes hold.
pub fn read_key_request(bytes: &[u8]) -> Option<KeyRequest>
    ensures { result ≡ held_as key_request_value (read_key_request bytes.now) }
{
    if MOST_REQUEST < bytes.len() {
        return None;
    }
    let (subject, at1) = read_key(bytes, 0).ok()?;
    let (owner, at2) = read_key(bytes, at1).ok()?;
    let (wanted, next) = read_use(bytes, at2).ok()?;
    if next != bytes.len() {
        return None;
    }
    Some(KeyRequest {
        subject,
        owner,
        wanted,
    })
}
