// The kinds of cases, by their numbers in a case file.
ghost use Rattle.vectors.specs.Kinds.{KindOf};

use crate::input::Stopped;

// What a case asks for.
#[derive(Clone, Copy)]
pub enum Kind {
    Table,
    Request,
    Derivation,
    KeyTable,
    KeyRequest,
    Sheet,
    Decision,
    Check,
    Translation,
    KeyDecision,
}

impl TryFrom<u8> for Kind {
    type Error = Stopped;

    ghost try_from_gives = { KindOf };

    fn try_from(number: u8) -> Result<Kind, Stopped> {
        match number {
            1 => Ok(Kind::Table),
            2 => Ok(Kind::Request),
            3 => Ok(Kind::Derivation),
            4 => Ok(Kind::KeyTable),
            5 => Ok(Kind::KeyRequest),
            6 => Ok(Kind::Sheet),
            10 => Ok(Kind::Decision),
            11 => Ok(Kind::Check),
            12 => Ok(Kind::Translation),
            13 => Ok(Kind::KeyDecision),
            _ => Err(Stopped::NoSuchKind),
        }
    }
}
