// What is wrong with bytes, and where.
ghost use Rattle.std.specs.Prelude.{◌≡◌, ◌+◌, ◌<◌, ◌^◌};
ghost use Rattle.records.specs.Parsed.{moved_fault};
ghost use Rattle.records.specs.declared.faults.Kind.{Kind};

use wire::NumberFault;

// The faults of the reviewer's list that a table can have.
#[derive(Clone, Copy, PartialEq, Eq)]
pub enum Kind {
    Long,
    Cut,
    Number,
    Range,
    Twice,
    Extra,
    Version,
}

// Where a fault is: the offset of its number's first byte.
#[derive(Clone, Copy, PartialEq, Eq)]
pub struct Place {
    pub offset: usize,
}

#[derive(Clone, Copy, PartialEq, Eq)]
pub struct Fault {
    pub kind: Kind,
    pub place: Place,
}

// What a table's reader says of bytes that hold no number.
impl From<NumberFault> for Kind {
    ghost use Rattle.records.specs.Kinds.{kind_of};

    ghost from_gives = { λ e k. k ≡ kind_of e };

    fn from(fault: NumberFault) -> Kind {
        match fault {
            NumberFault::Cut => Kind::Cut,
            NumberFault::Wrong => Kind::Number,
        }
    }
}

// The fault with its place at an offset.
pub fn fault_at(kind: Kind, offset: usize) -> Fault
    ensures { result ≡ record { kind = kind; place = record { offset = offset } } }
{
    Fault {
        kind,
        place: Place { offset },
    }
}

// The fault as seen from the beginning of a whole of which the bytes are the rest from `by` on.
pub fn moved(fault: Fault, by: usize) -> Fault
    requires { by + fault.place.offset < 2 ^ 64 }
    ensures { result ≡ moved_fault by fault }
{
    fault_at(fault.kind, by + fault.place.offset)
}
