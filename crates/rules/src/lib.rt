// The words of the rules that code holds: keys, spaces and depths, each a type of its own.
#![tactic(auto)]

ghost use Rattle.std.specs.Prelude.{◌≡◌, ◌≤◌};
ghost use Rattle.rules.specs.Depths.{Step, made};

// A key, which stands for one party wherever it is met.
#[derive(Clone, Copy, PartialEq, Eq)]
pub struct Key(pub u32);

// A space, by its number in the table.
#[derive(Clone, Copy, PartialEq, Eq)]
pub struct Space(pub usize);

// How many times access may be handed on.
#[derive(Clone, Copy, PartialEq, Eq, PartialOrd, Ord)]
pub struct Depth(u32);

impl Depth {
    pub const TOP: u32 = 15;

    // The depth with this number, unless the number is above the top.
    pub fn new(number: u32) -> Option<Depth>
        ensures { result ≡ made number }
    {
        if number <= Depth::TOP {
            Some(Depth(number))
        } else {
            None
        }
    }

    pub fn number(self) -> u32
        ensures { result ≡ self.0 }
    {
        self.0
    }

    // The depth after one step by a delegation.
    pub fn step(self, delegation: Depth) -> Depth
        requires { 1 ≤ self.0 }
        ensures { Step self.0 delegation.0 result.0 }
    {
        delegation.min(Depth(self.0 - 1))
    }
}
