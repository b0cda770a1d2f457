//! Faults of a program text.

ghost use Rattle.std.specs.Prelude.{◌≡◌};
ghost use Rattle.dbg_base.specs.Faults.{kind_number};

/// The kind of a fault.
#[derive(Clone, Copy, Debug, PartialEq, Eq)]
pub enum FaultKind {
    /// A byte begins no token.
    Byte,
    /// A word of more than 32 bytes, or a number above 9223372036854775807.
    Token,
    /// A token cannot follow the tokens before it, or the text ends too early.
    Grammar,
    /// The name is taken.
    NameTaken,
    /// Nothing has this name.
    NameUnknown,
    /// A truth value is in place of a number, or a number in place of a truth value.
    TypeWrong,
    /// Too many bytes, open parentheses, processes, variables or commands.
    Limit,
    /// A process sends to itself or receives from itself.
    SelfSend,
    /// A command sets the variable twice.
    SetTwice,
}

impl FaultKind {
    /// The number of the kind, from 1 to 9. It does not allocate.
    pub fn number(&self) -> u32
        ensures { result ≡ kind_number self.now }
    {
        match self {
            FaultKind::Byte => 1,
            FaultKind::Token => 2,
            FaultKind::Grammar => 3,
            FaultKind::NameTaken => 4,
            FaultKind::NameUnknown => 5,
            FaultKind::TypeWrong => 6,
            FaultKind::Limit => 7,
            FaultKind::SelfSend => 8,
            FaultKind::SetTwice => 9,
        }
    }
}

/// A fault of a text, and the offset of its byte.
#[derive(Clone, Copy, Debug, PartialEq, Eq)]
pub struct ProgFault {
    pub kind: FaultKind,
    pub at: usize,
}
