//! What is wrong with a text in the notation.

ghost use Rattle.std.specs.Prelude.{◌≡◌};
ghost use Rattle.notation_tree.specs.declared.fault.NotationError.TheVariants.{Memory};
ghost use Rattle.notation_tree.specs.Places.{offset_of};

use crate::token::Mark;
use dbg_base::{FaultKind, Name};
use std::alloc::{AllocError, AllocFailed};

/// What a text has to have at a place.
#[derive(Clone, Copy, PartialEq, Eq)]
pub enum Expected {
    Mark(Mark),
    Name,
    Expression,
    /// `const`, `let`, `enum`, `message` or `process`.
    Declaration,
    /// `const`, `let`, `var`, `when`, a label, `for` or `}`.
    Item,
    /// `when`, after a label.
    When,
    /// `send`, `recv` or an assignment.
    Action,
    /// `when` or `else`, or the label of a case.
    Case,
    /// The end of the text.
    End,
}

/// What a name means.
#[derive(Clone, Copy, PartialEq, Eq)]
pub enum Meaning {
    Constant,
    Definition,
    Member,
    Parameter,
    Variable,
    Type,
    Field,
}

/// What is wrong.
#[derive(Clone, Copy, PartialEq, Eq)]
pub enum Problem {
    /// A byte begins no token.
    Byte,
    /// A word has more than 32 bytes.
    LongWord,
    /// A number is above 9223372036854775807.
    LargeNumber,
    /// Something else is expected here.
    Expected(Expected),
    /// A comparison is compared: comparisons do not chain.
    ComparisonChain,
    /// A definition has the name of a form: `all`, `some`, `sum` or `at_least`.
    FormName,
    /// The name has another meaning here.
    NameTaken(Meaning),
    /// Arguments follow a name that no definition has.
    NotADefinition,
    /// A definition has another number of arguments.
    Arguments { wanted: usize, found: usize },
    /// A variable is used where a value is computed.
    VariableComputed,
    /// `sent` or `got` is used where a value is computed.
    CountComputed,
    /// A truth value is used where a number is expected.
    NumberExpected,
    /// A number is used where a truth value is expected.
    TruthExpected,
    /// A result is not a number of 64 bits.
    Overflow,
    /// A number is divided by 0.
    DivisionByZero,
    /// An index, or a member that becomes a part of a name, is below 0.
    BelowZero,
    /// No type has the name.
    NoType,
    /// The message, or else each message, has no such field.
    NoField,
    /// Several messages have the field, and what it is asked of is no variable with a type.
    FieldOfSeveral,
    /// The range of a field has no value.
    EmptyRange,
    /// A variable of one enum is set to a constant of another.
    OtherEnum,
    /// The guard of a case names the variable that the case receives.
    ReadsReceived,
    /// A case comes after `else`.
    CaseAfterElse,
    /// Another command of the process has the label.
    LabelTaken,
    /// No command of the process has the label.
    NoLabel,
    /// More than 64 parameters.
    ManyParameters,
    /// More than 128 brackets are open, or more than 64 `for`.
    DeepNesting,
    /// Definitions and forms are put into one another more than 512 deep.
    DeepUnfolding,
    /// The plain text has more than 1,048,576 bytes.
    LongText,
    /// The expansion of a text or of a line takes more than 2,000,000 steps.
    MuchWork,
    /// The lines of a session take more than 10,000,000 steps.
    SessionWork,
    /// A `for` before a line, or in a breakpoint, has more than 65,536 members.
    ManyCopies,
    /// A fault that the process language finds in the plain text.
    Plain(FaultKind),
    /// The plain text is not what the model means. This is a fault of rdbg, and not of the text.
    Disagreement,
}

/// A member of a range, and its value in a copy.
#[derive(Clone, Copy)]
pub struct MemberValue {
    pub name: Name,
    pub value: i64,
}

/// Why a text was not expanded.
#[derive(Drop)]
pub enum NotationError {
    Bad(Fault),
    /// Memory ran out.
    Memory,
}

/// A fault of a text: what is wrong, the offset at which it is, and in which copy.
#[derive(Drop)]
pub struct Fault {
    problem: Problem,
    at: usize,
    members: Vec<MemberValue>,
}

impl Fault {
    /// This is wrong at this offset, in the copy in which these members have values.
    pub fn new(problem: Problem, at: usize, members: Vec<MemberValue>) -> Fault
        ensures { offset_of result ≡ at }
    {
        Fault {
            problem,
            at,
            members,
        }
    }

    /// What is wrong.
    pub fn problem(&self) -> Problem {
        self.problem
    }

    /// The offset of the byte at which it is, or the length of the text.
    pub fn at(&self) -> usize {
        self.at
    }

    /// The members of the ranges in whose copy it is, the outermost first.
    pub fn members(&self) -> &[MemberValue] {
        self.members.as_slice()
    }
}

/// Why work stopped.
#[derive(Clone, Copy)]
pub enum ExpansionStop {
    Memory,
    Bad(Problem, usize),
}

/// What is expanded, or why work stopped.
pub type Expanding<T> = Result<T, ExpansionStop>;

impl From<AllocError> for ExpansionStop {
    fn from(_error: AllocError) -> ExpansionStop {
        ExpansionStop::Memory
    }
}

impl<T: Drop> From<AllocFailed<T>> for ExpansionStop {
    fn from(_error: AllocFailed<T>) -> ExpansionStop {
        ExpansionStop::Memory
    }
}

impl From<AllocError> for NotationError {
    ghost from_gives = { λ _ error. error ≡ Memory };

    fn from(_error: AllocError) -> NotationError {
        NotationError::Memory
    }
}
