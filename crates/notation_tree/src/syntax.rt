//! A model as it is written. Each part has the offset of its first byte. Names of constants, definitions, members and parameters are looked
//! up already, and are numbers; other names are names of variables.

use dbg_base::{Direction, Name, Operator};

/// An expression.
#[derive(Drop)]
#[cycle(syntax)]
pub enum Expression {
    Number(usize, i64),
    Truth(usize, bool),
    Constant(usize, usize),
    Member(usize, usize),
    Parameter(usize, usize),
    Name(Reference),
    Count(usize, Direction, Reference),
    /// A definition with its arguments.
    Call(usize, usize, Vec<Expression>),
    Not(usize, Box<Expression>),
    Negate(usize, Box<Expression>),
    /// Operators of one precedence, from left to right, or one comparison.
    Chain(usize, Box<Expression>, Vec<Link>),
    Each(Box<Each>),
}

/// An operator, with its offset, and its right operand.
#[derive(Drop)]
#[cycle(syntax)]
pub struct Link {
    pub operator: Operator,
    pub at: usize,
    pub operand: Expression,
}

/// A name with its indices.
#[derive(Drop)]
#[cycle(syntax)]
pub struct Reference {
    pub at: usize,
    pub name: Name,
    pub indices: Vec<Expression>,
}

/// A member of a range: its number, the bounds of the range, and the condition after `where`.
#[derive(Drop)]
#[cycle(syntax)]
pub struct Binder {
    pub at: usize,
    pub member: usize,
    pub low: Expression,
    pub high: Expression,
    pub condition: Option<Expression>,
}

/// How the expressions of the members are joined.
#[derive(Clone, Copy, PartialEq, Eq)]
pub enum FormNode {
    All,
    Some,
    Sum,
    AtLeast,
}

/// `all`, `some`, `sum` or `at_least`; `least` is the number of `at_least`.
#[derive(Drop)]
#[cycle(syntax)]
pub struct Each {
    pub at: usize,
    pub form: FormNode,
    pub least: Option<Expression>,
    pub binder: Binder,
    pub body: Expression,
}

/// A constant: its number, and the expression of its value. One that says how many values a field of a message has is above 0.
#[derive(Drop)]
pub struct Constant {
    pub number: usize,
    pub value: Expression,
    pub is_width: bool,
}

/// A definition: the number of its first parameter, how many it has, and its expression.
#[derive(Drop)]
pub struct Definition {
    pub first: usize,
    pub count: usize,
    pub body: Expression,
}

/// A variable, or a family of variables, with the number of its type if it has one.
#[derive(Drop)]
pub struct VariableNode {
    pub at: usize,
    pub name_at: usize,
    pub name: Name,
    pub ranges: Vec<Binder>,
    pub kind: Option<usize>,
    pub value: Expression,
}

/// An assignment, with the offset of `:=`.
#[derive(Drop)]
pub struct AssignmentNode {
    pub target: Reference,
    pub at: usize,
    pub value: Expression,
}

/// What a command does besides its assignments, with the offset of its word.
#[derive(Drop)]
pub enum ActionNode {
    Local,
    Send(usize, Reference, Expression),
    Receive(usize, Reference, Reference),
}

/// The name that a command has.
#[derive(Clone, Copy)]
pub struct Label {
    pub at: usize,
    pub name: Name,
}

/// A command, with the offsets of `when`, `:` and `;`, and the number of the message type of what it sends, if that has one.
#[derive(Drop)]
pub struct CommandNode {
    pub label: Option<Label>,
    pub at: usize,
    pub guard: Expression,
    pub colon: usize,
    pub action: ActionNode,
    pub sent: Option<usize>,
    pub assignments: Vec<AssignmentNode>,
    pub end: usize,
}

/// What a process is made of.
#[derive(Drop)]
pub enum ItemNode {
    Constant(Constant),
    Variable(VariableNode),
    Command(CommandNode),
    Repeat(Binder, Vec<ItemNode>),
}

/// A process, or a family of processes, with the offsets of its braces. So many constants are in it, numbered from the first on.
#[derive(Drop)]
pub struct ProcessNode {
    pub at: usize,
    pub name_at: usize,
    pub name: Name,
    pub ranges: Vec<Binder>,
    pub first_constant: usize,
    pub constants: usize,
    pub open: usize,
    pub items: Vec<ItemNode>,
    pub close: usize,
}

/// What a model is made of.
#[derive(Drop)]
pub enum DeclarationNode {
    Constant(Constant),
    Process(ProcessNode),
}

/// The offset of an expression.
pub fn place(expression: &Expression) -> usize {
    match expression {
        Expression::Number(at, _)
        | Expression::Truth(at, _)
        | Expression::Constant(at, _)
        | Expression::Member(at, _)
        | Expression::Parameter(at, _)
        | Expression::Count(at, _, _)
        | Expression::Call(at, _, _)
        | Expression::Not(at, _)
        | Expression::Negate(at, _)
        | Expression::Chain(at, _, _) => *at,
        Expression::Name(reference) => reference.at,
        Expression::Each(each) => each.at,
    }
}

/// The expression in parentheses that open at this offset.
pub fn enclosed(expression: Expression, at: usize) -> Expression {
    match expression {
        Expression::Not(_, operand) => Expression::Not(at, operand),
        Expression::Negate(_, operand) => Expression::Negate(at, operand),
        Expression::Chain(_, first, links) => Expression::Chain(at, first, links),
        other => other,
    }
}
