//! The values that names have in a copy: of constants, of members, and the arguments of definitions.

ghost use Rattle.std.specs.Prelude.{◌≡◌, ◌+◌, IfOk};

use dbg_base::Name;
use notation_tree::arithmetic::ConstantValue;
use notation_tree::fault::{Expanding, ExpansionStop, MemberValue, Problem};
use notation_tree::limits::{SESSION_STEPS, STEPS};
use notation_tree::model::Tables;
use notation_tree::syntax::{Binder, Definition, Expression};
use std::alloc::{AllocError, Global};

/// A copy of items: the copy that it is in, and the member and the value for which it is made. Copies are numbered from 1; 0 is none.
#[derive(Clone, Copy)]
pub(crate) struct CopyOf {
    pub(crate) parent: usize,
    pub(crate) member: usize,
    pub(crate) value: i64,
}

/// The arguments of a definition, whose parameters are numbered from `first` on.
#[derive(Clone, Copy)]
struct Arguments<'a> {
    first: usize,
    values: &'a [Expression],
}

/// The values of names.
#[derive(Drop)]
pub struct Environment<'a> {
    pub alloc: Global,
    tables: &'a Tables,
    /// The names of the members that a command line adds to those of the model.
    pub line_members: &'a [Name],
    /// The constants that are computed here.
    pub(crate) constants: Vec<Option<ConstantValue>>,
    // The constants of the model, where they were computed before.
    known: &'a [Option<ConstantValue>],
    // The constants of the present process, where they were computed before, from this number on.
    own_first: usize,
    own: &'a [Option<ConstantValue>],
    // The arguments of the definitions that are put in, the innermost last.
    arguments: Vec<Arguments<'a>>,
    pub(crate) copies: Vec<CopyOf>,
    /// The present copy.
    pub(crate) copy: usize,
    /// The last copy that something refers to.
    pub(crate) kept: usize,
    steps: u32,
    /// How many steps are left to all lines of the session.
    pub session_steps: u32,
}

impl<'a> Environment<'a> {
    /// The constants have these values.
    pub fn knowing(
        alloc: Global,
        tables: &'a Tables,
        known: &'a [Option<ConstantValue>],
    ) -> Environment<'a> {
        Environment {
            alloc,
            tables,
            line_members: &[],
            constants: Vec::new(alloc),
            known,
            own_first: 0,
            own: &[],
            arguments: Vec::new(alloc),
            copies: Vec::new(alloc),
            copy: 0,
            kept: 0,
            steps: STEPS,
            session_steps: SESSION_STEPS,
        }
    }

    /// No constant has a value yet.
    pub(crate) fn new(alloc: Global, tables: &'a Tables) -> Result<Environment<'a>, AllocError> {
        let mut environment = Environment::knowing(alloc, tables, &[]);
        for _ in 0..tables.constants {
            environment.constants.push(None)?;
        }
        Ok(environment)
    }

    /// Whether the model has no types of variables.
    pub(crate) fn has_no_types(&self) -> bool {
        self.tables.types.is_empty()
    }

    /// Takes a step, at this offset, so deep.
    pub(crate) fn step(&mut self, depth: u32, at: usize) -> Expanding<u32>
        ensures { IfOk result (λ inner. inner + 1 ≡ depth) }
    {
        if self.steps == 0 {
            return Err(ExpansionStop::Bad(Problem::MuchWork, at));
        }
        if self.session_steps == 0 {
            return Err(ExpansionStop::Bad(Problem::SessionWork, at));
        }
        self.steps -= 1;
        self.session_steps -= 1;
        if depth == 0 {
            return Err(ExpansionStop::Bad(Problem::DeepUnfolding, at));
        }
        Ok(depth - 1)
    }

    /// The value of a constant.
    pub(crate) fn constant(&self, number: usize, at: usize) -> Expanding<ConstantValue> {
        let own = self.own.get(number.wrapping_sub(self.own_first));
        let known = own.or(self.known.get(number));
        match known.or(self.constants.get(number)) {
            Some(Some(value)) => Ok(*value),
            _ => Err(ExpansionStop::Bad(Problem::VariableComputed, at)),
        }
    }

    /// Gives a constant its value.
    pub(crate) fn set_constant(&mut self, number: usize, value: ConstantValue) {
        if let Some(place) = self.constants.get_mut(number) {
            *place = Some(value);
        }
    }

    /// The values of so many constants, from this number on.
    pub(crate) fn values(
        &self,
        first: usize,
        count: usize,
    ) -> Result<Vec<Option<ConstantValue>>, AllocError> {
        match self.constants.get(first..first.saturating_add(count)) {
            Some(values) => Vec::from_slice(self.alloc, values),
            None => Ok(Vec::new(self.alloc)),
        }
    }

    /// The constants from this number on have these values, which those of a process have in one of its copies.
    pub fn set_own(&mut self, first: usize, own: &'a [Option<ConstantValue>]) {
        self.own_first = first;
        self.own = own;
    }

    /// The value of a member: that in the innermost copy for it.
    pub(crate) fn member(&self, number: usize) -> i64 {
        let mut copy = self.copy;
        for _ in 0..self.copies.len() {
            let Some(made) = self.copies.get(copy.wrapping_sub(1)) else {
                break;
            };
            if made.member == number {
                return made.value;
            }
            copy = made.parent;
        }
        0
    }

    /// Begins the copy in which the member has this value. The answer is the copy that it is in.
    pub(crate) fn enter(&mut self, member: usize, value: i64) -> Result<usize, AllocError> {
        let parent = self.copy;
        self.copies.push(CopyOf {
            parent,
            member,
            value,
        })?;
        self.copy = self.copies.len();
        Ok(parent)
    }

    /// Begins the copy in which the members of these ranges have these values. The answer is the copy that it is in.
    pub fn enter_all(&mut self, ranges: &[Binder], values: &[i64]) -> Result<usize, AllocError> {
        let before = self.copy;
        for (binder, value) in ranges.iter().zip(values) {
            self.enter(binder.member, *value)?;
        }
        Ok(before)
    }

    /// Ends the copies that were begun after this one. They are forgotten if nothing refers to them.
    pub fn leave(&mut self, before: usize) {
        self.copies.truncate(self.kept.max(before));
        self.copy = before;
    }

    /// Something refers to the present copy.
    pub(crate) fn keep(&mut self) {
        self.kept = self.kept.max(self.copy);
    }

    /// The argument that is put in for a parameter.
    pub(crate) fn argument(&self, number: usize, at: usize) -> Expanding<&'a Expression> {
        for bound in self.arguments.iter().rev() {
            if let Some(argument) = bound.values.get(number.wrapping_sub(bound.first)) {
                return Ok(argument);
            }
        }
        Err(ExpansionStop::Bad(Problem::VariableComputed, at))
    }

    /// Puts these arguments in for the parameters of a definition. The answer is its expression.
    pub(crate) fn begin_call(
        &mut self,
        number: usize,
        at: usize,
        values: &'a [Expression],
    ) -> Expanding<&'a Expression> {
        let Some(definition) = self.tables.definitions.get(number) else {
            return Err(ExpansionStop::Bad(Problem::NotADefinition, at));
        };
        let first = definition.first;
        self.arguments.push(Arguments { first, values })?;
        Ok(&definition.body)
    }

    /// The parameters of the definition that was put in last have their arguments of before.
    pub(crate) fn end_call(&mut self) {
        let _ = self.arguments.pop();
    }

    /// The members in whose copies the present one is, the outermost first.
    pub(crate) fn present_members(&self) -> Result<Vec<MemberValue>, AllocError> {
        let names = self.tables.members.as_slice();
        let copies = self.copies.as_slice();
        member_values(self.alloc, names, self.line_members, copies, self.copy)
    }
}

/// The members in whose copies this one is, the outermost first. The members have these names, and then those of the line.
pub(crate) fn member_values(
    alloc: Global,
    names: &[Name],
    line_names: &[Name],
    copies: &[CopyOf],
    copy: usize,
) -> Result<Vec<MemberValue>, AllocError> {
    let mut values = Vec::new(alloc);
    let mut copy = copy;
    for _ in 0..copies.len() {
        let Some(made) = copies.get(copy.wrapping_sub(1)) else {
            break;
        };
        let in_line = line_names.get(made.member.wrapping_sub(names.len()));
        if let Some(name) = names.get(made.member).or(in_line) {
            values.push(MemberValue {
                name: *name,
                value: made.value,
            })?;
        }
        copy = made.parent;
    }
    values.reverse();
    Ok(values)
}
