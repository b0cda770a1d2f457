//! Processes, variables and commands, written in the process language.

use crate::writing::{Writer, put_index};
use dbg_base::Name;
use dbg_base::limits::{COMMANDS, PROCESSES};
use itoa::Buffer;
use notation_tree::arithmetic::ConstantValue;
use notation_tree::fault::{Expanding, ExpansionStop, Problem};
use notation_tree::limits::{REPEATS, UNFOLDING};
use notation_tree::model::Tables;
use notation_tree::syntax::{
    ActionNode, AssignmentNode, Binder, CommandNode, Constant, DeclarationNode, ItemNode,
    ProcessNode, VariableNode, place,
};
use std::alloc::{AllocError, Global};

/// A command of the plain program: its label, or nothing, and where it is in the source.
#[derive(Drop)]
pub struct CommandOrigin {
    pub label: Vec<u8>,
    pub(crate) at: usize,
}

/// A variable of the plain program: its name with its indices, as `vote[2]`, and the number of its type.
#[derive(Drop)]
pub struct VariableOrigin {
    pub(crate) name: Vec<u8>,
    pub(crate) kind: Option<usize>,
}

/// A send in the plain program: the name of the process that receives, and the number of the type of what is sent.
#[derive(Drop)]
pub(crate) struct SentKind {
    pub(crate) target: Vec<u8>,
    pub(crate) kind: Option<usize>,
}

/// A process of the plain program: its name, the declaration that it comes from, the values of its members and of its constants, its
/// variables, its commands, and, in a model with types, what it sends.
#[derive(Drop)]
pub struct ProcessCopy {
    pub name: Vec<u8>,
    pub declaration: usize,
    pub members: Vec<i64>,
    pub constants: Vec<Option<ConstantValue>>,
    pub variables: Vec<VariableOrigin>,
    pub commands: Vec<CommandOrigin>,
    pub(crate) sends: Vec<SentKind>,
}

/// Writes a model, and notes its processes and commands.
#[derive(Drop)]
pub(crate) struct Builder<'a> {
    pub(crate) writer: Writer<'a>,
    pub(crate) processes: Vec<ProcessCopy>,
    // The values of the members of the open `for`.
    indices: Vec<i64>,
}

// The name of a member of a family.
fn member_name(alloc: Global, name: &Name, values: &[i64], at: usize) -> Expanding<Vec<u8>> {
    let mut text = Vec::from_slice(alloc, name.bytes())?;
    for value in values {
        put_index(&mut text, *value, at)?;
    }
    Ok(text)
}

/// Appends each number in brackets.
pub fn put_indices(label: &mut Vec<u8>, indices: &[i64]) -> Result<(), AllocError> {
    let mut buffer = Buffer::new();
    for index in indices {
        label.push(b'[')?;
        label.extend_from_slice(buffer.format(*index).as_bytes())?;
        label.push(b']')?;
    }
    Ok(())
}

// Whether one of the first commands has the label. A 65th command is a fault of the process language.
fn has_label(commands: &[CommandOrigin], label: &[u8]) -> bool {
    commands
        .iter()
        .take(COMMANDS)
        .any(|command| command.label.as_slice() == label)
}

impl<'a> Builder<'a> {
    /// Nothing is written.
    pub(crate) fn new(alloc: Global, tables: &'a Tables) -> Result<Builder<'a>, AllocError> {
        Ok(Builder {
            writer: Writer::new(alloc, tables)?,
            processes: Vec::new(alloc),
            indices: Vec::new(alloc),
        })
    }

    fn alloc(&self) -> Global {
        self.writer.environment.alloc
    }

    // Computes a constant.
    fn constant(&mut self, constant: &'a Constant) -> Expanding<()> {
        let environment = &mut self.writer.environment;
        let value = environment.value(&constant.value, UNFOLDING)?;
        let is_below_one = matches!(value, ConstantValue::Number(number) if number < 1);
        if constant.is_width && is_below_one {
            let at = place(&constant.value);
            return Err(ExpansionStop::Bad(Problem::EmptyRange, at));
        }
        environment.set_constant(constant.number, value);
        Ok(())
    }

    // Notes a variable for these members.
    fn note_variable(&mut self, variable: &VariableNode, values: &[i64]) -> Result<(), AllocError> {
        let mut name = Vec::from_slice(self.alloc(), variable.name.bytes())?;
        put_indices(&mut name, values)?;
        let kind = variable.kind;
        if let Some(process) = self.processes.last_mut() {
            process.variables.push(VariableOrigin { name, kind })?;
        }
        Ok(())
    }

    // Writes the variable for these members.
    fn variable_copy(&mut self, variable: &'a VariableNode, values: &[i64]) -> Expanding<()> {
        let alloc = self.alloc();
        self.note_variable(variable, values)?;
        let writer = &mut self.writer;
        let start = writer.environment.number(&variable.value, UNFOLDING)?;
        let name = member_name(alloc, &variable.name, values, variable.name_at)?;
        writer.text.line(b"  ", variable.at)?;
        writer.token(b"var", variable.at)?;
        writer.token(name.as_slice(), variable.name_at)?;
        writer.token(b"=", variable.name_at)?;
        let at = place(&variable.value);
        if start < 0 {
            writer.token(b"-", at)?;
            writer.text.join();
        }
        writer.magnitude(start, at)?;
        writer.joined_token(b";", at)
    }

    // Writes a variable, or each of a family: no more than the first 33, since the process language reports the 33rd.
    fn variable(&mut self, variable: &'a VariableNode) -> Expanding<()> {
        let ranges = variable.ranges.as_slice();
        let tuples = self.writer.environment.combinations(ranges, PROCESSES)?;
        for values in &tuples {
            let environment = &mut self.writer.environment;
            let before = environment.enter_all(ranges, values.as_slice())?;
            self.variable_copy(variable, values.as_slice())?;
            self.writer.environment.leave(before);
        }
        Ok(())
    }

    // The label of a command in the present copy, or nothing.
    fn label(&self, command: &CommandNode) -> Expanding<Vec<u8>> {
        let Some(label) = command.label else {
            return Ok(Vec::new(self.alloc()));
        };
        let mut text = Vec::from_slice(self.alloc(), label.name.bytes())?;
        put_indices(&mut text, self.indices.as_slice())?;
        Ok(text)
    }

    // Notes a command: its label, which no other command of the process may have, and its place.
    fn note_command(&mut self, command: &CommandNode) -> Expanding<()> {
        let label = self.label(command)?;
        let at = match command.label {
            Some(label) => label.at,
            None => command.at,
        };
        if let Some(process) = self.processes.last_mut() {
            if !label.is_empty() && has_label(process.commands.as_slice(), label.as_slice()) {
                return Err(ExpansionStop::Bad(Problem::LabelTaken, at));
            }
            process.commands.push(CommandOrigin { label, at })?;
        }
        Ok(())
    }

    // Notes what a command sends, in a model with types.
    fn note_send(&mut self, command: &'a CommandNode) -> Expanding<()> {
        let ActionNode::Send(_, target, _) = &command.action else {
            return Ok(());
        };
        let environment = &self.writer.environment;
        if environment.has_no_types() {
            return Ok(());
        }
        let target = self.writer.name_of(target, UNFOLDING)?;
        let kind = command.sent;
        if let Some(process) = self.processes.last_mut() {
            process.sends.push(SentKind { target, kind })?;
        }
        Ok(())
    }

    // Writes an assignment.
    fn assignment(&mut self, assignment: &'a AssignmentNode) -> Expanding<()> {
        let writer = &mut self.writer;
        writer.reference(&assignment.target, UNFOLDING)?;
        writer.token(b":=", assignment.at)?;
        writer.expression(&assignment.value, UNFOLDING)
    }

    // Writes what a command does besides its assignments.
    fn action(&mut self, action: &'a ActionNode) -> Expanding<()> {
        let writer = &mut self.writer;
        match action {
            ActionNode::Local => Ok(()),
            ActionNode::Send(at, target, value) => {
                writer.token(b"send", *at)?;
                writer.reference(target, UNFOLDING)?;
                writer.expression(value, UNFOLDING)
            }
            ActionNode::Receive(at, source, variable) => {
                writer.token(b"recv", *at)?;
                writer.reference(source, UNFOLDING)?;
                writer.reference(variable, UNFOLDING)
            }
        }
    }

    // Writes a command.
    fn command(&mut self, command: &'a CommandNode) -> Expanding<()> {
        self.note_command(command)?;
        self.note_send(command)?;
        self.writer.text.line(b"  ", command.at)?;
        self.writer.token(b"when", command.at)?;
        self.writer.expression(&command.guard, UNFOLDING)?;
        self.writer.token(b":", command.colon)?;
        self.action(&command.action)?;
        let mut is_first = matches!(command.action, ActionNode::Local);
        for assignment in &command.assignments {
            if !is_first {
                self.writer.joined_token(b",", assignment.target.at)?;
            }
            is_first = false;
            self.assignment(assignment)?;
        }
        self.writer.joined_token(b";", command.end)
    }

    // Writes the items for each member of a range.
    #[cycle(copies)]
    fn repeat(&mut self, binder: &'a Binder, items: &'a [ItemNode], depth: u32) -> Expanding<()> {
        if depth == 0 {
            return Err(ExpansionStop::Bad(Problem::DeepNesting, binder.at));
        }
        let environment = &mut self.writer.environment;
        let members = environment.range(binder, UNFOLDING, usize::MAX)?;
        for member in &members {
            let before = self.writer.environment.enter(binder.member, *member)?;
            self.indices.push(*member)?;
            self.items(items, depth - 1)?;
            let _ = self.indices.pop();
            self.writer.environment.leave(before);
        }
        Ok(())
    }

    // Writes items, in order.
    #[cycle(copies)]
    fn items(&mut self, items: &'a [ItemNode], depth: u32) -> Expanding<()> {
        for item in items {
            match item {
                ItemNode::Constant(constant) => self.constant(constant)?,
                ItemNode::Variable(variable) => self.variable(variable)?,
                ItemNode::Command(command) => self.command(command)?,
                ItemNode::Repeat(binder, items) => self.repeat(binder, items.as_slice(), depth)?,
            }
        }
        Ok(())
    }

    // Notes the values that the constants of a process have in its last copy.
    fn note_constants(&mut self, process: &ProcessNode) -> Result<(), AllocError> {
        let environment = &self.writer.environment;
        let constants = environment.values(process.first_constant, process.constants)?;
        if let Some(copy) = self.processes.last_mut() {
            copy.constants = constants;
        }
        Ok(())
    }

    // Writes the process for these members.
    fn process_copy(
        &mut self,
        process: &'a ProcessNode,
        declaration: usize,
        values: &[i64],
    ) -> Expanding<()> {
        let alloc = self.alloc();
        let name = member_name(alloc, &process.name, values, process.name_at)?;
        self.writer.text.line(b"", process.at)?;
        self.writer.token(b"process", process.at)?;
        self.writer.token(name.as_slice(), process.name_at)?;
        self.writer.token(b"{", process.open)?;
        self.processes.push(ProcessCopy {
            name,
            declaration,
            members: Vec::from_slice(alloc, values)?,
            constants: Vec::new(alloc),
            variables: Vec::new(alloc),
            commands: Vec::new(alloc),
            sends: Vec::new(alloc),
        })?;
        self.items(process.items.as_slice(), REPEATS)?;
        self.note_constants(process)?;
        self.writer.text.line(b"", process.close)?;
        self.writer.token(b"}", process.close)
    }

    // Writes a process, or each of a family: no more than the first 33, since the process language reports the 33rd.
    fn process(&mut self, process: &'a ProcessNode, declaration: usize) -> Expanding<()> {
        let ranges = process.ranges.as_slice();
        let tuples = self.writer.environment.combinations(ranges, PROCESSES)?;
        for values in &tuples {
            let environment = &mut self.writer.environment;
            let before = environment.enter_all(ranges, values.as_slice())?;
            self.process_copy(process, declaration, values.as_slice())?;
            self.writer.environment.leave(before);
        }
        Ok(())
    }

    /// Writes all declarations of a model, in order.
    pub(crate) fn model(&mut self, declarations: &'a [DeclarationNode]) -> Expanding<()> {
        for (number, declaration) in declarations.iter().enumerate() {
            match declaration {
                DeclarationNode::Constant(constant) => self.constant(constant)?,
                DeclarationNode::Process(process) => self.process(process, number)?,
            }
        }
        if !self.writer.text.bytes.is_empty() {
            self.writer.text.line(b"", 0)?;
        }
        Ok(())
    }
}
