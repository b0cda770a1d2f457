//! The whole way from a text in the notation to a plain program, and where its parts come from.

ghost use Rattle.std.specs.Prelude.{◌≡◌, ◌≤◌, ◌<◌, ◌↔◌, length, IfOk, IfErr, IfSome, IsSome};
ghost use Rattle.dbg_base.specs.declared.limits.TheConstants.{INPUT_BYTES};
ghost use Rattle.notation_tree.specs.Places.{IsInside, offset_of};
ghost use Rattle.notation_programs.specs.TokenCounts.{token_count};
ghost use Rattle.notation_programs.specs.Expansions.{plain_of, source_length};

use crate::building::{Builder, put_indices};
use crate::built::Built;
use crate::environment::{Environment, member_values};
use crate::plain_text::{Origin, map_of};
use crate::writing::Writer;
use dbg_base::{Choice, Pid, ProgFault};
use notation_parser::parser::model;
use notation_tree::arithmetic::ConstantValue;
use notation_tree::fault::{Expanding, ExpansionStop, Fault, MemberValue, NotationError, Problem};
use notation_tree::lexer::{first_wrong, tokens};
use notation_tree::model::ParsedModel;
use notation_tree::syntax::DeclarationNode;
use std::alloc::{AllocError, Global};

/// A model that was expanded: the plain program, and where its parts come from.
pub struct Expansion {
    /// The tree of the source.
    pub model: ParsedModel,
    /// How many bytes the source has.
    pub source: usize,
    /// What is written for the model.
    pub built: Built,
}

impl Drop for Expansion {
    fn drop(self) {
        let Self {
            model,
            source,
            built,
        } = self;
    }
}

// Why work stopped, where the text has so many bytes and these members have values.
pub fn failed(stop: ExpansionStop, members: Vec<MemberValue>, length: usize) -> NotationError
    ensures { IsInside length result }
{
    match stop {
        ExpansionStop::Memory => NotationError::Memory,
        ExpansionStop::Bad(problem, at) => {
            NotationError::Bad(Fault::new(problem, at.min(length), members))
        }
    }
}

// Why work stopped in the present copy.
pub fn failed_in(environment: &Environment<'_>, stop: ExpansionStop, length: usize) -> NotationError
    ensures { IsInside length result }
{
    match environment.present_members() {
        Ok(members) => failed(stop, members, length),
        Err(_) => NotationError::Memory,
    }
}

// The plain program of a model, whose source has so many bytes.
fn build(alloc: Global, model: &ParsedModel, source: usize) -> Result<Built, NotationError>
    ensures { IfErr result (IsInside source) }
{
    let mut builder = Builder::new(alloc, &model.tables)?;
    if let Err(stop) = builder.model(model.declarations.as_slice()) {
        return Err(failed_in(&builder.writer.environment, stop, source));
    }
    let Builder {
        writer,
        processes,
        ..
    } = builder;
    let Writer { environment, text } = writer;
    let Environment {
        constants,
        copies,
        ..
    } = environment;
    let map = map_of(alloc, text.bytes.as_slice(), text.origins.as_slice())?;
    Ok(Built {
        text,
        processes,
        copies,
        constants,
        map,
    })
}

// The expansion of a model, whose source has so many bytes.
fn expanded(alloc: Global, model: ParsedModel, source: usize) -> Result<Expansion, NotationError>
    ensures source { IfOk result (λ expansion. source_length expansion ≡ source) }
    ensures inside { IfErr result (IsInside source) }
{
    let built = build(alloc, &model, source)?;
    Ok(Expansion {
        model,
        source,
        built,
    })
}

// The model that a text writes.
fn parsed(alloc: Global, source: &[u8]) -> Expanding<ParsedModel> {
    let tokens = tokens(alloc, source)?;
    match first_wrong(tokens.as_slice()) {
        Some((problem, at)) => Err(ExpansionStop::Bad(problem, at)),
        None => model(alloc, source, tokens.as_slice()),
    }
}

/// Expands a text in the notation: each text is expanded, or has a fault at a place of its own, unless memory runs out.
pub fn expand(alloc: Global, source: &[u8]) -> Result<Expansion, NotationError>
    ensures source { IfOk result (λ expansion. source_length expansion ≡ length source.now) }
    ensures inside { IfErr result (IsInside (length source.now)) }
{
    match parsed(alloc, source) {
        Ok(model) => expanded(alloc, model, source.len()),
        Err(stop) => Err(failed(stop, Vec::new(alloc), source.len())),
    }
}

// The last of these tokens that begins at this offset of the plain text, or before.
fn origin_at(origins: &[Origin], offset: usize) -> Option<Origin> {
    let mut before = origins.iter().rev();
    before.find(|origin| origin.start <= offset).copied()
}

impl Expansion {
    /// The plain program, of 1,048,576 bytes at most.
    pub fn plain(&self) -> &[u8]
        ensures value { result.now ≡ plain_of self.now }
        ensures few { length result.now ≤ INPUT_BYTES }
    {
        self.built.text.bytes.as_slice()
    }

    /// How many tokens the plain program has.
    pub fn tokens(&self) -> usize
        ensures { result ≡ token_count (plain_of self.now) }
    {
        self.built.map.len()
    }

    /// The offset in the source from which a token of the plain program comes, by its number.
    pub fn source_of(&self, token: usize) -> Option<usize>
        ensures each { IsSome result ↔ token < token_count (plain_of self.now) }
        ensures inside { IfSome result (λ at. at ≤ source_length self.now) }
    {
        let origin = self.built.map.get(token)?;
        Some(origin.at.min(self.source))
    }

    /// The offset of a token in the plain program, by its number.
    pub fn offset_of(&self, token: usize) -> Option<usize>
        ensures { IsSome result ↔ token < token_count (plain_of self.now) }
    {
        let origin = self.built.map.get(token)?;
        Some(origin.start)
    }

    // The token at an offset of the plain program, or None at its end.
    fn origin(&self, offset: usize) -> Option<Origin> {
        if offset >= self.built.text.bytes.len() {
            return None;
        }
        origin_at(self.built.map.as_slice(), offset)
    }

    /// The offset in the source from which the byte at this offset of the plain program comes; at the end of the program the end of the
    /// source.
    pub fn place(&self, offset: usize) -> usize
        ensures { result ≤ source_length self.now }
    {
        match self.origin(offset) {
            Some(origin) => origin.at.min(self.source),
            None => self.source,
        }
    }

    /// The members in whose copy the byte at this offset of the plain program is, the outermost first.
    pub fn members(&self, alloc: Global, offset: usize) -> Result<Vec<MemberValue>, AllocError> {
        let copy = match self.origin(offset) {
            Some(origin) => origin.copy,
            None => 0,
        };
        let names = self.model.tables.members.as_slice();
        member_values(alloc, names, &[], self.built.copies.as_slice(), copy)
    }

    /// A fault of the plain program, at its place in the source.
    pub fn fault(&self, alloc: Global, found: &ProgFault) -> Result<Fault, AllocError>
        ensures { IfOk result (λ fault. offset_of fault ≤ source_length self.now) }
    {
        let members = self.members(alloc, found.at)?;
        Ok(Fault::new(Problem::Plain(found.kind), self.place(found.at), members))
    }

    /// The name of a process in the source, with its indices, as `server[3]`; None if the program has no such process.
    pub fn process_name(&self, alloc: Global, pid: Pid) -> Result<Option<Vec<u8>>, AllocError> {
        let Some(process) = self.built.processes.get(pid.0 as usize) else {
            return Ok(None);
        };
        match self.model.declarations.get(process.declaration) {
            Some(DeclarationNode::Process(declared)) => {
                let mut name = Vec::from_slice(alloc, declared.name.bytes())?;
                put_indices(&mut name, process.members.as_slice())?;
                Ok(Some(name))
            }
            _ => Ok(None),
        }
    }

    /// The name of a variable in the source, with its indices, as `vote[2]`; None if the program has no such variable.
    pub fn variable_name(&self, pid: Pid, variable: u32) -> Option<&[u8]> {
        let process = self.built.processes.get(pid.0 as usize)?;
        let variable = process.variables.get(variable as usize)?;
        Some(variable.name.as_slice())
    }

    /// The number of the type of a variable, if it has one.
    pub fn variable_type(&self, pid: Pid, variable: u32) -> Option<usize> {
        let process = self.built.processes.get(pid.0 as usize)?;
        process.variables.get(variable as usize)?.kind
    }

    /// The number of the type that all messages from one process to another have, if there is one.
    pub fn channel_type(&self, from: Pid, to: Pid) -> Option<usize> {
        let processes = self.built.processes.as_slice();
        let name = processes.get(to.0 as usize)?.name.as_slice();
        let sends = processes.get(from.0 as usize)?.sends.as_slice();
        let mut sent = sends.iter().filter(|sent| sent.target.as_slice() == name);
        let kind = sent.next()?.kind;
        if sent.all(|other| other.kind == kind) {
            kind
        } else {
            None
        }
    }

    /// The value of a constant of the model, by its number, if it is a number.
    pub fn constant(&self, number: usize) -> Option<i64> {
        match self.built.constants.get(number) {
            Some(Some(ConstantValue::Number(value))) => Some(*value),
            _ => None,
        }
    }

    /// The offset in the source at which a command begins, and its label with its indices, as `hear[2]`. The label is empty if it has none.
    pub fn command(&self, pid: Pid, choice: Choice) -> Option<(usize, &[u8])> {
        let process = self.built.processes.get(pid.0 as usize)?;
        let command = process.commands.get(choice.0 as usize)?;
        Some((command.at, command.label.as_slice()))
    }
}
