//! The productions of the grammar: expressions, variables, commands, processes and programs.

ghost use Rattle.std.specs.Prelude.{◌<◌, ◌≤◌, [], map, length, codes, OnOk};
ghost use Rattle.proc_lang.specs.Scanning.{placed_of};
ghost use Rattle.proc_lang.specs.Writing.{phrase_of, variable_of, action_of, assignment_of, command_of, process_of};
ghost use Rattle.proc_lang.specs.Parsing.{is_word_token, read_expression, read_count, read_parentheses, read_not, read_negate};
ghost use Rattle.proc_lang.specs.Parsing.{read_binary, read_start, read_variable, read_variables, read_assignment, read_further, read_many};
ghost use Rattle.proc_lang.specs.Parsing.{read_all_further, read_send, read_receive, read_local, read_body, read_command, read_commands};
ghost use Rattle.proc_lang.specs.Parsing.{read_process, read_processes, read_program, read_predicate};
ghost use Rattle.proc_lang.specs.Reading.{Gives};

use super::{Parser, Stop};
use crate::syntax::{
    Phrase, WrittenAction, WrittenAssignment, WrittenCommand, WrittenProcess, WrittenVariable,
};
use crate::token::Placed;
use dbg_base::Sign;
use std::alloc::Global;

impl Parser<'_> {
    // An initial value: a number, perhaps with a minus before it.
    #[tactic(auto, unfolding(crate::specs::Parsing::read_negative, crate::specs::Parsing::read_positive))]
    fn start_value(&mut self) -> Result<i64, Stop>
        ensures shorter { OnOk result (length self.new.rest.now < length self.old.rest.now) }
        ensures read { Gives (λ z. z) result (map placed_of self.new.rest.now)
            (read_start (map placed_of self.old.rest.now)) }
    {
        if self.is_at_sign(Sign::Minus) {
            self.sign(Sign::Minus)?;
            let number = self.number()?;
            return Ok(-(number.value as i64));
        }
        let number = self.number()?;
        Ok(number.value as i64)
    }

    #[tactic(auto, unfolding(crate::specs::Parsing::read_variable))]
    fn variable(&mut self) -> Result<WrittenVariable, Stop>
        ensures shorter { OnOk result (length self.new.rest.now < length self.old.rest.now) }
        ensures read { Gives variable_of result (map placed_of self.new.rest.now)
            (read_variable (map placed_of self.old.rest.now)) }
    {
        self.word(b"var")?;
        let name = self.name()?;
        self.sign(Sign::Equals)?;
        let start = self.start_value()?;
        self.sign(Sign::Semicolon)?;
        Ok(WrittenVariable { name, start })
    }

    // A count of messages: its word, and the name of a process in parentheses.
    #[tactic(auto, unfolding(crate::specs::Parsing::read_count))]
    fn count(&mut self) -> Result<Phrase, Stop>
        ensures shorter { OnOk result (length self.new.rest.now < length self.old.rest.now) }
        ensures read { Gives phrase_of result (map placed_of self.new.rest.now)
            (read_count (map placed_of self.old.rest.now)) }
    {
        let (at, direction) = self.direction()?;
        self.sign(Sign::OpenParenthesis)?;
        let other = self.name()?;
        self.sign(Sign::CloseParenthesis)?;
        Ok(Phrase::Count(at, direction, other))
    }

    #[cycle(expressions)]
    #[tactic(auto, using(crate::proofs::Phrases::expression_parts))]
    fn expression(&mut self) -> Result<Phrase, Stop>
        ensures shorter { OnOk result (length self.new.rest.now < length self.old.rest.now) }
        ensures read { Gives phrase_of result (map placed_of self.new.rest.now)
            (read_expression (map placed_of self.old.rest.now)) }
    {
        if self.is_at_sign(Sign::OpenParenthesis) {
            return self.parentheses();
        }
        if self.is_at_count() {
            return self.count();
        }
        self.operand()
    }

    // An expression in parentheses.
    #[cycle(expressions)]
    #[tactic(auto, unfolding(crate::specs::Parsing::read_parentheses))]
    fn parentheses(&mut self) -> Result<Phrase, Stop>
        ensures shorter { OnOk result (length self.new.rest.now < length self.old.rest.now) }
        ensures read { Gives phrase_of result (map placed_of self.new.rest.now)
            (read_parentheses read_expression (map placed_of self.old.rest.now)) }
    {
        let at = self.sign(Sign::OpenParenthesis)?;
        if self.is_at_word(b"not") {
            return self.negation(at);
        }
        if self.is_at_sign(Sign::Minus) {
            return self.negative(at);
        }
        self.binary(at)
    }

    // `not`, its operand, and the closing parenthesis, after the parenthesis that opened at this offset.
    #[cycle(expressions)]
    #[tactic(auto, unfolding(crate::specs::Parsing::read_not))]
    fn negation(&mut self, at: usize) -> Result<Phrase, Stop>
        ensures shorter { OnOk result (length self.new.rest.now < length self.old.rest.now) }
        ensures read { Gives phrase_of result (map placed_of self.new.rest.now)
            (read_not read_expression at (map placed_of self.old.rest.now)) }
    {
        self.word(b"not")?;
        let operand = self.expression()?;
        self.sign(Sign::CloseParenthesis)?;
        Ok(Phrase::Not(at, Box::new(self.alloc, operand)?))
    }

    // A minus, its operand, and the closing parenthesis.
    #[cycle(expressions)]
    #[tactic(auto, unfolding(crate::specs::Parsing::read_negate))]
    fn negative(&mut self, at: usize) -> Result<Phrase, Stop>
        ensures shorter { OnOk result (length self.new.rest.now < length self.old.rest.now) }
        ensures read { Gives phrase_of result (map placed_of self.new.rest.now)
            (read_negate read_expression at (map placed_of self.old.rest.now)) }
    {
        self.sign(Sign::Minus)?;
        let operand = self.expression()?;
        self.sign(Sign::CloseParenthesis)?;
        Ok(Phrase::Negate(at, Box::new(self.alloc, operand)?))
    }

    // Two operands with the operator between them, and the closing parenthesis.
    #[cycle(expressions)]
    #[tactic(auto, unfolding(crate::specs::Parsing::read_binary))]
    fn binary(&mut self, at: usize) -> Result<Phrase, Stop>
        ensures shorter { OnOk result (length self.new.rest.now < length self.old.rest.now) }
        ensures read { Gives phrase_of result (map placed_of self.new.rest.now)
            (read_binary read_expression at (map placed_of self.old.rest.now)) }
    {
        let left = self.expression()?;
        let operator = self.operator()?;
        let right = self.expression()?;
        self.sign(Sign::CloseParenthesis)?;
        let left = Box::new(self.alloc, left)?;
        let right = Box::new(self.alloc, right)?;
        Ok(Phrase::Binary(at, operator, left, right))
    }

    #[tactic(auto, unfolding(crate::specs::Parsing::read_assignment))]
    fn assignment(&mut self) -> Result<WrittenAssignment, Stop>
        ensures shorter { OnOk result (length self.new.rest.now < length self.old.rest.now) }
        ensures read { Gives assignment_of result (map placed_of self.new.rest.now)
            (read_assignment (map placed_of self.old.rest.now)) }
    {
        let variable = self.name()?;
        self.sign(Sign::Becomes)?;
        let value = self.expression()?;
        Ok(WrittenAssignment { variable, value })
    }

    // An assignment after a comma.
    #[tactic(auto, unfolding(crate::specs::Parsing::read_further))]
    fn further(&mut self) -> Result<WrittenAssignment, Stop>
        ensures shorter { OnOk result (length self.new.rest.now < length self.old.rest.now) }
        ensures read { Gives assignment_of result (map placed_of self.new.rest.now)
            (read_further (map placed_of self.old.rest.now)) }
    {
        self.sign(Sign::Comma)?;
        self.assignment()
    }

    // All variables that follow.
    fn variables(&mut self) -> Result<Vec<WrittenVariable>, Stop>
        ensures shorter { OnOk result (length self.new.rest.now ≤ length self.old.rest.now) }
        ensures read { Gives (λ v. map variable_of v.items) result (map placed_of self.new.rest.now)
            (read_variables (map placed_of self.old.rest.now)) }
    {
        let mut variables = Vec::new(self.alloc);
        while self.is_at_word(b"var") {
            let variable = self.variable()?;
            variables.push(variable)?;
        }
        Ok(variables)
    }

    // All assignments that follow, each after a comma.
    fn all_further(&mut self) -> Result<Vec<WrittenAssignment>, Stop>
        ensures shorter { OnOk result (length self.new.rest.now ≤ length self.old.rest.now) }
        ensures read { Gives (λ v. map assignment_of v.items) result (map placed_of self.new.rest.now)
            (read_all_further (map placed_of self.old.rest.now)) }
    {
        let mut assignments = Vec::new(self.alloc);
        while self.is_at_sign(Sign::Comma) {
            let assignment = self.further()?;
            assignments.push(assignment)?;
        }
        Ok(assignments)
    }

    #[tactic(auto, unfolding(crate::specs::Parsing::read_send))]
    fn send(&mut self) -> Result<(WrittenAction, Vec<WrittenAssignment>), Stop>
        ensures shorter { OnOk result (length self.new.rest.now < length self.old.rest.now) }
        ensures read { Gives (λ body. (action_of body.0, map assignment_of body.1.items)) result (map placed_of self.new.rest.now)
            (read_send (map placed_of self.old.rest.now)) }
    {
        self.word(b"send")?;
        let target = self.name()?;
        let value = self.expression()?;
        let others = self.all_further()?;
        Ok((WrittenAction::Send(target, value), others))
    }

    #[tactic(auto, unfolding(crate::specs::Parsing::read_receive))]
    fn receive(&mut self) -> Result<(WrittenAction, Vec<WrittenAssignment>), Stop>
        ensures shorter { OnOk result (length self.new.rest.now < length self.old.rest.now) }
        ensures read { Gives (λ body. (action_of body.0, map assignment_of body.1.items)) result (map placed_of self.new.rest.now)
            (read_receive (map placed_of self.old.rest.now)) }
    {
        self.word(b"recv")?;
        let source = self.name()?;
        let variable = self.name()?;
        let others = self.all_further()?;
        Ok((WrittenAction::Receive(source, variable), others))
    }

    // Assignments alone, the first without a comma.
    #[tactic(auto, unfolding(crate::specs::Parsing::read_local))]
    fn local(&mut self) -> Result<(WrittenAction, Vec<WrittenAssignment>), Stop>
        ensures shorter { OnOk result (length self.new.rest.now < length self.old.rest.now) }
        ensures read { Gives (λ body. (action_of body.0, map assignment_of body.1.items)) result (map placed_of self.new.rest.now)
            (read_local (map placed_of self.old.rest.now)) }
    {
        let first = self.assignment()?;
        let mut assignments = self.all_further()?;
        assignments.insert(0, first)?;
        Ok((WrittenAction::Local, assignments))
    }

    fn body(&mut self) -> Result<(WrittenAction, Vec<WrittenAssignment>), Stop>
        ensures shorter { OnOk result (length self.new.rest.now < length self.old.rest.now) }
        ensures read { Gives (λ body. (action_of body.0, map assignment_of body.1.items)) result (map placed_of self.new.rest.now)
            (read_body (map placed_of self.old.rest.now)) }
    {
        if self.is_at_word(b"send") {
            return self.send();
        }
        if self.is_at_word(b"recv") {
            return self.receive();
        }
        self.local()
    }

    #[tactic(auto, unfolding(crate::specs::Parsing::read_command))]
    fn command(&mut self) -> Result<WrittenCommand, Stop>
        ensures shorter { OnOk result (length self.new.rest.now < length self.old.rest.now) }
        ensures read { Gives command_of result (map placed_of self.new.rest.now)
            (read_command (map placed_of self.old.rest.now)) }
    {
        let at = self.word(b"when")?;
        let guard = self.expression()?;
        self.sign(Sign::Colon)?;
        let (action, assignments) = self.body()?;
        self.sign(Sign::Semicolon)?;
        Ok(WrittenCommand {
            at,
            guard,
            action,
            assignments,
        })
    }

    // All commands that follow.
    fn commands(&mut self) -> Result<Vec<WrittenCommand>, Stop>
        ensures shorter { OnOk result (length self.new.rest.now ≤ length self.old.rest.now) }
        ensures read { Gives (λ v. map command_of v.items) result (map placed_of self.new.rest.now)
            (read_commands (map placed_of self.old.rest.now)) }
    {
        let mut commands = Vec::new(self.alloc);
        while self.is_at_word(b"when") {
            let command = self.command()?;
            commands.push(command)?;
        }
        Ok(commands)
    }

    #[tactic(auto, unfolding(crate::specs::Parsing::read_process))]
    fn process(&mut self) -> Result<WrittenProcess, Stop>
        ensures shorter { OnOk result (length self.new.rest.now < length self.old.rest.now) }
        ensures read { Gives process_of result (map placed_of self.new.rest.now)
            (read_process (map placed_of self.old.rest.now)) }
    {
        self.word(b"process")?;
        let name = self.name()?;
        self.sign(Sign::OpenBrace)?;
        let variables = self.variables()?;
        let commands = self.commands()?;
        self.sign(Sign::CloseBrace)?;
        Ok(WrittenProcess {
            name,
            variables,
            commands,
        })
    }

    // All processes that follow.
    fn further_processes(&mut self) -> Result<Vec<WrittenProcess>, Stop>
        ensures shorter { OnOk result (length self.new.rest.now ≤ length self.old.rest.now) }
        ensures read { Gives (λ v. map process_of v.items) result (map placed_of self.new.rest.now)
            (read_many (is_word_token (codes "process")) read_process (map placed_of self.old.rest.now)) }
    {
        let mut processes = Vec::new(self.alloc);
        while self.is_at_word(b"process") {
            let process = self.process()?;
            processes.push(process)?;
        }
        Ok(processes)
    }

    // At least one process.
    #[tactic(auto, unfolding(crate::specs::Parsing::read_several))]
    fn processes(&mut self) -> Result<Vec<WrittenProcess>, Stop>
        ensures { Gives (λ v. map process_of v.items) result (map placed_of self.new.rest.now)
            (read_processes (map placed_of self.old.rest.now)) }
    {
        let first = self.process()?;
        let mut processes = self.further_processes()?;
        processes.insert(0, first)?;
        Ok(processes)
    }
}

/// The processes that all of these tokens derive.
#[tactic(auto, unfolding(crate::specs::Parsing::read_whole))]
pub(crate) fn program(alloc: Global, tokens: &[Placed]) -> Result<Vec<WrittenProcess>, Stop>
    ensures { Gives (λ v. map process_of v.items) result [] (read_program (map placed_of tokens.now)) }
{
    let mut parser = Parser {
        alloc,
        rest: tokens,
    };
    let processes = parser.processes()?;
    parser.end()?;
    Ok(processes)
}

/// The expression that all of these tokens derive.
#[tactic(auto, unfolding(crate::specs::Parsing::read_whole))]
pub(crate) fn predicate(alloc: Global, tokens: &[Placed]) -> Result<Phrase, Stop>
    ensures { Gives phrase_of result [] (read_predicate (map placed_of tokens.now)) }
{
    let mut parser = Parser {
        alloc,
        rest: tokens,
    };
    let expression = parser.expression()?;
    parser.end()?;
    Ok(expression)
}
