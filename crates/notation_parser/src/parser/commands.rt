//! Commands, and commands in cases.

use super::ModelParser;
use dbg_base::{Name, Operator};
use notation_tree::fault::{Expanding, ExpansionStop, Expected, Problem};
use notation_tree::limits::NESTING;
use notation_tree::packing::joined;
use notation_tree::syntax::{
    ActionNode, AssignmentNode, CommandNode, Expression, ItemNode, Label, Link,
};
use notation_tree::token::{Mark, SourceTokenKind};

impl<'a> ModelParser<'a> {
    // An assignment.
    fn assignment(&mut self) -> Expanding<AssignmentNode> {
        if !self.is_name() {
            return Err(self.unexpected(Expected::Action));
        }
        let target = self.reference(NESTING)?;
        let (at, value) = self.assigned(self.type_of(&target))?;
        Ok(AssignmentNode { target, at, value })
    }

    // The value that is assigned to a variable of this type, and the offset of `:=` before it.
    fn assigned(&mut self, kind: Option<usize>) -> Expanding<(usize, Expression)> {
        let at = self.mark(Mark::Becomes)?;
        let value = self.expression()?;
        self.check_enum(kind, &value)?;
        Ok((at, value))
    }

    // A send or a receive, if there is one.
    fn action(&mut self) -> Expanding<ActionNode> {
        let at = self.at();
        if self.passes_word(b"send") {
            let target = self.reference(NESTING)?;
            let value = self.expression()?;
            return Ok(ActionNode::Send(at, target, value));
        }
        if self.passes_word(b"recv") {
            let source = self.reference(NESTING)?;
            let variable = self.reference(NESTING)?;
            return Ok(ActionNode::Receive(at, source, variable));
        }
        Ok(ActionNode::Local)
    }

    // The assignments of a command: after commas, and the first one too where there is an action before it.
    fn assignments(&mut self, action: &ActionNode) -> Expanding<Vec<AssignmentNode>> {
        let mut assignments = Vec::new(self.alloc);
        if matches!(action, ActionNode::Local) {
            assignments.push(self.assignment()?)?;
        }
        for _ in self.next..self.tokens.len() {
            if !self.passes_mark(Mark::Comma) {
                break;
            }
            assignments.push(self.assignment()?)?;
        }
        Ok(assignments)
    }

    // A guard, and the offset of the colon after it.
    fn guard(&mut self) -> Expanding<(Expression, usize)> {
        let guard = self.expression()?;
        let colon = self.mark(Mark::Colon)?;
        Ok((guard, colon))
    }

    // What a command does, and the offset of the `;` after it.
    fn effect(&mut self) -> Expanding<(ActionNode, Vec<AssignmentNode>, usize)> {
        let action = self.action()?;
        let (assignments, end) = self.ended_assignments(&action)?;
        Ok((action, assignments, end))
    }

    // The assignments of a command, and the offset of the `;` after them.
    fn ended_assignments(
        &mut self,
        action: &ActionNode,
    ) -> Expanding<(Vec<AssignmentNode>, usize)> {
        let assignments = self.assignments(action)?;
        let end = self.mark(Mark::Semicolon)?;
        Ok((assignments, end))
    }

    // The effect of a command, after its label, its guard and a colon.
    fn command(
        &mut self,
        label: Option<Label>,
        at: usize,
        guard: Expression,
        colon: usize,
    ) -> Expanding<CommandNode> {
        let (action, assignments, end) = self.effect()?;
        let sent = match &action {
            ActionNode::Send(_, _, value) => self.kind_of(value),
            ActionNode::Local | ActionNode::Receive(..) => None,
        };
        Ok(CommandNode {
            label,
            at,
            guard,
            colon,
            action,
            sent,
            assignments,
            end,
        })
    }

    // A label with its colon, if there is one before something else that is expected.
    fn label(&mut self, expected: Expected) -> Expanding<Option<Label>> {
        if self.is_word(b"when") || self.is_word(b"else") && expected == Expected::Case {
            return Ok(None);
        }
        if !self.is_name() || !self.has_mark_after(1, Mark::Colon) {
            return Err(self.unexpected(expected));
        }
        let name = self.name()?;
        self.mark(Mark::Colon)?;
        Ok(Some(Label {
            at: name.at,
            name: name.name,
        }))
    }

    // A command, or a command in cases, which may have a label.
    pub(super) fn commands(&mut self, items: &mut Vec<ItemNode>) -> Expanding<()> {
        let label = self.label(Expected::Item)?;
        let at = self.at();
        if !self.passes_word(b"when") {
            return Err(self.unexpected(Expected::When));
        }
        let (guard, colon) = self.guard()?;
        if self.passes_mark(Mark::OpenBrace) {
            return self.cases(guard, items);
        }
        items.push(ItemNode::Command(self.command(label, at, guard, colon)?))?;
        Ok(())
    }

    // A definition without arguments, put in at this offset.
    fn called(&self, definition: usize, at: usize) -> Expression {
        Expression::Call(at, definition, Vec::new(self.alloc))
    }

    // A guard that becomes a definition, so that several commands have it. The answer is its number.
    fn shared(&mut self, guard: Expression) -> Expanding<usize> {
        self.new_definition(guard, 0)
    }

    // The guard of a case: that of all cases, which is this definition, and its own, up to a colon.
    fn case_guard(&mut self, whole: usize, at: usize) -> Expanding<Expression> {
        let own = self.expression()?;
        let case = self.shared(own)?;
        let left = self.called(whole, at);
        joined(self.alloc, left, Operator::And, self.called(case, at), at)
    }

    // The guard of `else`: that of all cases, which is this definition, and that of no case since it.
    fn else_guard(&self, whole: usize, at: usize) -> Expanding<Expression> {
        let mut links = Vec::new(self.alloc);
        for case in whole.saturating_add(1)..self.tables.definitions.len() {
            let operand = Expression::Not(at, Box::new(self.alloc, self.called(case, at))?);
            links.push(Link {
                operator: Operator::And,
                at,
                operand,
            })?;
        }
        let first = self.called(whole, at);
        Ok(Expression::Chain(at, Box::new(self.alloc, first)?, links))
    }

    // Refuses a guard that names the variable that its case receives. The guard has the tokens of these numbers.
    fn check_received(&self, from: usize, to: usize, received: &Name) -> Expanding<()> {
        for number in from..to {
            let token = self.token_numbered(number);
            let is_word = matches!(token.kind, SourceTokenKind::Word);
            if is_word && self.bytes(token) == received.bytes() {
                let at = token.at.saturating_add(self.base);
                return Err(ExpansionStop::Bad(Problem::ReadsReceived, at));
            }
        }
        Ok(())
    }

    // A case, whose guard begins with this definition. After `else` no other case follows.
    fn case(&mut self, whole: usize) -> Expanding<CommandNode> {
        let label = self.label(Expected::Case)?;
        let at = self.at();
        let is_else = self.passes_word(b"else");
        if !is_else && !self.passes_word(b"when") {
            return Err(self.unexpected(Expected::Case));
        }
        let from = self.next;
        let guard = if is_else {
            self.else_guard(whole, at)?
        } else {
            self.case_guard(whole, at)?
        };
        let to = self.next;
        let colon = self.mark(Mark::Colon)?;
        let command = self.command(label, at, guard, colon)?;
        if let ActionNode::Receive(_, _, variable) = &command.action {
            self.check_received(from, to, &variable.name)?;
        }
        if is_else && !self.is_mark(Mark::CloseBrace) {
            return Err(ExpansionStop::Bad(Problem::CaseAfterElse, self.at()));
        }
        Ok(command)
    }

    // The cases of a command with this guard, up to a closing brace. Each becomes a command.
    fn cases(&mut self, guard: Expression, items: &mut Vec<ItemNode>) -> Expanding<()> {
        let whole = self.shared(guard)?;
        for _ in self.next..self.tokens.len() {
            items.push(ItemNode::Command(self.case(whole)?))?;
            if self.is_mark(Mark::CloseBrace) {
                break;
            }
        }
        self.mark(Mark::CloseBrace)?;
        Ok(())
    }
}
