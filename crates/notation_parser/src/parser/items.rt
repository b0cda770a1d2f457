//! Declarations and items.

use super::{Level, ModelParser};
use notation_tree::fault::{Expanding, ExpansionStop, Expected, Problem};
use notation_tree::limits::{NESTING, PARAMETERS, REPEATS};
use notation_tree::model::ParsedModel;
use notation_tree::scope::{Binding, ModelScope};
use notation_tree::syntax::{
    Binder, Constant, DeclarationNode, Definition, Expression, ItemNode, ProcessNode, VariableNode,
};
use notation_tree::token::{Mark, SourceToken};
use notation_tree::words::is_form;
use std::alloc::Global;

// Items in braces, with the offsets of these.
#[derive(Drop)]
struct Block {
    open: usize,
    items: Vec<ItemNode>,
    close: usize,
}

impl<'a> ModelParser<'a> {
    // An expression after `=`, up to a `;`.
    fn value(&mut self) -> Expanding<Expression> {
        self.mark(Mark::Equals)?;
        self.closed(Level::Or, NESTING, Mark::Semicolon)
    }

    // `const`, a name and its value.
    fn constant(&mut self) -> Expanding<Constant> {
        self.pass();
        let name = self.name()?;
        let value = self.value()?;
        let number = self.tables.constants;
        self.tables.constants = number.saturating_add(1);
        self.declare(&name, Binding::Constant(number))?;
        Ok(Constant {
            number,
            value,
            is_width: false,
        })
    }

    // The parameters of a definition, in parentheses, if it has any. The answer is how many there are.
    fn parameters(&mut self) -> Expanding<usize> {
        if !self.passes_mark(Mark::OpenParenthesis) {
            return Ok(0);
        }
        for count in 1..=PARAMETERS {
            let name = self.name()?;
            let number = self.tables.parameters;
            self.tables.parameters = number.saturating_add(1);
            self.declare(&name, Binding::Parameter(number))?;
            if !self.passes_mark(Mark::Comma) {
                self.mark(Mark::CloseParenthesis)?;
                return Ok(count);
            }
        }
        Err(ExpansionStop::Bad(Problem::ManyParameters, self.at()))
    }

    // `let`, a name, its parameters and its expression.
    fn definition(&mut self) -> Expanding<()> {
        self.pass();
        let name = self.name()?;
        if is_form(name.name.bytes()) {
            return Err(ExpansionStop::Bad(Problem::FormName, name.at));
        }
        let mark = self.scope.mark();
        let first = self.tables.parameters;
        let count = self.parameters()?;
        let body = self.value()?;
        self.scope.leave(mark);
        let number = self.tables.definitions.len();
        self.tables
            .definitions
            .push(Definition { first, count, body })?;
        self.declare(&name, Binding::Definition(number, count))
    }

    // The ranges of a family, each in brackets.
    fn ranges(&mut self) -> Expanding<Vec<Binder>> {
        let mut ranges = Vec::new(self.alloc);
        for _ in self.next..self.tokens.len() {
            if !self.passes_mark(Mark::OpenBracket) {
                break;
            }
            ranges.push(self.closed_range()?)?;
        }
        Ok(ranges)
    }

    // A member and its range, up to a closing bracket.
    fn closed_range(&mut self) -> Expanding<Binder> {
        let binder = self.ranged(NESTING)?;
        self.mark(Mark::CloseBracket)?;
        Ok(binder)
    }

    // The type and the value of a variable.
    fn kind_and_value(&mut self) -> Expanding<(Option<usize>, Expression)> {
        let kind = self.kind()?;
        let value = self.value()?;
        self.check_enum(kind, &value)?;
        Ok((kind, value))
    }

    // The ranges, the type and the value of a variable.
    fn ranges_and_value(&mut self) -> Expanding<(Vec<Binder>, Option<usize>, Expression)> {
        let ranges = self.ranges()?;
        let (kind, value) = self.kind_and_value()?;
        Ok((ranges, kind, value))
    }

    // A variable, or a family of variables.
    fn variable(&mut self) -> Expanding<VariableNode> {
        let at = self.at();
        self.pass();
        let name = self.name()?;
        let mark = self.scope.mark();
        self.repeats = self.repeats.saturating_add(1);
        let (ranges, kind, value) = self.ranges_and_value()?;
        self.repeats = self.repeats.saturating_sub(1);
        self.scope.leave(mark);
        let variable = VariableNode {
            at,
            name_at: name.at,
            name: name.name,
            ranges,
            kind,
            value,
        };
        self.declare(&name, Binding::Variable(kind))?;
        Ok(variable)
    }

    // `for`, its member and its items, where so many `for` may still be open.
    #[cycle(items)]
    fn repeat(&mut self, depth: u32) -> Expanding<ItemNode> {
        if depth == 0 {
            return Err(ExpansionStop::Bad(Problem::DeepNesting, self.at()));
        }
        self.pass();
        let mark = self.scope.mark();
        self.repeats = self.repeats.saturating_add(1);
        let binder = self.binder(NESTING)?;
        let Block { items, .. } = self.block(depth - 1)?;
        self.repeats = self.repeats.saturating_sub(1);
        self.scope.leave(mark);
        Ok(ItemNode::Repeat(binder, items))
    }

    // Items in braces.
    #[cycle(items)]
    fn block(&mut self, depth: u32) -> Expanding<Block> {
        let open = self.mark(Mark::OpenBrace)?;
        let items = self.items(depth)?;
        let close = self.mark(Mark::CloseBrace)?;
        Ok(Block { open, items, close })
    }

    // An item, which is appended to those before it.
    #[cycle(items)]
    fn item(&mut self, items: &mut Vec<ItemNode>, depth: u32) -> Expanding<()> {
        if self.is_word(b"let") {
            return self.definition();
        }
        if self.is_word(b"const") {
            items.push(ItemNode::Constant(self.constant()?))?;
            return Ok(());
        }
        if self.is_word(b"var") {
            items.push(ItemNode::Variable(self.variable()?))?;
            return Ok(());
        }
        if self.is_word(b"for") {
            items.push(self.repeat(depth)?)?;
            return Ok(());
        }
        self.commands(items)
    }

    // All items up to a `}`.
    #[cycle(items)]
    fn items(&mut self, depth: u32) -> Expanding<Vec<ItemNode>> {
        let mut items = Vec::new(self.alloc);
        for _ in self.next..self.tokens.len() {
            if self.is_mark(Mark::CloseBrace) {
                break;
            }
            self.item(&mut items, depth)?;
        }
        Ok(items)
    }

    // A process, or a family of processes.
    fn process(&mut self, number: usize) -> Expanding<ProcessNode> {
        let at = self.at();
        self.pass();
        let name = self.name()?;
        let mark = self.scope.mark();
        self.declaration = Some(number);
        let first_constant = self.tables.constants;
        let ranges = self.ranges()?;
        let Block { open, items, close } = self.block(REPEATS)?;
        self.declaration = None;
        self.scope.leave(mark);
        Ok(ProcessNode {
            at,
            name_at: name.at,
            name: name.name,
            ranges,
            first_constant,
            constants: self.tables.constants.saturating_sub(first_constant),
            open,
            items,
            close,
        })
    }

    // A declaration, whose constants and process are appended to those before it.
    fn declaration(&mut self, declarations: &mut Vec<DeclarationNode>) -> Expanding<()> {
        if self.is_word(b"let") {
            return self.definition();
        }
        if self.is_word(b"enum") {
            return self.enumeration(declarations);
        }
        if self.is_word(b"message") {
            return self.message(declarations);
        }
        if self.is_word(b"const") {
            declarations.push(DeclarationNode::Constant(self.constant()?))?;
            return Ok(());
        }
        if self.is_word(b"process") {
            let process = self.process(declarations.len())?;
            declarations.push(DeclarationNode::Process(process))?;
            return Ok(());
        }
        Err(self.unexpected(Expected::Declaration))
    }

    // All declarations.
    fn declarations(&mut self) -> Expanding<Vec<DeclarationNode>> {
        let mut declarations = Vec::new(self.alloc);
        for _ in self.next..self.tokens.len() {
            if self.is_at_end() {
                break;
            }
            self.declaration(&mut declarations)?;
        }
        Ok(declarations)
    }
}

/// The model that these tokens of the text write.
pub fn model<'a>(
    alloc: Global,
    text: &'a [u8],
    tokens: &'a [SourceToken],
) -> Expanding<ParsedModel> {
    let scope = ModelScope::new(alloc, None);
    let mut parser = ModelParser::new(alloc, text, tokens, scope, 0, 0);
    let declarations = parser.declarations()?;
    let ModelParser { tables, .. } = parser;
    Ok(ParsedModel {
        declarations,
        tables,
    })
}
