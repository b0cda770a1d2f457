//! From command lines to plain lines.

ghost use Rattle.std.specs.Prelude.{◌≡◌, [], ◌∷◌, length, IfOk, IfErr};
ghost use Rattle.notation_tree.specs.Places.{IsInside};
ghost use Rattle.notation_meaning.specs.CommandLines.{StandsFor};
ghost use Rattle.notation_meaning.specs.LineViews.{lines_of};
ghost use Rattle.notation.specs.Lines.{played_in, IsExpanded};

use crate::divider::Divider;
use crate::rendering::Renderer;
use crate::session::{ExpandedProgram, disagreement};
use dbg_base::Name;
use dbg_base::limits::LINE_BYTES;
use notation_meaning::{CommandLine, stands_for};
use notation_programs::expansion::{failed, failed_in};
use notation_tree::fault::{Expanding, ExpansionStop, NotationError};
use notation_tree::lexer::tokens;
use notation_tree::limits::SESSION_STEPS;
use notation_tree::scope::ModelNames;
use notation_tree::token::SourceToken;
use std::alloc::{AllocError, Global};

/// Expands the command lines of a session, one after the other. The work for a line depends on the line and its plain lines alone, and on
/// steps, of which each line may take `STEPS` and all lines together `SESSION_STEPS`. The steps of a line are all that remains of it.
#[derive(Drop)]
pub struct LineExpander<'a> {
    alloc: Global,
    expanded: &'a ExpandedProgram,
    names: ModelNames,
    // What the last line was read as.
    tree: CommandLine,
    // How many steps are left.
    steps: u32,
    // The plain name of the process that a line named last before its fault.
    process: Option<Name>,
}

// This line alone.
fn only_line(alloc: Global, line: &[u8]) -> Result<Vec<Vec<u8>>, AllocError>
    ensures { IfOk result (λ lines. lines_of lines.items ≡ line.now ∷ []) }
{
    let mut lines = Vec::new(alloc);
    lines.push(Vec::from_slice(alloc, line)?)?;
    Ok(lines)
}

// A fault at its place in the line. What is in the model is shown at the piece that uses it.
fn placed(stop: ExpansionStop, base: usize, from: usize) -> ExpansionStop {
    match stop {
        ExpansionStop::Memory => ExpansionStop::Memory,
        ExpansionStop::Bad(problem, at) if at >= base => ExpansionStop::Bad(
            problem,
            at.saturating_sub(base),
        ),
        ExpansionStop::Bad(problem, _) => ExpansionStop::Bad(problem, from),
    }
}

impl<'a> LineExpander<'a> {
    /// Expands the lines of a session over this model.
    pub fn new(alloc: Global, expanded: &'a ExpandedProgram) -> Result<LineExpander<'a>, AllocError>
        ensures { IfOk result (λ expander. expander.expanded.now ≡ expanded.now) }
    {
        Ok(LineExpander {
            alloc,
            expanded,
            names: ModelNames::new(alloc, &expanded.expansion.model.tables)?,
            tree: CommandLine::new(alloc),
            steps: SESSION_STEPS,
            process: None,
        })
    }

    /// The plain name of the process that the last line with a fault named before it, if it named one.
    pub fn process(&self) -> Option<Name> {
        self.process
    }

    // Divides the line of these tokens.
    fn divider<'b>(&'b self, line: &'b [u8], tokens: &'b [SourceToken]) -> Divider<'b> {
        Divider::new(
            self.alloc,
            &self.expanded.expansion,
            &self.names,
            line,
            tokens,
        )
    }

    // What a line is read as.
    fn divided(&self, line: &[u8]) -> Expanding<CommandLine> {
        let tokens = tokens(self.alloc, line)?;
        self.divider(line, tokens.as_slice()).line(line.len())
    }

    /// How many bytes of a line are before its command, if ranges of a `for` are. 0 if none are, or one has a fault.
    pub fn head(&self, line: &[u8]) -> Result<usize, AllocError> {
        let tokens = tokens(self.alloc, line)?;
        match self.divider(line, tokens.as_slice()).head() {
            Ok(head) => Ok(head),
            Err(ExpansionStop::Bad(_, _)) => Ok(0),
            Err(ExpansionStop::Memory) => Err(AllocError),
        }
    }

    // Renders the plain lines of a line. No fault is past its end.
    fn render(&mut self, line: &[u8], tree: &CommandLine) -> Result<Vec<Vec<u8>>, NotationError>
        ensures inside { IfErr result (IsInside (length line.now)) }
        ensures same { self.new.expanded ≡ self.old.expanded }
    {
        let expansion = &self.expanded.expansion;
        let mut renderer = Renderer::new(self.alloc, expansion, line, tree);
        renderer.writer.environment.session_steps = self.steps;
        let rendered = renderer.render();
        self.steps = renderer.writer.environment.session_steps;
        match rendered {
            Ok(()) => Ok(renderer.lines),
            Err(stop) => {
                self.process = Name::new(renderer.process.as_slice());
                let stop = placed(stop, expansion.source, renderer.from);
                Err(failed_in(&renderer.writer.environment, stop, line.len()))
            }
        }
    }

    // The plain lines that a line stands for. No fault is past its end.
    fn written(&mut self, line: &[u8], tree: &CommandLine) -> Result<Vec<Vec<u8>>, NotationError>
        ensures stands { IfOk result (λ lines. StandsFor (played_in self.new.expanded.now) line.now tree.now (lines_of lines.items)) }
        ensures inside { IfErr result (IsInside (length line.now)) }
        ensures same { self.new.expanded ≡ self.old.expanded }
    {
        let lines = self.render(line, tree)?;
        let played = self.expanded.played(self.alloc);
        if stands_for(&played, line, tree, lines.as_slice())? {
            Ok(lines)
        } else {
            Err(disagreement(self.alloc))
        }
    }

    // Reads a line, and writes the plain lines that it stands for. No fault is past its end.
    fn expand_short(&mut self, line: &[u8]) -> Result<Vec<Vec<u8>>, NotationError>
        ensures stands { IfOk result (λ lines. StandsFor (played_in self.new.expanded.now) line.now self.new.tree (lines_of lines.items)) }
        ensures inside { IfErr result (IsInside (length line.now)) }
        ensures same { self.new.expanded ≡ self.old.expanded }
    {
        match self.divided(line) {
            Ok(tree) => {
                let lines = self.written(line, &tree);
                self.tree = tree;
                lines
            }
            Err(stop) => {
                let stop = placed(stop, self.expanded.expansion.source, 0);
                Err(failed(stop, Vec::new(self.alloc), line.len()))
            }
        }
    }

    /// The plain lines that a command line without a comment stands for. A line that has nothing of the notation stays as it is, and so does
    /// one that is too long.
    pub fn expand(&mut self, line: &[u8]) -> Result<Vec<Vec<u8>>, NotationError>
        // They are what its tree means, over the model, its processes and the plain program.
        ensures stands { IfOk result (λ lines. IsExpanded (played_in self.new.expanded.now) line.now self.new.tree (lines_of lines.items)) }
        ensures inside { IfErr result (IsInside (length line.now)) }
        ensures same { self.new.expanded ≡ self.old.expanded }
    {
        if line.len() <= LINE_BYTES {
            return self.expand_short(line);
        }
        Ok(only_line(self.alloc, line)?)
    }
}
