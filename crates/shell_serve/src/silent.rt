//! A run has no observer: the replies are the only output.

ghost use Rattle.shell_serve.specs.Plain.{plain};

use crate::observer::{LineReply, LineSort, Observer};
use dbg_command::SessionView;
use shell_io::{GivenLine, Sink};
use shell_print::ServeFault;
use std::alloc::Global;

/// Writes nothing.
#[derive(Drop)]
pub(crate) struct Silent;

impl<N> Observer<N> for Silent {
    ghost manner = { plain };

    fn sort(&self, _line: &[u8]) -> LineSort {
        LineSort {
            is_directive: false,
            ends: false,
            needs_seat: false,
        }
    }

    fn before<W: Sink>(
        &mut self,
        _alloc: Global,
        _line: &GivenLine<'_, N>,
        _writer: &mut W,
    ) -> Result<(), ServeFault> {
        Ok(())
    }

    fn direct<W: Sink>(
        &mut self,
        _alloc: Global,
        _view: SessionView<'_>,
        _line: &[u8],
        _writer: &mut W,
    ) -> Result<(), ServeFault> {
        Ok(())
    }

    fn explain<W: Sink>(
        &mut self,
        _alloc: Global,
        _view: SessionView<'_>,
        _line: &GivenLine<'_, N>,
        _reply: LineReply<'_>,
        _writer: &mut W,
    ) -> Result<(), ServeFault> {
        Ok(())
    }
}
