//! Laws of the output of a run, over the definitions alone.

ghost use Rattle.std.specs.Prelude.{◌≡◌, ℕ, List};
ghost use Rattle.dbg_base.specs.Shell.{parts_of, read_lines, Text};
ghost use Rattle.shell_serve.specs.Ample.{IsAmple};
ghost use Rattle.shell_serve.specs.Outputs.{TranscriptOutput};

/// An input has at most one output in which no call is refused as out of memory. So on a machine with enough memory, the input determines
/// the output of a run byte for byte.
pub fn one_output()
    ensures { (input out other : List ℕ) → Text input out → Text input other → IsAmple out → IsAmple other → out ≡ other }
{}

/// The output of a run is the replies to a transcript, which a reader can follow from the events and breakpoints alone: each reply to a
/// question shows what the replay of the events that remain shows, and each accepted command leaves the events that its reply says.
pub fn transcript_output()
    ensures { (input out : List ℕ) → Text input out → TranscriptOutput input (parts_of (read_lines input)) out }
{}
