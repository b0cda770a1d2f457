//! Splits bytes into lines.

ghost use Rattle.std.specs.Prelude.{◌≡◌, ◌+◌, ◌<◌, ◌≤◌, [], true, false, min, take, vec_len, vec_capacity, length, slice_range, OnOk};
ghost use Rattle.std.specs.Prelude.{OnErr, MatchOption, IfOk, IfErr, IfSome, ◌⊎◌};
ghost use Rattle.std.specs.List.{prefix_len};
ghost use Rattle.shell_serve.specs.Spans.{AdvancesAt, is_inside, is_unended, TellsAny, EndsWith, ReadsOn, ReadsOnce, ReadsAsNeeded};
ghost use Rattle.shell_serve.specs.Spans.{IsUnderWay};
ghost use Rattle.shell_serve.specs.declared.framing.TheConstants.{ROOM};
ghost use Rattle.shell_serve.specs.declared.framing.Next.TheVariants.{End};
ghost use Rattle.shell_io.specs.declared.health.Health.TheVariants.{Fine};
ghost use Rattle.shell_print.specs.Outcomes.{source_after};
ghost use Rattle.shell_print.specs.declared.outcome.ServeFault.TheVariants.{Read};
ghost use Rattle.dbg_base.specs.declared.limits.TheConstants.{INPUT_BYTES};

use dbg_base::limits::INPUT_BYTES;
use shell_io::Source;
use shell_print::ServeFault;
use std::alloc::{AllocError, Global};

// At most one byte more than the limit is ever read: it shows that the input is too long.
const ROOM: usize = 1_048_577;

const _: () = prove!(ROOM == INPUT_BYTES + 1);

// At most this many bytes are requested at once. Each read clears so many, also if the reader gives one line at a time.
const CHUNK: usize = 512;

/// The position of a line in the bytes that were read: the offset of its first byte, and the offset after its last.
#[derive(Clone, Copy, PartialEq, Eq)]
pub struct Span {
    /// The offset of its first byte.
    pub from: usize,
    /// The offset after its last byte, which is not a line end.
    pub to: usize,
}

/// What comes next in the input.
#[derive(Clone, Copy, PartialEq, Eq)]
pub enum Next {
    /// A line, without its line end.
    Line(Span),
    /// The input's end.
    End,
    /// No further line ends within the limit, and there are more bytes.
    TooLong,
}

/// All bytes that were read so far, and how far they were searched.
#[derive(Drop)]
pub struct Input {
    /// The bytes that were read.
    pub bytes: Vec<u8>,
    /// The offset at which the next line begins.
    pub at: usize,
    // There is no line end between `at` and here.
    seen: usize,
    /// Whether the reader has reached its end.
    pub ended: bool,
    ghost room: { ROOM ≤ vec_capacity bytes },
    ghost few: { vec_len bytes ≤ ROOM },
    ghost begun: { at ≤ seen },
    ghost read: { seen ≤ vec_len bytes },
    ghost within: { seen ≤ INPUT_BYTES },
    ghost unended: { is_unended (slice_range bytes.items at seen) ≡ true },
}

// The number of bytes at the beginning that are not line ends.
fn length_inside(bytes: &[u8]) -> usize
    ensures { result ≡ prefix_len is_inside bytes.now }
{
    for (i, b) in bytes.iter().enumerate() {
        if *b == b'\n' {
            return i;
        }
    }
    bytes.len()
}

impl Input {
    /// Allocates the memory for the largest input. Nothing after it allocates.
    pub fn new(alloc: Global) -> Result<Input, AllocError>
        ensures bytes { IfOk result (λ input. input.bytes.items ≡ []) }
        ensures at { IfOk result (λ input. input.at ≡ 0) }
        ensures ended { IfOk result (λ input. input.ended ≡ false) }
    {
        Ok(Input {
            bytes: Vec::with_capacity(alloc, ROOM)?,
            at: 0,
            seen: 0,
            ended: false,
        })
    }

    /// The bytes of a line.
    pub fn line(&self, span: Span) -> &[u8]
        ensures { span.from ≤ span.to → span.to ≤ length self.now.bytes.items → result.now ≡ slice_range self.now.bytes.items span.from
            span.to }
    {
        self.bytes.get(span.from..span.to).unwrap_or(&[])
    }

    /// All bytes before a line.
    pub(crate) fn before(&self, span: Span) -> &[u8]
        ensures { span.from ≤ length self.now.bytes.items → result.now ≡ take span.from self.now.bytes.items }
    {
        self.bytes.get(..span.from).unwrap_or(&[])
    }

    /// All bytes that were read.
    pub fn bytes(&self) -> &[u8]
        ensures { result.now ≡ self.now.bytes.items }
    {
        self.bytes.as_slice()
    }

    /// The next line, or why there is none. It reads only if no whole line was read yet, so each line can be answered before the next one
    /// is read. Error: `Read`, if the reader fails; the reader is not called again.
    pub fn next_line<R: Source>(&mut self, reader: &mut R) -> Result<Next, ServeFault>
        requires { EndsWith self.old.ended (R.remaining reader.old) }
        ensures advances { IfOk result (AdvancesAt self.old.at self.new.at) }
        ensures reads { ReadsOn self.old.bytes.items self.old.ended (R.remaining reader.old) self.new.bytes.items self.new.ended
            (R.remaining reader.new) }
        ensures stopped { IfOk result (λ next. next ≡ End → self.new.ended ≡ true) }
        ensures tells { IfOk result (TellsAny self.new.bytes.items self.new.ended self.old.at self.new.at) }
        ensures fault { IfErr result (λ fault. fault ≡ Read) }
        ensures reader { R.health reader.old ≡ Fine → R.health reader.new ≡ source_after result }
        ensures under_way { OnErr result (IsUnderWay self.new.bytes.items self.new.ended self.old.at) }
        ensures needed { ReadsAsNeeded self.old.bytes.items self.old.ended self.new.bytes.items self.old.at }
    {
        loop {
            if let Some(next) = self.ready() {
                return Ok(next);
            }
            self.read_more(reader)?;
        }
    }

    // What comes next, or None if the bytes that were read do not decide it.
    fn ready(&mut self) -> Option<Next>
        ensures advances { MatchOption result (self.new.at ≡ self.old.at) (AdvancesAt self.old.at self.new.at) }
        ensures bytes { self.new.bytes ≡ self.old.bytes }
        ensures ended { self.new.ended ≡ self.old.ended }
        ensures more { MatchOption result ((self.new.ended ≡ false) × (vec_len self.new.bytes < ROOM)) (λ _. Unit {0}) }
        ensures under_way { MatchOption result (IsUnderWay self.new.bytes.items self.new.ended self.new.at) (λ _. Unit {0}) }
        ensures stopped { IfSome result (λ next. next ≡ End → self.new.ended ≡ true) }
        ensures tells { IfSome result (TellsAny self.new.bytes.items self.old.ended self.old.at self.new.at) }
    {
        let limit = self.bytes.len().min(INPUT_BYTES);
        let end = self.seen + length_inside(&self.bytes[self.seen..limit]);
        if end < limit {
            return Some(Next::Line(self.take_line(end, end + 1)));
        }
        self.seen = limit;
        self.without_line_end()
    }

    // The line from `at` up to `end`; the next one begins at `next`.
    fn take_line(&mut self, end: usize, next: usize) -> Span
        requires read { next ≤ vec_len self.old.bytes }
        requires within { next ≤ INPUT_BYTES }
        ensures bytes { self.new.bytes ≡ self.old.bytes }
        ensures ended { self.new.ended ≡ self.old.ended }
        ensures at { self.new.at ≡ next }
        ensures from { result.from ≡ self.old.at }
        ensures to { result.to ≡ end }
    {
        let span = Span {
            from: self.at,
            to: end,
        };
        self.at = next;
        self.seen = next;
        span
    }

    // What comes next if no line end is left within the limit.
    fn without_line_end(&mut self) -> Option<Next>
        requires { self.old.seen ≡ min (vec_len self.old.bytes) INPUT_BYTES }
        ensures advances { MatchOption result (self.new.at ≡ self.old.at) (AdvancesAt self.old.at self.new.at) }
        ensures bytes { self.new.bytes ≡ self.old.bytes }
        ensures ended { self.new.ended ≡ self.old.ended }
        ensures more { MatchOption result ((self.new.ended ≡ false) × (vec_len self.new.bytes < ROOM)) (λ _. Unit {0}) }
        ensures under_way { MatchOption result (IsUnderWay self.new.bytes.items self.new.ended self.new.at) (λ _. Unit {0}) }
        ensures stopped { IfSome result (λ next. next ≡ End → self.new.ended ≡ true) }
        ensures tells { IfSome result (TellsAny self.new.bytes.items self.old.ended self.old.at self.new.at) }
    {
        let len = self.bytes.len();
        if len > INPUT_BYTES {
            return Some(Next::TooLong);
        }
        if !self.ended {
            return None;
        }
        if self.at == len {
            return Some(Next::End);
        }
        Some(Next::Line(self.take_line(len, len)))
    }

    // Reads once. It has the chunk, which the many calls that find a line do without.
    #[inline(never)]
    fn read_more<R: Source>(&mut self, reader: &mut R) -> Result<(), ServeFault>
        requires room { vec_len self.old.bytes < ROOM }
        requires open { self.old.ended ≡ false }
        ensures stays { self.new.at ≡ self.old.at }
        ensures reads { ReadsOn self.old.bytes.items self.old.ended (R.remaining reader.old) self.new.bytes.items self.new.ended
            (R.remaining reader.new) }
        ensures more { OnOk result ((self.new.ended ≡ true) × (vec_len self.new.bytes ≡ vec_len self.old.bytes)
            ⊎ (self.new.ended ≡ false) × (vec_len self.old.bytes < vec_len self.new.bytes)) }
        ensures kept { OnErr result ((self.new.bytes ≡ self.old.bytes) × (self.new.ended ≡ self.old.ended)) }
        ensures once { ReadsOnce self.old.bytes.items self.new.bytes.items }
        ensures fault { IfErr result (λ fault. fault ≡ Read) }
        ensures reader { R.health reader.old ≡ Fine → R.health reader.new ≡ source_after result }
    {
        let mut chunk = [0u8; CHUNK];
        let room = (ROOM - self.bytes.len()).min(CHUNK);
        match reader.read(&mut chunk[..room]) {
            Ok(0) => {
                self.ended = true;
                Ok(())
            }
            Ok(n) => {
                self.bytes.extend_from_slice(&chunk[..n]).unwrap();
                Ok(())
            }
            Err(_) => Err(ServeFault::Read),
        }
    }
}
