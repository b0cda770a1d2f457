//! Replies with the names that the author of a model gave.

use dbg_base::{Answer, Call, Choice, Cut, Done, Head, Name, Pid, Query, Refusal, Reply, Said};
use std::alloc::{AllocError, Global};
use ui_text::{Notes, Part, ProgramText, ShownValue};

/// Where a label is in a line, and the number of its command, in whose place it is.
#[derive(Clone, Copy)]
pub struct LabelPlace {
    pub from: usize,
    pub to: usize,
    pub choice: Choice,
}

/// Where a word is in a line that is shown for a value, and the value, in whose place it is.
#[derive(Clone, Copy)]
pub struct ValuePlace {
    pub from: usize,
    pub to: usize,
    pub value: i64,
}

/// The line of a reply with the author's names, and a line end. A command that has a label is named by it. Of the values of `vars` and `chan`
/// those that have a type are shown as words. Their places are in order.
#[derive(Drop)]
pub struct NamedReply {
    pub line: Vec<u8>,
    pub label: Option<LabelPlace>,
    pub values: Vec<ValuePlace>,
}

/// The name of a breakpoint: in a model, with its indices in brackets.
pub(crate) fn breakpoint_part<'a>(text: &ProgramText, name: Name) -> Part<'a> {
    if text.is_model() {
        Part::Indexed(name)
    } else {
        Part::Name(name)
    }
}

// A reply that is being written.
#[derive(Drop)]
struct ReplyWords<'a> {
    text: &'a ProgramText,
    notes: Notes,
    values: Vec<ValuePlace>,
}

impl ReplyWords<'_> {
    // Appends a blank, a name, and `=`.
    fn put_name(&mut self, name: &[u8]) -> Result<(), AllocError> {
        self.notes.add_with(" {}=", &[Part::Bytes(name)])
    }

    // Appends the name of a process, and `=`.
    fn put_process_name(&mut self, pid: Pid) -> Result<(), AllocError> {
        let text = self.text;
        self.put_name(text.process_name(pid))
    }

    // Appends a count for each process.
    fn put_counts(&mut self, cut: &Cut) -> Result<(), AllocError> {
        for (pid, count) in (0u32..).zip(cut.counts()) {
            self.put_process_name(Pid(pid))?;
            self.notes.add_with("{}", &[Part::Natural(*count)])?;
        }
        Ok(())
    }

    // Appends a component of a frontier.
    fn put_head(&mut self, head: Head) -> Result<(), AllocError> {
        match head {
            Head::At(count) => self.notes.add_with("{}", &[Part::Natural(count)]),
            Head::Past => self.notes.add("past"),
        }
    }

    // Appends a component of a frontier for each process.
    fn put_heads(&mut self, heads: &[Head]) -> Result<(), AllocError> {
        for (pid, head) in (0u32..).zip(heads) {
            self.put_process_name(Pid(pid))?;
            self.put_head(*head)?;
        }
        Ok(())
    }

    // How many bytes there are.
    fn len(&self) -> usize {
        self.notes.line(0).bytes.len()
    }

    // Appends what is shown for a value. If it is a word, notes its place.
    fn put_value(&mut self, value: i64, shown: ShownValue<'_>) -> Result<(), AllocError> {
        let from = self.len();
        self.notes.add_with("{}", &[Part::Shown(shown)])?;
        let to = self.len();
        if shown.is_number() {
            return Ok(());
        }
        Ok(self.values.push(ValuePlace { from, to, value })?)
    }

    // Appends a value for each variable of a process.
    fn put_values(&mut self, pid: Pid, values: &[i64]) -> Result<(), AllocError> {
        let text = self.text;
        for (variable, value) in (0u32..).zip(values) {
            self.put_name(text.variable_name(pid, variable))?;
            self.put_value(*value, text.value(pid, variable, *value))?;
        }
        Ok(())
    }

    // Appends a message of a channel.
    fn put_message(&mut self, source: Pid, target: Pid, value: i64) -> Result<(), AllocError> {
        let text = self.text;
        self.notes.add(" ")?;
        self.put_value(value, text.message(source, target, value))
    }

    // Appends a word and a process.
    fn put_process(&mut self, word: &'static str, pid: Pid) -> Result<(), AllocError> {
        let name = Part::Bytes(self.text.process_name(pid));
        self.notes.add_with("{} {}", &[Part::Text(word), name])
    }

    // Appends a word and a breakpoint.
    fn put_breakpoint(&mut self, word: &'static str, name: Name) -> Result<(), AllocError> {
        let name = breakpoint_part(self.text, name);
        self.notes.add_with("{} {}", &[Part::Text(word), name])
    }

    // Appends the number of a refusal, and what it contains.
    fn put_refusal(&mut self, refusal: &Refusal) -> Result<(), AllocError> {
        self.notes
            .add_with("no {}", &[Part::Natural(refusal.number())])?;
        match refusal {
            Refusal::Consequence(pid) => self.put_process("", *pid),
            Refusal::Halted(name) => self.put_breakpoint("", *name),
            Refusal::OtherSeat(seat) => self.notes.add_with(" {}", &[Part::Natural(*seat)]),
            Refusal::InBatch { at, number } => self
                .notes
                .add_with(" {} {}", &[Part::Natural(*at), Part::Natural(*number)]),
            _ => Ok(()),
        }
    }

    // Appends the command of an event. Returns where its label is, if it has one.
    fn put_command(&mut self, pid: Pid, choice: Choice) -> Result<Option<LabelPlace>, AllocError> {
        self.put_process("ok", pid)?;
        let label = self.text.label(pid, choice);
        if label.is_empty() {
            self.notes.add_with(" {}", &[Part::Natural(choice.0)])?;
            return Ok(None);
        }
        self.notes.add(" ")?;
        let from = self.len();
        self.notes.add_with("{}", &[Part::Bytes(label)])?;
        let to = self.len();
        Ok(Some(LabelPlace { from, to, choice }))
    }

    // Appends the reply to a command. Returns where the label of a command is, if it has one.
    fn put_accepted(&mut self, reply: &Reply) -> Result<Option<LabelPlace>, AllocError> {
        let label = match &reply.done {
            Done::Played(pid, choice) | Done::Undone(pid, choice) => {
                self.put_command(*pid, *choice)?
            }
            Done::Places(cut) => {
                self.notes.add("ok")?;
                self.put_counts(cut)?;
                None
            }
            Done::Plain => {
                self.notes.add("ok")?;
                None
            }
        };
        if let Some(name) = reply.halted {
            self.put_breakpoint(" halted", name)?;
        }
        Ok(label)
    }

    // Appends whether the last event of a process may be undone.
    fn put_can(&mut self, pid: Pid, outcome: &Result<(), Refusal>) -> Result<(), AllocError> {
        self.put_process("can", pid)?;
        match outcome {
            Ok(()) => self.notes.add(" yes"),
            Err(refusal) => {
                self.notes.add(" ")?;
                self.put_refusal(refusal)
            }
        }
    }

    // Appends the breakpoints, each with its mark.
    fn put_marks(&mut self, marks: &[(Name, bool)]) -> Result<(), AllocError> {
        self.notes.add("breaks")?;
        for (name, is_armed) in marks {
            let mark = Part::Text(if *is_armed { "on" } else { "off" });
            let name = breakpoint_part(self.text, *name);
            self.notes.add_with(" {} {}", &[name, mark])?;
        }
        Ok(())
    }

    // Appends the answer to a query.
    fn put_answer(&mut self, query: &Query, answer: &Answer) -> Result<(), AllocError> {
        match (query, answer) {
            (Query::Vars(pid), Answer::Values(values)) => {
                self.put_process("vars", *pid)?;
                self.put_values(*pid, values.items())
            }
            (Query::Chan(source, target), Answer::Messages(messages)) => {
                self.put_process("chan", *source)?;
                self.put_process("", *target)?;
                for message in messages.items() {
                    self.put_message(*source, *target, *message)?;
                }
                Ok(())
            }
            (Query::Clock(pid), Answer::Counts(cut)) => {
                self.put_process("clock", *pid)?;
                self.put_counts(cut)
            }
            (Query::Place(pid), Answer::PlaceOf { at, line }) => {
                self.put_process("place", *pid)?;
                let counts = [Part::Natural(*at), Part::Natural(*line)];
                self.notes.add_with(" {} of {}", &counts)
            }
            (Query::Can(pid), Answer::CanUndo(outcome)) => self.put_can(*pid, outcome),
            (Query::CutOf(name), Answer::CutIs(cut)) => {
                self.put_breakpoint("cut", *name)?;
                match cut {
                    Some(cut) => self.put_counts(cut),
                    None => self.notes.add(" none"),
                }
            }
            (Query::Why(name), Answer::Frontier(heads)) => {
                self.put_breakpoint("why", *name)?;
                self.put_heads(heads.items())
            }
            (Query::Breaks, Answer::Marks(marks)) => self.put_marks(marks.items()),
            _ => Ok(()),
        }
    }
}

// The reply that these words are.
fn finished(
    alloc: Global,
    words: ReplyWords<'_>,
    label: Option<LabelPlace>,
) -> Result<NamedReply, AllocError> {
    let ReplyWords {
        text: _,
        notes,
        values,
    } = words;
    let mut line = Vec::from_slice(alloc, notes.line(0).bytes)?;
    line.push(b'\n')?;
    Ok(NamedReply {
        line,
        label,
        values,
    })
}

// No words yet.
fn begun(alloc: Global, text: &ProgramText) -> Result<ReplyWords<'_>, AllocError> {
    let mut notes = Notes::new(alloc);
    notes.say("")?;
    let values = Vec::new(alloc);
    Ok(ReplyWords {
        text,
        notes,
        values,
    })
}

/// The line that answers a call, with the names of this text. Error: memory ran out.
pub fn named_reply(
    alloc: Global,
    text: &ProgramText,
    call: &Call,
    said: &Said,
) -> Result<NamedReply, AllocError> {
    let mut words = begun(alloc, text)?;
    let label = match (call, said) {
        (_, Said::Accepted(reply)) => words.put_accepted(reply)?,
        (Call::Ask(query), Said::Answered(answer)) => {
            words.put_answer(query, answer)?;
            None
        }
        (_, Said::Refused(refusal)) => {
            words.put_refusal(refusal)?;
            None
        }
        (_, Said::Answered(_)) => None,
    };
    finished(alloc, words, label)
}

/// The line that refuses a line of which no call was made, with the names of this text. Error: memory ran out.
pub fn named_refusal(
    alloc: Global,
    text: &ProgramText,
    refusal: &Refusal,
) -> Result<NamedReply, AllocError> {
    let mut words = begun(alloc, text)?;
    words.put_refusal(refusal)?;
    finished(alloc, words, None)
}
