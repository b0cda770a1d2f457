//! The present state of a session.

use crate::explained::ExplainedSession;
use crate::halts::new_words;
use dbg_base::{Choice, Direction, Name, Pid, Refusal};
use std::alloc::{AllocError, Global};
use ui_text::{Notes, Part};
use ui_view::{EventNews, Wrapping, count_form, put_value};

// Where further lines of values begin.
const INDENT: usize = 4;

// Processes, from the first of these numbers up to the second, without it.
type Processes = (u32, u32);

impl ExplainedSession<'_> {
    // The process of this name, or all processes if the name is empty. If no process has the name, says so.
    fn processes_named(
        &self,
        notes: &mut Notes,
        word: &[u8],
    ) -> Result<Option<Processes>, AllocError> {
        let program = self.view.session.program;
        if word.is_empty() {
            return Ok(Some((0, program.processes())));
        }
        match Name::new(word).and_then(|name| program.find_process(name)) {
            Some(pid) => Ok(Some((pid.0, pid.0.saturating_add(1)))),
            None => {
                self.view.tell_processes(notes, word)?;
                Ok(None)
            }
        }
    }

    // Says which commands of a process can fire, and returns whether there is one.
    fn tell_firing(&self, notes: &mut Notes, pid: Pid) -> Result<bool, Refusal> {
        let scope = self.view.scope(pid);
        let mut any = false;
        for number in 0..self.view.session.program.commands(pid) {
            let choice = Choice(number);
            if scope.fires(notes.alloc(), self.view.session.world, choice)? {
                any = true;
                notes.say_with("{}: ", &[scope.name()])?;
                scope.put_command(notes, choice)?;
                scope.put_text(notes, choice)?;
            }
        }
        Ok(any)
    }

    // Says that a breakpoint halts the session, if one does, and what `pass` would do.
    fn tell_halted(&self, notes: &mut Notes) -> Result<(), Refusal> {
        let Some(name) = self.view.session.book.halted() else {
            return Ok(());
        };
        notes.say_with(
            "the breakpoint {} halts the session: `pass` ",
            &[self.view.breakpoint(name)],
        )?;
        match self.view.next_halting(notes.alloc(), name)? {
            Some(next) => notes.add_with(
                "disarms it, and then the breakpoint {} does",
                &[self.view.breakpoint(next)],
            )?,
            None => notes.add("lets it continue")?,
        }
        Ok(())
    }

    /// Says which commands can fire in the present state, or that none can: those of the process of this name, or of all processes if the
    /// name is empty.
    pub fn tell_on(&self, notes: &mut Notes, word: &[u8]) -> Result<(), Refusal> {
        let Some((from, to)) = self.processes_named(notes, word)? else {
            return Ok(());
        };
        let mut any = false;
        for p in from..to {
            any = self.tell_firing(notes, Pid(p))? || any;
        }
        if !any && word.is_empty() {
            notes.say("no command of any process can fire")?;
        } else if !any {
            notes.say_with("no command of {} can fire", &[Part::Bytes(word)])?;
        }
        self.tell_halted(notes)
    }

    // Shows a command, and says what prevents it from firing.
    fn tell_command(&self, notes: &mut Notes, pid: Pid, choice: Choice) -> Result<(), Refusal> {
        let scope = self.view.scope(pid);
        notes.say_with("{}: ", &[scope.name()])?;
        scope.put_command(notes, choice)?;
        scope.put_text(notes, choice)?;
        notes.say("  ")?;
        scope.put_verdict(notes, self.view.session.world, choice)
    }

    /// Shows the commands of the process of this name, or of all processes if the name is empty, and says of each what prevents it from
    /// firing in the present state.
    pub fn tell_list(&self, notes: &mut Notes, word: &[u8]) -> Result<(), Refusal> {
        let Some((from, to)) = self.processes_named(notes, word)? else {
            return Ok(());
        };
        for p in from..to {
            for number in 0..self.view.session.program.commands(Pid(p)) {
                self.tell_command(notes, Pid(p), Choice(number))?;
            }
        }
        self.tell_halted(notes)
    }

    fn tell_values(&self, notes: &mut Notes, pid: Pid) -> Result<(), AllocError> {
        let scope = self.view.scope(pid);
        let place = Part::Natural(self.view.session.world.place(pid));
        let line = Part::Natural(self.view.session.world.line_len(pid));
        let mut words = new_words(notes)?;
        words.add_with("{}, place {} of {}", &[scope.name(), place, line])?;
        self.put_state(&mut words, pid)?;
        notes.say("")?;
        let (width, column) = (self.view.width, INDENT);
        Wrapping { width, column }.put(notes, words.line(0).bytes)
    }

    // Appends the variables and counts of a process to the last line.
    fn put_state(&self, notes: &mut Notes, pid: Pid) -> Result<(), AllocError> {
        let scope = self.view.scope(pid);
        let Some(env) = self.view.session.world.local_state(pid) else {
            return Ok(());
        };
        let mut word = ": ";
        scope.put_variables(notes, &mut word, env)?;
        self.tell_counts(notes, pid, word, Direction::Sent)?;
        self.tell_counts(notes, pid, ", ", Direction::Got)
    }

    // Says how many messages a process has sent to others, or received from them, if there are any.
    fn tell_counts(
        &self,
        notes: &mut Notes,
        pid: Pid,
        first: &'static str,
        direction: Direction,
    ) -> Result<(), AllocError> {
        let Some(env) = self.view.session.world.local_state(pid) else {
            return Ok(());
        };
        let scope = self.view.scope(pid);
        let mut word = first;
        for other in 0..self.view.session.program.processes() {
            let count = env
                .counts(direction)
                .get(other as usize)
                .copied()
                .unwrap_or(0);
            if count > 0 {
                let (form, name) = (count_form(direction), scope.process(Pid(other)));
                put_value(notes, &mut word, form, &[name], &Part::Natural(count))?;
            }
        }
        Ok(())
    }

    fn tell_channel(&self, notes: &mut Notes, source: Pid, target: Pid) -> Result<(), Refusal> {
        let messages = self
            .view
            .session
            .world
            .channel(notes.alloc(), source, target)?;
        if messages.items().is_empty() {
            return Ok(());
        }
        let scope = self.view.scope(source);
        notes.say_with("{} -> {}:", &[scope.name(), scope.process(target)])?;
        for message in messages.items() {
            notes.add_with(" {}", &[scope.message_to(target, *message)])?;
        }
        Ok(())
    }

    /// Shows the variables of the process of this name, and the messages on their way to it and from it; or those of all processes, if the
    /// name is empty.
    pub fn tell_state(&self, notes: &mut Notes, word: &[u8]) -> Result<(), Refusal> {
        let Some((from, to)) = self.processes_named(notes, word)? else {
            return Ok(());
        };
        for p in from..to {
            self.tell_values(notes, Pid(p))?;
        }
        let is_shown = |p: u32| from <= p && p < to;
        for p in 0..self.view.session.program.processes() {
            for q in 0..self.view.session.program.processes() {
                if is_shown(p) || is_shown(q) {
                    self.tell_channel(notes, Pid(p), Pid(q))?;
                }
            }
        }
        Ok(())
    }

    fn tell_again(&self, notes: &mut Notes, pid: Pid, at: u32) -> Result<(), AllocError> {
        match self.view.session.world.choice(pid, at) {
            Some(choice) => {
                notes.say("to redo: ")?;
                self.view.scope(pid).put_command(notes, choice)
            }
            None => Ok(()),
        }
    }

    /// Shows the events of the process of this name, and what it can make again.
    pub fn tell_line(&self, notes: &mut Notes, word: &[u8]) -> Result<(), AllocError> {
        if word.is_empty() {
            return notes.say("`line P` shows the events of the process P");
        }
        let found = Name::new(word).and_then(|name| self.view.session.program.find_process(name));
        let Some(pid) = found else {
            return self.view.tell_processes(notes, word);
        };
        let place = self.view.session.world.place(pid);
        for at in 0..place {
            let number = (at as usize).saturating_add(1);
            self.view.tell_event(notes, EventNews::Made, pid, number)?;
        }
        notes.say_with(
            "{} is here: place {} of {}",
            &[
                self.view.scope(pid).name(),
                Part::Natural(place),
                Part::Natural(self.view.session.world.line_len(pid)),
            ],
        )?;
        for at in place..self.view.session.world.line_len(pid) {
            self.tell_again(notes, pid, at)?;
        }
        Ok(())
    }
}
