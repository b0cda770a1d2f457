//! Which parts of a guard hold.

use crate::refusing::RefusingSession;
use dbg_base::{Choice, Expr, Pid};
use local_eval::{Env, eval, guard};
use std::alloc::{AllocError, Global};
use ui_conditions::MemberCount;
use ui_text::Notes;
use ui_view::ProcessView;

// Where the members of a part begin, of which so many have to hold.
const MEMBERS: usize = 4;

// The sign of what holds, and of what does not.
fn sign(holds: bool) -> &'static str {
    if holds { "+ " } else { "- " }
}

// Says expressions of a process that hold, or do not, with the values of the names in them.
fn tell_members(
    notes: &mut Notes,
    scope: ProcessView<'_>,
    env: &Env,
    column: usize,
    members: &[&Expr],
    holds: bool,
) -> Result<(), AllocError> {
    notes.say("")?;
    if column > 0 {
        notes.tab(column)?;
    }
    notes.add(sign(holds))?;
    scope.put_members(notes, members)?;
    if members.iter().any(|member| eval(member, env).is_err()) {
        notes.add(" faults")?;
    }
    scope.put_values(notes, ": ", env, members)
}

// Says which members of a part hold: those one after the other that do, or do not, are a line.
fn tell_each(
    notes: &mut Notes,
    scope: ProcessView<'_>,
    env: &Env,
    part: &MemberCount<'_>,
) -> Result<(), AllocError> {
    let mut members = Vec::new(notes.alloc());
    let mut before = false;
    for member in &part.members {
        let holds = guard(member, env) == Ok(true);
        if holds != before && !members.is_empty() {
            tell_members(notes, scope, env, MEMBERS, members.as_slice(), before)?;
            members.clear();
        }
        before = holds;
        members.push(*member)?;
    }
    tell_members(notes, scope, env, MEMBERS, members.as_slice(), before)
}

// Says whether a part of a guard holds.
fn tell_part(
    notes: &mut Notes,
    scope: ProcessView<'_>,
    env: &Env,
    part: &MemberCount<'_>,
) -> Result<(), AllocError> {
    let holds = part.holding(env) >= part.least;
    if part.members.len() > 1 {
        notes.say(sign(holds))?;
        scope.put_holding(notes, env, part)?;
        return tell_each(notes, scope, env, part);
    }
    tell_members(notes, scope, env, 0, part.members.as_slice(), holds)
}

// Whether a condition has one part, and that one member.
fn is_short(parts: &[MemberCount<'_>]) -> bool {
    parts.len() < 2 && parts.iter().all(|part| part.members.len() < 2)
}

// Says which parts of a guard hold. Of the only part, the members are said at once.
fn tell_parts(
    notes: &mut Notes,
    scope: ProcessView<'_>,
    env: &Env,
    parts: &[MemberCount<'_>],
) -> Result<(), AllocError> {
    if parts.len() > 1 {
        notes.add(": a part of its guard is false")?;
    }
    for part in parts {
        if parts.len() > 1 {
            tell_part(notes, scope, env, part)?;
        } else {
            notes.add(": ")?;
            scope.put_holding(notes, env, part)?;
            tell_each(notes, scope, env, part)?;
        }
    }
    Ok(())
}

impl RefusingSession<'_> {
    /// Says that the guard of a command is false in this state, and which of its parts hold, if it has several. Returns whether it has.
    pub(crate) fn tell_guard_parts(
        &self,
        notes: &mut Notes,
        pid: Pid,
        choice: Choice,
        expr: &Expr,
        env: &Env,
    ) -> Result<bool, AllocError> {
        let scope = self.view.scope(pid);
        let parts = scope.condition_parts(notes.alloc(), env, expr)?;
        if is_short(parts.as_slice()) {
            return Ok(false);
        }
        notes.say("")?;
        scope.put_command(notes, choice)?;
        tell_parts(notes, scope, env, parts.as_slice())?;
        Ok(true)
    }

    /// Says which parts of the false guard of a command hold, if it has several. Returns whether it has.
    pub(crate) fn tell_false_guard(
        &self,
        notes: &mut Notes,
        pid: Pid,
        choice: Choice,
    ) -> Result<bool, AllocError> {
        let session = self.view.session;
        let Some(command) = session.program.command(pid, choice) else {
            return Ok(false);
        };
        let Some(env) = session.world.local_state(pid) else {
            return Ok(false);
        };
        self.tell_guard_parts(notes, pid, choice, &command.guard, env)
    }
}
