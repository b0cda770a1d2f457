//! A program, a table that follows the commands, and the commands that were accepted and are not taken back.

ghost use Rattle.std.specs.Prelude.{◌≡◌, ◌≤◌, ◌⊎◌, [], true, Err, IfOk, IfErr, IfSome, OnErr};
ghost use Rattle.dbg_base.specs.declared.refusal.Refusal.TheVariants.{Memory};
ghost use Rattle.dbg_base.specs.Calls.{Give, Back, Ask, order_of, query_of};
ghost use Rattle.dbg_base.specs.declared.limits.TheConstants.{BREAKPOINTS};
ghost use Rattle.dbg_base.specs.ModelStates.{opening, IsHaltPlace};
ghost use Rattle.dbg_base.specs.Journals.{LeadsTo, AnswersBack, counting, last_given};
ghost use Rattle.dbg_base.specs.Fits.{FitsCall};
ghost use Rattle.proc_tree.specs.Programs.{program_of};
ghost use Rattle.dbg_command.specs.Tables.{AskMayAllocate, state_of, IsTableOf, AnswersOrRefuses, FollowsOrRefuses, said_of, reported_of};
ghost use Rattle.dbg_command.specs.Boxes.{IsScanFor, ScansFor};
ghost use Rattle.dbg_session.specs.Sessions.{GaveLast};

use dbg_base::{Answer, Done, Gate, Plan, Query, Refusal, Reply};
use dbg_command::{Command, Table};
use least_cut::Scan;
use proc_tree::Program;
use std::alloc::Global;
use std::marker::Model;
use std::sync::Wait;
use std::thread::Threads;

// A command that was accepted, and the seat that gave it.
#[derive(Drop)]
struct Stacked<C> {
    seat: u32,
    command: C,
}

/// A program, the commands that were accepted and are not taken back, and the state to which they lead. Each of them can be taken back, the
/// last one first. Contracts see the program, the orders that count with the seats that gave them, and the state.
#[derive(Drop)]
pub struct Session<C: Command> {
    program: Program,
    table: Table,
    // The oldest first.
    stack: Vec<Stacked<C>>,
}

impl<C: Command> Model for Session<C> {
    ghost use Rattle.std.specs.Prelude.{map};
    ghost use Rattle.std.specs.Coded.{codes};
    ghost use Rattle.proc_tree.specs.Programs.{program_of};
    ghost use Rattle.dbg_command.specs.Tables.{state_of};
    ghost use Rattle.least_cut.specs.TreeCodes.{coded_tree};
    ghost use Rattle.dbg_session.specs.Sessions.{SessionState, IsSession, given_of};

    ghost Value = { SessionState };

    ghost coded = { Prim.hlevel (codes, coded_tree) };

    ghost view = { λ session. record {
      program = program_of session.program;
      effective = map (given_of C.order) session.stack.items;
      state = state_of session.table;
    } };

    ghost invariant = { λ session. IsSession C.order C.MayGoBack C.before (program_of session.program) session.table session.stack.items };
}

impl<C: Command> Session<C> {
    /// A session of this program in its opening state. No command counts. Error: `Memory`, if an allocation fails.
    pub fn new(alloc: Global, program: Program) -> Result<Session<C>, Refusal>
        ensures program { IfOk result (λ session. session.program ≡ program_of program) }
        ensures effective { IfOk result (λ session. session.effective ≡ []) }
        ensures opens { IfOk result (λ session. session.state ≡ opening (program_of program)) }
        ensures refuses { IfErr result (λ refusal. refusal ≡ Memory) }
    {
        let table = Table::new(alloc, &program)?;
        Ok(Session {
            program,
            table,
            stack: Vec::new(alloc),
        })
    }

    /// The program. It does not allocate.
    pub fn program(&self) -> &Program
        ensures { program_of result.now ≡ self.now.program }
    {
        &self.program
    }

    /// The table: the world of the program, and the breakpoints. It does not allocate.
    pub fn table(&self) -> &Table
        ensures of { IsTableOf self.now.program result.now }
        ensures state { state_of result.now ≡ self.now.state }
    {
        &self.table
    }

    /// Gives a command for the seat. If it is accepted, it counts from then on. A command that sets a breakpoint may be given the scan of
    /// its conjuncts; other commands ignore it. On an error nothing changes. The errors depend on its kind, and `Memory` if an allocation
    /// fails.
    pub fn perform(
        &mut self,
        alloc: Global,
        seat: u32,
        command: C,
        scan: Option<Scan>,
    ) -> Result<Reply, Refusal>
        requires fresh { C.IsFresh command }
        requires scan { IfSome scan (IsScanFor (C.order command) self.old.program self.old.state) }
        ensures program { self.new.program ≡ self.old.program }
        ensures follows { FollowsOrRefuses self.old.program (C.order command) self.old.state result self.new.state }
        ensures effective { self.new.effective ≡ counting self.old.effective seat (Give (C.order command)) (said_of result) }
        ensures leads_to { LeadsTo self.new.program self.new.effective self.new.state }
        ensures fits { FitsCall self.old.program (Give (C.order command)) (said_of result) }
        ensures kept { OnErr result (self.new ≡ self.old) }
    {
        let mut command = command;
        self.stack.reserve(1)?;
        match command.apply(alloc, &self.program, &mut self.table, scan) {
            Ok(reply) => {
                self.stack.push_reserved(Stacked { seat, command });
                Ok(reply)
            }
            Err(refusal) => Err(refusal),
        }
    }

    /// Takes back, for the seat, the last command that counts: the session is as if that command had never been given. On an error nothing
    /// changes. Errors: `NothingBack` if no command counts, `OtherSeat` if another seat gave the last one, and `Memory` if an allocation
    /// fails.
    pub fn back(&mut self, seat: u32) -> Result<Reply, Refusal>
        ensures program { self.new.program ≡ self.old.program }
        ensures due { AnswersBack self.old.program self.old.effective seat (last_given self.old.effective) (said_of result)
            ⊎ (result ≡ Err Memory) }
        ensures memory { IfErr result (λ refusal. refusal ≡ Memory → GaveLast self.old.effective seat) }
        ensures effective { self.new.effective ≡ counting self.old.effective seat Back (said_of result) }
        ensures leads_to { LeadsTo self.new.program self.new.effective self.new.state }
        ensures fits { FitsCall self.old.program Back (said_of result) }
        ensures kept { OnErr result (self.new ≡ self.old) }
    {
        let Some(last) = self.stack.last_mut() else {
            return Err(Refusal::NothingBack);
        };
        if last.seat != seat {
            return Err(Refusal::OtherSeat(last.seat));
        }
        last.command.revert(&mut self.table)?;
        let _taken = self.stack.pop();
        Ok(self.table.reply(Done::Plain))
    }

    /// The scan that `perform` may be given with a command of this plan. For a breakpoint it is that of its conjuncts, if there is at least
    /// one and they are not refused; for all other plans None. Each conjunct has a worker of its own, as in `Scan::wide`. Error: `Memory`,
    /// if an allocation fails.
    pub fn scan<R: Threads + Wait + Sync, G: Gate>(
        &self,
        rt: &R,
        alloc: Global,
        plan: &Plan,
        gate: &G,
    ) -> Result<Option<Scan>, Refusal>
        ensures scans { IfOk result (λ found. ScansFor (order_of plan.now) self.now.program self.now.state found) }
        ensures refuses { IfErr result (λ refusal. refusal ≡ Memory) }
    {
        self.table.scan(rt, alloc, &self.program, plan, gate)
    }

    /// Answers a query, which changes nothing. The errors depend on its kind. `Memory` if an allocation fails; `place` and `can` do not
    /// allocate.
    pub fn ask(&self, alloc: Global, query: &Query) -> Result<Answer, Refusal>
        ensures answers { AnswersOrRefuses self.now.program self.now.state (query_of query.now) result }
        ensures memory { IfErr result (λ refusal. refusal ≡ Memory → AskMayAllocate (query_of query.now) self.now.state) }
        ensures fits { FitsCall self.now.program (Ask (query_of query.now)) (reported_of result) }
    {
        self.table.ask(alloc, &self.program, query)
    }

    /// The position of the breakpoint that halts the session, from 1 in the order in which they were set, or 0 if none does. It does not
    /// allocate.
    pub fn halt_at(&self) -> u32
        ensures place { IsHaltPlace self.now.program self.now.state result }
        ensures few { result ≤ BREAKPOINTS }
    {
        self.table.halt_place()
    }
}
