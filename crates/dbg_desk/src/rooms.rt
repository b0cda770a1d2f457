//! Memory that is reserved for the answer to a command.

ghost use Rattle.std.specs.Prelude.{◌≡◌, ◌↔◌, ◌≤◌, [], length, IfOk, IfErr, IfSome, IsSome, IsTrue, OnOk};
ghost use Rattle.std.specs.Vec.{vec_capacity};
ghost use Rattle.dbg_base.specs.declared.refusal.Refusal.TheVariants.{Memory};
ghost use Rattle.dbg_base.specs.Copies.{counts_in};
ghost use Rattle.proc_tree.specs.Programs.{program_of};
ghost use Rattle.dbg_command.specs.Tables.{said_of};
ghost use Rattle.dbg_records.specs.Small.{small_said_of};

use dbg_base::{Done, Refusal, Reply, Said};
use dbg_records::SmallSaid;
use proc_tree::Program;
use std::alloc::Global;
use std::mem;

/// Memory for the places in the answer to a command, and for a box that keeps an answer apart, for the seat's own record. If an answer has
/// no places, or needs no box, the memory stays for the next command.
#[derive(Drop)]
pub(crate) struct Reserved {
    pub(crate) places: Vec<u32>,
    pub(crate) apart: Option<Box<Said>>,
    ghost empty: { places.items ≡ [] },
}

// A copy of the reply. If the reply has places, the copy has them in the memory of this list, which is then left without memory.
fn reply_again(reply: &Reply, room: &mut Vec<u32>) -> Reply
    requires empty { room.old.items ≡ [] }
    requires room { counts_in reply.now.done ≤ vec_capacity room.old }
    ensures reply { result ≡ reply.now }
    ensures empty { room.new.items ≡ [] }
{
    let unused = Vec::new(*room.allocator());
    match reply.done {
        Done::Places(_) => reply.copy_into(mem::replace(room, unused)),
        Done::Played(_, _) | Done::Undone(_, _) | Done::Plain => reply.copy_into(unused),
    }
}

// A copy of the answer to a command.
fn said_again(outcome: &Result<Reply, Refusal>, room: &mut Vec<u32>) -> Said
    requires empty { room.old.items ≡ [] }
    requires room { IfOk outcome.now (λ reply. counts_in reply.done ≤ vec_capacity room.old) }
    ensures said { result ≡ said_of outcome.now }
    ensures empty { room.new.items ≡ [] }
{
    match outcome {
        Ok(reply) => Said::Accepted(reply_again(reply, room)),
        Err(refusal) => Said::Refused(*refusal),
    }
}

// The answer to a command in its small form, if it needs no box of its own.
fn small_said(outcome: &Result<Reply, Refusal>) -> Option<SmallSaid>
    ensures { IfSome result (λ small. small_said_of small ≡ said_of outcome.now) }
{
    match outcome {
        Ok(reply) => SmallSaid::of_reply(reply),
        Err(_) => None,
    }
}

impl Reserved {
    /// No memory yet.
    pub(crate) fn new(alloc: Global) -> Reserved {
        Reserved {
            places: Vec::new(alloc),
            apart: None,
        }
    }

    /// Whether there is room for a place of each process, and for a box, already.
    #[inline(always)]
    pub(crate) fn has_room(&self, program: &Program) -> bool
        ensures { IsTrue result ↔ ((length (program_of program.now) ≤ vec_capacity self.now.places) × IsSome self.now.apart) }
    {
        program.processes() as usize <= self.places.capacity() && self.apart.is_some()
    }

    /// Makes room for a place of each process, and for a box. Error: `Memory`, if an allocation fails.
    pub(crate) fn make(&mut self, program: &Program) -> Result<(), Refusal>
        ensures room { OnOk result (length (program_of program.now) ≤ vec_capacity self.new.places) }
        ensures apart { OnOk result (IsSome self.new.apart) }
        ensures refuses { IfErr result (λ refusal. refusal ≡ Memory) }
    {
        let places = program.processes() as usize;
        self.places.reserve(places)?;
        if self.apart.is_none() {
            let unsaid = Said::Refused(Refusal::Memory);
            self.apart = Some(Box::new(*self.places.allocator(), unsaid)?);
        }
        Ok(())
    }

    /// The answer to a command, for the seat's own record. It does not allocate.
    pub(crate) fn say(&mut self, outcome: &Result<Reply, Refusal>) -> SmallSaid
        requires room { IfOk outcome.now (λ reply. counts_in reply.done ≤ vec_capacity self.old.places) }
        requires apart { IsSome self.old.apart }
        ensures { small_said_of result ≡ said_of outcome.now }
    {
        if let Some(small) = small_said(outcome) {
            return small;
        }
        match self.apart.take() {
            Some(mut place) => {
                *place = said_again(outcome, &mut self.places);
                SmallSaid::Apart(place)
            }
            None => unreachable!(),
        }
    }
}
