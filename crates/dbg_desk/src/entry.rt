//! Calls, as the journal and the seats record them.

ghost use Rattle.std.specs.Prelude.{◌≡◌, true};
ghost use Rattle.dbg_records.specs.Flat.{is_flat_call};
ghost use Rattle.dbg_records.specs.Small.{is_flat_small};

use dbg_base::{Call, Refusal, Said};
use dbg_records::{SmallCall, SmallSaid};

/// A call that was entered: the seat that made it, the call, and its answer.
#[derive(Debug)]
pub struct Entry {
    pub seat: u32,
    pub call: Call,
    pub said: Said,
    ghost flat: { is_flat_call call ≡ true },
}

impl Drop for Entry {
    fn drop(self) {
        let Self { seat, call, said } = self;
    }
}

/// A call in a seat's own record, with its answer, in 48 bytes.
#[derive(Debug)]
pub struct RecordedCall {
    pub(crate) call: SmallCall,
    pub(crate) said: SmallSaid,
    ghost flat: { is_flat_small call ≡ true },
}

impl Drop for RecordedCall {
    fn drop(self) {
        let Self { call, said } = self;
    }
}

const _: () = prove!(size_of::<RecordedCall>() <= 48);

impl Entry {
    /// The entry of this call. The call is no batch that contains a batch.
    pub(crate) fn new(seat: u32, call: Call, said: Said) -> Entry
        requires flat { is_flat_call call ≡ true }
        ensures seat { result.seat ≡ seat }
        ensures call { result.call ≡ call }
        ensures said { result.said ≡ said }
    {
        Entry { seat, call, said }
    }
}

impl RecordedCall {
    ghost use Rattle.dbg_base.specs.Calls.{call_of};
    ghost use Rattle.dbg_base.specs.Copies.{IsCopy};
    ghost use Rattle.dbg_desk.specs.Desks.{own_of};

    /// The record of this call. The call is no batch that contains a batch.
    pub(crate) fn new(call: SmallCall, said: SmallSaid) -> RecordedCall
        requires flat { is_flat_small call ≡ true }
        ensures call { result.call ≡ call }
        ensures said { result.said ≡ said }
    {
        RecordedCall { call, said }
    }

    /// The call. Error: `Memory`, if an allocation fails.
    pub fn call(&self) -> Result<Call, Refusal>
        ensures { IsCopy result (λ made. call_of made ≡ (own_of self.now).call) }
    {
        self.call.call()
    }

    /// Its answer. Error: `Memory`, if an allocation fails.
    pub fn said(&self) -> Result<Said, Refusal>
        ensures { IsCopy result (λ made. made ≡ (own_of self.now).said) }
    {
        self.said.said()
    }
}
