//! Checks that each seat has recorded exactly its calls in the journal.

ghost use Rattle.std.specs.Prelude.{◌≡◌, ◌≤◌, ◌↔◌, IsTrue, IfOk, IfErr, OnOk, Some, length, map, slice_get};
ghost use Rattle.std.specs.List.{AllByRecursion};
ghost use Rattle.dbg_desk.specs.Desks.{entry_of, own_of};
ghost use Rattle.dbg_desk.specs.Settling.{IsKeptIn, HasOther, as_own};
ghost use Rattle.dbg_desk.specs.Finding.{IsFound, IsOther, AreFound, HasOtherNext, HaveEnded, HasMore};

use crate::entry::{Entry, RecordedCall};
use crate::run::Run;
use crate::seat::Seat;

// The journal is searched for the calls of so many seats at once.
const TOGETHER: usize = 16;

/// All seats' calls are in one journal, which has so many calls.
#[derive(Clone, Copy, Debug, PartialEq, Eq)]
pub struct Closing {
    pub calls: usize,
}

/// The journal has other calls of this seat than the seat's own record.
#[derive(Clone, Copy, Debug, PartialEq, Eq)]
pub struct Mismatch {
    pub seat: u32,
}

// Whether a recorded call is that of the entry, with the same answer.
fn is_same(entry: &Entry, own: &RecordedCall) -> bool
    ensures { IsTrue result ↔ (own_of own.now ≡ as_own (entry_of entry.now)) }
{
    own.call.is_call(&entry.call) && own.said.is_said(&entry.said)
}

// Whether a recorded call is at this position, and is that of the entry.
fn is_next(own: &[RecordedCall], place: usize, entry: &Entry) -> bool
    ensures { IsTrue result ↔ (slice_get (map own_of own.now) place ≡ Some (as_own (entry_of entry.now))) }
{
    match own.get(place) {
        Some(own) => is_same(entry, own),
        None => false,
    }
}

// How many recorded calls of a seat were found up to this entry, given how many were found before it: one more if the entry is of this
// seat.
fn find<L: Run>(entry: &Entry, seat: &Seat<L>, found: usize) -> Result<usize, Mismatch>
    ensures found { IfOk result (λ after. IsFound (entry_of entry.now) seat.now found after) }
    ensures other { IfErr result (λ mismatch. IsOther (entry_of entry.now) seat.now found mismatch.seat) }
{
    if entry.seat != seat.number() {
        return Ok(found);
    }
    if !is_next(seat.own_calls(), found, entry) {
        return Err(Mismatch {
            seat: seat.number(),
        });
    }
    Ok(found + 1)
}

// The same for each of these seats.
fn find_all<L: Run>(entry: &Entry, seats: &[Seat<L>], found: &mut [usize]) -> Result<(), Mismatch>
    requires { length found.old ≡ length seats.now }
    ensures found { OnOk result (AreFound (entry_of entry.now) seats.now found.old found.new) }
    ensures other { IfErr result (λ mismatch. HasOtherNext (entry_of entry.now) seats.now found.old mismatch.seat) }
{
    for place in 0..seats.len() {
        found[place] = find(entry, &seats[place], found[place])?;
    }
    Ok(())
}

// Checks that each seat has recorded no calls besides those that were found.
fn have_ended<L: Run>(seats: &[Seat<L>], found: &[usize]) -> Result<(), Mismatch>
    requires { length found.now ≡ length seats.now }
    ensures ended { OnOk result (HaveEnded seats.now found.now) }
    ensures other { IfErr result (λ mismatch. HasMore seats.now found.now mismatch.seat) }
{
    for (place, seat) in seats.iter().enumerate() {
        if seat.own_calls().len() != found[place] {
            return Err(Mismatch {
                seat: seat.number(),
            });
        }
    }
    Ok(())
}

// Checks that each of these few seats has recorded exactly its calls in the journal, in order. The journal is read once.
fn few_are_kept<L: Run>(journal: &[Entry], seats: &[Seat<L>]) -> Result<(), Mismatch>
    requires { length seats.now ≤ TOGETHER }
    ensures kept { OnOk result (AllByRecursion (IsKeptIn (map entry_of journal.now)) seats.now) }
    ensures other { IfErr result (λ mismatch. HasOther (map entry_of journal.now) seats.now mismatch.seat) }
{
    let mut none = [0usize; TOGETHER];
    let found = &mut none[..seats.len()];
    for entry in journal {
        find_all(entry, seats, found)?;
    }
    have_ended(seats, found)
}

/// Checks that each of these seats has recorded exactly its calls in the journal, in order. It does not allocate.
pub(crate) fn are_kept<L: Run>(journal: &[Entry], seats: &[Seat<L>]) -> Result<(), Mismatch>
    ensures kept { OnOk result (AllByRecursion (IsKeptIn (map entry_of journal.now)) seats.now) }
    ensures other { IfErr result (λ mismatch. HasOther (map entry_of journal.now) seats.now mismatch.seat) }
{
    if seats.len() <= TOGETHER {
        return few_are_kept(journal, seats);
    }
    let (few, others) = seats.split_at(TOGETHER);
    few_are_kept(journal, few)?;
    are_kept(journal, others)
}
