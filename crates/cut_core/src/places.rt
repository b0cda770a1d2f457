//! A list of positions.

ghost use Rattle.std.specs.Prelude.{◌≡◌, ◌+◌, ◌-◌, ◌<◌, ◌≤◌, ◌++◌, ◌∷◌, [], length, take, slice_index, IfOk, OnOk};

use std::alloc::{AllocError, Global};
use std::marker::Model;

/// The positions of some events, in order. Contracts see a list, and how many more positions fit without allocation.
#[derive(Drop)]
pub(crate) struct Places {
    places: Vec<u32>,
}

impl Model for Places {
    ghost use Rattle.std.specs.Prelude.{◌-◌};
    ghost use Rattle.std.specs.Vec.{vec_len, vec_capacity};
    ghost use Rattle.cut_core.specs.Places.{PlacesState};

    ghost Value = { PlacesState };

    ghost view = { λ list. record {
      places = list.places.items;
      room = vec_capacity list.places - vec_len list.places;
    } };
}

// How many of these ascending positions are below n.
fn before(places: &[u32], n: u32) -> usize
    ensures within { result ≤ length places.now }
    ensures below { 0 < result → slice_index places.now (result - 1) < n }
    ensures above { result < length places.now → n ≤ slice_index places.now result }
{
    let mut low = 0;
    let mut high = places.len();
    // Most often all are asked for.
    if high > 0 && places[high - 1] < n {
        return high;
    }
    while low < high {
        let middle = low + (high - low) / 2;
        if places[middle] < n {
            low = middle + 1;
        } else {
            high = middle;
        }
    }
    low
}

impl Places {
    /// An empty list. It does not allocate.
    pub(crate) fn new(alloc: Global) -> Places
        ensures { result.places ≡ [] }
    {
        Places {
            places: Vec::new(alloc),
        }
    }

    /// How many of these ascending positions are below n.
    pub(crate) fn before(&self, n: u32) -> usize
        ensures within { result ≤ length self.now.places }
        ensures below { 0 < result → slice_index self.now.places (result - 1) < n }
        ensures above { result < length self.now.places → n ≤ slice_index self.now.places result }
    {
        before(self.places.as_slice(), n)
    }

    /// The k-th position, from 0.
    pub(crate) fn at(&self, k: u32) -> u32
        requires { k < length self.now.places }
        ensures { result ≡ slice_index self.now.places k }
    {
        self.places[k as usize]
    }

    /// Makes room for so many more positions.
    pub(crate) fn reserve(&mut self, more: usize) -> Result<(), AllocError>
        ensures same { self.new.places ≡ self.old.places }
        ensures grows { self.old.room ≤ self.new.room }
        ensures ok { OnOk result (more ≤ self.new.room) }
    {
        self.places.reserve(more)
    }

    /// Appends a position. It does not allocate.
    pub(crate) fn push(&mut self, place: u32)
        requires { 0 < self.old.room }
        ensures places { self.new.places ≡ self.old.places ++ place ∷ [] }
        ensures room { self.new.room ≡ self.old.room - 1 }
    {
        self.places.push_reserved(place);
    }

    /// Removes the last position, if there is one. It does not allocate.
    pub(crate) fn pop(&mut self)
        ensures places { self.new.places ≡ take (length self.old.places - 1) self.old.places }
        ensures grows { self.old.room ≤ self.new.room }
    {
        self.places.pop();
    }

    /// Copies the positions.
    pub(crate) fn copy(&self) -> Result<Places, AllocError>
        ensures { IfOk result (λ made. made.places ≡ self.now.places) }
    {
        Ok(Places {
            places: self.places.clone()?,
        })
    }
}
