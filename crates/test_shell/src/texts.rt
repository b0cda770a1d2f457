//! Texts, and the first fault of each.

mod fitting;
mod lengths;
mod places;
mod predicates;
mod prefixes;
mod readers;

use proc_lang::{ProgError, parse_program};
use std::alloc::Global;

// The kind and the offset of a fault.
type Place = (u32, usize);

// The place of a fault; the kind is 0 if there is no memory.
fn place_of(error: ProgError) -> Place {
    match error {
        ProgError::Bad(fault) => (fault.kind.number(), fault.at),
        ProgError::Memory => (0, 0),
    }
}

// The first fault of a text, if it is no program.
fn fault_of(alloc: Global, text: &[u8]) -> Option<Place> {
    parse_program(alloc, text).err().map(place_of)
}
