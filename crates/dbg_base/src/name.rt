//! Names of processes, variables and breakpoints.

ghost use Rattle.std.specs.Prelude.{◌≡◌, ℕ, ◌<◌, ◌≤◌, List, length, take, IsSome, IfSome, ◌↔◌};

use crate::limits::NAME_BYTES;
use std::hash::{Hash, Hasher};
use std::marker::Model;

/// A name of 1 to 32 bytes, which contracts see as the list of its bytes.
#[derive(Clone, Copy, Debug)]
pub struct Name {
    // The bytes of the name, then zeros.
    bytes: [u8; NAME_BYTES],
    used: u8,
}

impl Model for Name {
    ghost use Rattle.std.specs.Prelude.{◌≡◌, ℕ, ◌<◌, ◌≤◌, List, length, take};
    ghost use Rattle.dbg_base.specs.Names.{padded_name, IsPadded};

    ghost Value = { List ℕ };

    ghost view = { λ name. take name.used name.bytes };

    ghost invariant = { λ name. IsPadded name.bytes name.used };

    ghost inverse = { λ bytes. record { bytes = padded_name bytes; used = length bytes } };
}

impl PartialEq for Name {
    ghost use Rattle.std.specs.Str.{bytes_eq};
    ghost use Rattle.std.specs.Cmp.{partial_equiv_from_equiv};
    ghost use Rattle.std.specs.Cmp.Lexicographic.{nat_list_eq_equiv};

    ghost eq = { bytes_eq };

    ghost laws = { partial_equiv_from_equiv nat_list_eq_equiv };

    fn eq(&self, other: &Self) -> bool {
        self.bytes() == other.bytes()
    }
}

impl Eq for Name {
    ghost use Rattle.std.specs.Cmp.Lexicographic.{nat_list_eq_equiv};

    ghost laws = { nat_list_eq_equiv };
}

impl Hash for Name {
    ghost use Rattle.std.specs.Hash as fed;
    ghost use Rattle.std.specs.Cmp.Rules.{hashing};
    ghost use Rattle.std.proofs.Common.{rules};

    ghost hash_input = { λ name. fed.slice fed.u8 name };

    ghost respects_eq = { Prim.search (hashing, rules) };

    fn hash<H: Hasher>(&self, state: &mut H) {
        self.bytes().hash(state);
    }
}

impl Name {
    /// The name of these bytes, or None if they are not 1 to 32. It does not allocate.
    pub fn new(bytes: &[u8]) -> Option<Name>
        ensures some { IsSome result ↔ ((1 ≤ length bytes.now) × (length bytes.now ≤ NAME_BYTES)) }
        ensures value { IfSome result (λ name. name ≡ bytes.now) }
    {
        if bytes.is_empty() || bytes.len() > NAME_BYTES {
            return None;
        }
        let mut padded = [0u8; NAME_BYTES];
        padded[..bytes.len()].copy_from_slice(bytes);
        Some(Name {
            bytes: padded,
            used: bytes.len() as u8,
        })
    }

    /// The bytes, 1 to 32 of them.
    pub fn bytes(&self) -> &[u8]
        ensures value { result.now ≡ self.now }
        ensures some { 1 ≤ length self.now }
        ensures few { length self.now ≤ NAME_BYTES }
    {
        &self.bytes[..self.used as usize]
    }
}
