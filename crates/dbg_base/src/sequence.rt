//! A list as a value that contracts can compare.

ghost use Rattle.std.specs.Prelude.{◌≡◌};
ghost use Rattle.dbg_base.specs.Copies.{IsCopy};

use crate::refusal::Refusal;
use std::alloc::Global;
use std::marker::Model;

/// A list of values. Contracts see only the list, not its memory.
#[derive(Debug, Drop)]
pub struct Sequence<T> {
    items: Vec<T>,
}

impl<T> Model for Sequence<T> {
    ghost use Rattle.std.specs.Prelude.{List};

    ghost Value = { List T };

    ghost view = { λ sequence. sequence.items.items };
}

impl<T: PartialEq> PartialEq for Sequence<T> {
    ghost use Rattle.std.specs.Cmp.Lexicographic.{pointwise, lists_per};

    ghost eq = { λ one other. pointwise T.eq one other };

    ghost laws = { lists_per T.laws };

    fn eq(&self, other: &Self) -> bool {
        self.items() == other.items()
    }
}

impl<T: Eq> Eq for Sequence<T> {
    ghost use Rattle.std.specs.Cmp.Lexicographic.{lists_equiv};

    ghost laws = { lists_equiv T.Eq.laws };
}

impl<T> Sequence<T> {
    /// The sequence of these items. It does not allocate.
    pub fn new(items: Vec<T>) -> Self
        ensures { result ≡ items.items }
    {
        Sequence { items }
    }

    /// The items, in order.
    pub fn items(&self) -> &[T]
        ensures { result.now ≡ self.now }
    {
        self.items.as_slice()
    }

    // The allocator of the items.
    pub(crate) fn allocator(&self) -> Global {
        *self.items.allocator()
    }

    /// Returns the items. It does not allocate.
    pub fn into_items(self) -> Vec<T>
        ensures { result.items ≡ self }
    {
        let Sequence { items } = self;
        items
    }
}

impl<T: Copy> Sequence<T> {
    // Copies the items. Error: `Memory`, if an allocation fails.
    pub(crate) fn copy(&self) -> Result<Sequence<T>, Refusal>
        ensures { IsCopy result (λ made. made ≡ self.now) }
    {
        Ok(Sequence::new(Vec::from_slice(self.allocator(), self.items())?))
    }
}
