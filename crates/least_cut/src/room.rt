//! Copies that have as much room as the original, and room in advance.

ghost use Rattle.std.specs.Prelude.{◌≡◌, ◌≤◌, IfOk, OnOk};
ghost use Rattle.std.specs.Vec.{vec_capacity};

use std::alloc::AllocError;

/// Copies the items, with as much room. Error: out of memory.
pub(crate) fn copy_items<T: Copy>(items: &Vec<T>) -> Result<Vec<T>, AllocError>
    ensures items { IfOk result (λ made. made.items ≡ items.now.items) }
    ensures room { IfOk result (λ made. vec_capacity made ≡ vec_capacity items.now) }
{
    let mut made = Vec::with_capacity(*items.allocator(), items.capacity())?;
    for item in items {
        made.push_reserved(*item);
    }
    Ok(made)
}

/// Makes room for so many items in total. No room is lost, and the items stay, also on an error. With enough room it is one comparison.
pub(crate) fn reserve_total<T>(items: &mut Vec<T>, total: usize) -> Result<(), AllocError>
    ensures items { items.new.items ≡ items.old.items }
    ensures grows { vec_capacity items.old ≤ vec_capacity items.new }
    ensures ok { OnOk result (total ≤ vec_capacity items.new) }
{
    if total <= items.capacity() {
        return Ok(());
    }
    items.reserve(total.saturating_sub(items.len()))
}
