//! The position of a name among others.

ghost use Rattle.std.specs.Prelude.{◌≡◌, ◌<◌, ◌^◌, length, IfOk};
ghost use Rattle.std.specs.Option.{ForSome};
ghost use Rattle.std.specs.List.{position};
ghost use Rattle.std.specs.Str.{bytes_eq};
ghost use Rattle.proc_lang.specs.Indexes.{Finds};

use dbg_base::Name;
use dbg_base::limits::PROCESSES;
use std::alloc::{AllocError, Global};
use std::collections::BTreeMap;

/// The position of the name among these, if it is one of them.
pub(crate) fn place(names: &[Name], name: &Name) -> Option<usize>
    ensures { result ≡ position (λ other. bytes_eq other name.now) names.now }
{
    names.iter().position(|other| *other == *name)
}

// The first position of each name, in the order of the names' bytes. No choice of names makes a look-up slow.
fn first_places<'a>(alloc: Global, names: &'a [Name]) -> Result<BTreeMap<&'a [u8], u32>, AllocError>
    requires { length names.now < 2 ^ 32 }
    ensures { IfOk result (λ index. Finds index names.now) }
{
    let mut index = BTreeMap::new(alloc);
    for (i, name) in names.iter().enumerate() {
        if !index.contains_key(name.bytes()) {
            index.insert(name.bytes(), i as u32)?;
        }
    }
    Ok(index)
}

// An index of these names, if they exceed the limit of processes. Otherwise it does not allocate.
fn index<'a>(
    alloc: Global,
    names: &'a [Name],
) -> Result<Option<BTreeMap<&'a [u8], u32>>, AllocError>
    requires { length names.now < 2 ^ 32 }
    ensures { IfOk result (λ index. ForSome index (λ index. Finds index names.now)) }
{
    if names.len() <= PROCESSES {
        return Ok(None);
    }
    Ok(Some(first_places(alloc, names)?))
}

/// The names of all parsed processes. A text that is refused may have many thousands of processes, and use their names as often. If they
/// exceed the limit of processes, an index finds them.
#[derive(Drop)]
pub(crate) struct ProcessNames<'a> {
    pub(crate) all: &'a [Name],
    index: Option<BTreeMap<&'a [u8], u32>>,
    ghost few: { length all.now < 2 ^ 32 },
    ghost finds: { ForSome index (λ index. Finds index all.now) },
}

impl<'a> ProcessNames<'a> {
    /// These names. It does not allocate if they are within the limit of processes.
    pub(crate) fn new(alloc: Global, all: &'a [Name]) -> Result<ProcessNames<'a>, AllocError>
        requires { length all.now < 2 ^ 32 }
        ensures { IfOk result (λ names. names.all.now ≡ all.now) }
    {
        let index = index(alloc, all)?;
        Ok(ProcessNames { all, index })
    }

    /// The position of the name among these, if it is one of them.
    pub(crate) fn place(&self, name: &Name) -> Option<usize>
        ensures { result ≡ position (λ other. bytes_eq other name.now) self.now.all.now }
    {
        match &self.index {
            Some(index) => Some(*index.get(name.bytes())? as usize),
            None => place(self.all, name),
        }
    }
}
