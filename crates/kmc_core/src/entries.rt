ghost use Rattle.std.specs.Prelude.{◌≡◌, ◌++◌, ◌∷◌, [], OnOk, OnErr};
ghost use Rattle.kmc_base.specs.Entries.{least as least_of, firing_of, first_of_two};

use kmc_base::{Entry, Firing, OutOfMemory, When};
use std::alloc::Global;
use std::marker::Model;

/// Entries, of which the firing that comes first is known. A contract sees them as their list.
#[derive(Debug, Drop)]
pub(crate) struct Entries {
    items: Vec<Entry>,
    least: Option<Firing>,
}

impl Model for Entries {
    ghost use Rattle.std.specs.Prelude.{◌≡◌, List};
    ghost use Rattle.kmc_base.specs.Entries.{least as least_of};
    ghost use Rattle.kmc_base.specs.declared.entry.Entry.{Entry};

    ghost Value = { List Entry };

    ghost view = { λ e. e.items.items };

    ghost invariant = { λ e. e.least ≡ least_of e.items.items };
}

/// The firing of an entry that has a time.
fn firing(entry: &Entry) -> Option<Firing>
    ensures { result ≡ firing_of entry.now }
{
    match entry.when {
        When::At(time) => Some(Firing {
            time,
            code: entry.code,
        }),
        When::Never => None,
    }
}

/// The one of two that comes first, if there is one.
fn first(a: Option<Firing>, b: Option<Firing>) -> Option<Firing>
    ensures { result ≡ first_of_two a b }
{
    match (a, b) {
        (None, b) => b,
        (a, None) => a,
        (Some(a), Some(b)) => Some(if b < a { b } else { a }),
    }
}

impl Entries {
    /// No entries. It takes no memory.
    pub(crate) fn none(alloc: Global) -> Entries
        ensures { result ≡ [] }
    {
        Entries {
            items: Vec::new(alloc),
            least: None,
        }
    }

    /// Takes all entries out. Their memory is kept.
    pub(crate) fn clear(&mut self)
        ensures { self.new ≡ [] }
    {
        self.items.clear();
        self.least = None;
    }

    /// Takes memory for so many entries more.
    pub(crate) fn reserve(&mut self, count: usize) -> Result<(), OutOfMemory>
        ensures { self.new ≡ self.old }
    {
        Ok(self.items.reserve(count)?)
    }

    /// Adds an entry at the end.
    pub(crate) fn push(&mut self, entry: Entry) -> Result<(), OutOfMemory>
        ensures ok { OnOk result (self.new ≡ self.old ++ entry ∷ []) }
        ensures err { OnErr result (self.new ≡ self.old) }
    {
        self.items.push(entry)?;
        self.least = first(self.least, firing(&entry));
        Ok(())
    }

    /// The entries in their order.
    pub(crate) fn as_slice(&self) -> &[Entry]
        ensures { result.now ≡ self.now }
    {
        self.items.as_slice()
    }

    /// The firing that comes first among the entries that have a time.
    pub(crate) fn least(&self) -> Option<Firing>
        ensures { result ≡ least_of self.now }
    {
        self.least
    }
}
