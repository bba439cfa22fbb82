ghost use Rattle.std.specs.Iterator.{YieldsFirstRef, item_count};

use asc_base::Entry;
use std::marker::Model;

/// The entries of a stash that are still to come, in order of arrival.
#[derive(Drop)]
pub struct Entries<'a> {
    rest: &'a [Entry],
}

impl<'a> Model for Entries<'a> {
    ghost use Rattle.std.specs.Prelude.{List};
    ghost use Rattle.asc_base.specs.declared.block.Entry.{Entry as EntryValue};

    ghost Value = { List EntryValue };

    ghost view = { λ entries. entries.rest.now };
}

impl<'a> Entries<'a> {
    ghost use Rattle.std.specs.Prelude.{◌≡◌};

    /// All these entries are still to come.
    pub(crate) fn over(rest: &'a [Entry]) -> Entries<'a>
        ensures { result ≡ rest.now }
    {
        Entries { rest }
    }
}

impl<'a> Iterator for Entries<'a> {
    type Item = &'a Entry;

    ghost next_gives = { YieldsFirstRef (λ entries. entries) };

    ghost remaining = { item_count (λ entries. entries) };

    fn next(&mut self) -> Option<&'a Entry> {
        let (first, others) = self.rest.split_first()?;
        self.rest = others;
        Some(first)
    }
}
