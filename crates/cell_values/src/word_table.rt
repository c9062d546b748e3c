ghost use Rattle.std.specs.Prelude.{◌≡◌, ℕ, ◌+◌, ◌/◌, ◌==◌, if◌then◌else◌, Some, None, IsTrue, IsSome, IsOk, OnOk, OnErr};
ghost use Rattle.paged_store.specs.Pages.{paged_bytes};
ghost use Rattle.cell_values.specs.Entries.{place_of, AreInside, AreApart};

use paged_store::{ByteStore, PageStore};
use std::alloc::{AllocError, Global};

/// Entries for words of memory. A word that has one keeps its place.
#[derive(Drop)]
pub(crate) struct WordTable<T> {
    // at the address of each word 0, or the place of its entry, counted from 1
    index: PageStore,
    entries: Vec<T>,
    ghost inside: { AreInside entries.items (paged_bytes index.directory.items index.bytes.items) },
    ghost apart: { AreApart (paged_bytes index.directory.items index.bytes.items) },
}

impl<T: Copy> WordTable<T> {
    ghost use Rattle.cell_values.specs.Rows.{entry_at};

    /// The table without entries. It takes no memory.
    #[tactic(auto, unfolding(crate::specs::Rows::entry_at))]
    pub(crate) fn new(alloc: Global) -> WordTable<T>
        ensures { (w : ℕ) → entry_at result w ≡ None }
    {
        WordTable {
            index: PageStore::new(alloc),
            entries: Vec::new(alloc),
        }
    }

    /// The entry of the word of an address.
    #[inline(always)]
    #[tactic(auto, unfolding(crate::specs::Rows::entry_at))]
    pub(crate) fn get(&self, at: u32) -> Option<T>
        ensures { result ≡ entry_at self.now (at / 4) }
    {
        if self.entries.is_empty() {
            return None;
        }
        match self.index.get_word(at / 4 * 4) {
            0 => None,
            place => Some(self.entries[place as usize - 1]),
        }
    }

    /// Puts the entry of the word of an address. Where it has one already it is `Ok`.
    #[inline(always)]
    #[tactic(auto, unfolding(crate::specs::Rows::entry_at))]
    pub(crate) fn set(&mut self, at: u32, entry: T) -> Result<(), AllocError>
        ensures ok { OnOk result ((w : ℕ) → entry_at self.new w ≡ (if w == at / 4 then Some entry else entry_at self.old w)) }
        ensures err { OnErr result ((w : ℕ) → entry_at self.new w ≡ entry_at self.old w) }
        ensures fits { IsSome (entry_at self.old (at / 4)) → IsOk result }
    {
        match self.index.get_word(at / 4 * 4) {
            0 => self.add(at, entry),
            place => {
                self.entries[place as usize - 1] = entry;
                Ok(())
            }
        }
    }

    /// Puts the entry of a word that has none.
    #[cold]
    #[inline(never)]
    #[tactic(auto, unfolding(crate::specs::Rows::entry_at))]
    fn add(&mut self, at: u32, entry: T) -> Result<(), AllocError>
        requires { place_of (paged_bytes self.old.index.directory.items self.old.index.bytes.items) (at / 4) ≡ 0 }
        ensures ok { OnOk result ((w : ℕ) → entry_at self.new w ≡ (if w == at / 4 then Some entry else entry_at self.old w)) }
        ensures err { OnErr result ((w : ℕ) → entry_at self.new w ≡ entry_at self.old w) }
    {
        // there are fewer words than numbers
        let Ok(place) = u32::try_from(self.entries.len() + 1) else {
            return Err(AllocError);
        };
        self.entries.push(entry)?;
        match self.index.set_word(at / 4 * 4, place) {
            Ok(()) => Ok(()),
            Err(error) => Err(error),
        }
    }
}
