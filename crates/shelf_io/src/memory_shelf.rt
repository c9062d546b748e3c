//! A shelf in memory, whose failing calls are chosen beforehand.
ghost use Rattle.std.specs.Prelude.{◌≡◌, ℕ, List, [], IsSome, IfOk, IsOkUnless};
ghost use Rattle.shelf_io.specs.Entries.{content_of, map_bytes};

use crate::fault_log::FaultLog;
use crate::shelves::{CallKind, Shelf, ShelfFault};
use std::alloc::{AllocError, Global};
use std::collections::BTreeMap;

/// A shelf in memory. It fails at the calls that it was told beforehand, counted from 0.
#[derive(Drop)]
pub struct MemShelf {
    entries: BTreeMap<String, Vec<u8>>,
    failing: Vec<u64>,
    calls: u64,
    log: FaultLog,
}

impl MemShelf {
    ghost use Rattle.shelf_io.specs.{Counts.{next_count}, MemShelf.{IsMade, shelf_view, fails_next, calls_made, AnswersWrite, StoreLeaves, CountsCall}};

    /// A shelf that holds these entries, and fails at the listed calls. A second entry of a name
    /// replaces the first.
    pub fn new(
        alloc: Global,
        entries: Vec<(String, Vec<u8>)>,
        failing: Vec<u64>,
    ) -> Result<MemShelf, AllocError>
        ensures { IfOk result (λ shelf. IsMade shelf entries.items failing.items) }
    {
        Ok(MemShelf {
            entries: entries_by_name(alloc, entries)?,
            failing,
            calls: 0,
            log: FaultLog::new(alloc),
        })
    }

    /// A shelf that holds these entries, and fails only where a read's name is missing.
    pub fn sound(alloc: Global, entries: Vec<(String, Vec<u8>)>) -> Result<MemShelf, AllocError>
        ensures { IfOk result (λ shelf. IsMade shelf entries.items []) }
    {
        MemShelf::new(alloc, entries, Vec::new(alloc))
    }

    /// Counts a call, and says whether it is listed as failing.
    fn count_call(&mut self) -> bool
        ensures listed { result ≡ fails_next self.old }
        ensures count { self.new ≡ record self.old { calls = next_count (calls_made self.old) } }
    {
        let is_listed = self.failing.contains(&self.calls);
        self.calls = self.calls.saturating_add(1);
        is_listed
    }

    /// Stores bytes under a name. Want of memory isn't counted here.
    fn store(&mut self, name: &str, bytes: &[u8]) -> Result<(), ShelfFault>
        ensures answer { AnswersWrite (fails_next self.old) result }
        ensures leaves { StoreLeaves name.now bytes.now result (shelf_view self.old) (shelf_view self.new) }
        ensures count { CountsCall self.old self.new }
    {
        let is_listed = self.count_call();
        let entry = self.log.entry(CallKind::Write, name)?;
        if is_listed {
            self.log.push(entry);
            return Err(ShelfFault::Failed);
        }
        let alloc = self.log.alloc();
        let key = String::from_str(alloc, name)?;
        self.entries.insert(key, Vec::from_slice(alloc, bytes)?)?;
        Ok(())
    }
}

impl Shelf for MemShelf {
    ghost use Rattle.shelf_io.specs.{Shelf.{Reads, ReadLeaves, WriteLeaves}, MemShelf.{held_bytes, failing_calls, shelf_view, readable_bytes, fails_next, AnswersRead, AnswersWrite, CountsCall}};

    ghost view = { λ shelf. shelf_view shelf };

    fn read(&mut self, alloc: Global, name: &str) -> Result<Vec<u8>, ShelfFault>
        ensures answer { AnswersRead (readable_bytes self.old name.now) result }
        ensures sound { failing_calls self.old ≡ [] → IsSome (held_bytes self.old name.now) → IsOkUnless result ShelfFault.Memory }
        ensures leaves { ReadLeaves name.now result (shelf_view self.old) (shelf_view self.new) }
        ensures count { CountsCall self.old self.new }
    {
        let is_listed = self.count_call();
        let entry = self.log.entry(CallKind::Read, name)?;
        match self.entries.get(name) {
            Some(bytes) if !is_listed => Ok(Vec::from_slice(alloc, bytes)?),
            _ => {
                self.log.push(entry);
                Err(ShelfFault::Failed)
            }
        }
    }

    fn write(&mut self, name: &str, bytes: &[u8]) -> Result<(), ShelfFault>
        ensures answer { AnswersWrite (fails_next self.old) result }
        ensures leaves { WriteLeaves name.now bytes.now result (shelf_view self.old) (shelf_view self.new) }
        ensures count { CountsCall self.old self.new }
    {
        match self.store(name, bytes) {
            Ok(()) => Ok(()),
            Err(ShelfFault::Failed) => Err(ShelfFault::Failed),
            Err(ShelfFault::Memory) => {
                self.log.count_want();
                Err(ShelfFault::Memory)
            }
        }
    }
}

/// The entries in a map, the last entry of each name.
fn entries_by_name(
    alloc: Global,
    entries: Vec<(String, Vec<u8>)>,
) -> Result<BTreeMap<String, Vec<u8>>, AllocError>
    ensures { IfOk result (λ map. (name : List ℕ) → map_bytes map name ≡ content_of entries.items name) }
{
    let mut map = BTreeMap::new(alloc);
    for (name, bytes) in entries {
        map.insert(name, bytes)?;
    }
    Ok(map)
}
