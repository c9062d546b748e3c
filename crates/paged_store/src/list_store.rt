use crate::byte_store::ByteStore;
use std::alloc::{AllocError, Global};

/// A byte with its address.
#[derive(Clone, Copy)]
struct Entry {
    at: u32,
    byte: u8,
}

/// A store as a list of entries, for small memories: each call walks the list.
#[derive(Drop)]
pub struct ListStore {
    entries: Vec<Entry>,
}

impl ListStore {
    ghost use Rattle.std.specs.Prelude.{◌≡◌, IsTrue, IsOk, IfOk};
    ghost use Rattle.rv32im.specs.Memory.{zeros};
    ghost use Rattle.paged_store.specs.{Entries.{bytes_of, has_entry, place_of}, Room.{RoomGrows}};

    /// The store of zeros. It takes no memory.
    pub fn new(alloc: Global) -> ListStore
        ensures { ⟦<ListStore as ByteStore>⟧.byte_at result ≡ zeros }
    {
        ListStore {
            entries: Vec::new(alloc),
        }
    }

    /// The index of an address's entry, if it has one.
    fn find(&self, at: u32) -> Option<usize>
        ensures { result ≡ place_of self.now.entries.items at }
    {
        self.entries.iter().position(|e| e.at == at)
    }

    /// The index of an address's entry, which is made where there is none.
    fn find_or_push(&mut self, at: u32) -> Result<usize, AllocError>
        ensures place { IfOk result (λ i. place_of self.new.entries.items at ≡ Some i) }
        ensures bytes { bytes_of self.new.entries.items ≡ bytes_of self.old.entries.items }
        ensures fits { IsTrue (has_entry self.old.entries.items at) → IsOk result }
        ensures grows { RoomGrows (has_entry self.old.entries.items)
            (has_entry self.new.entries.items) }
    {
        let end = self.entries.len();
        match self.find(at) {
            Some(i) => Ok(i),
            None => {
                self.entries.push(Entry { at, byte: 0 })?;
                Ok(end)
            }
        }
    }
}

impl ByteStore for ListStore {
    ghost use Rattle.paged_store.specs.Entries.{bytes_of, has_entry};

    ghost byte_at = { λ s. bytes_of s.entries.items };

    ghost has_room = { λ s. has_entry s.entries.items };

    fn get(&self, at: u32) -> u8 {
        match self.find(at) {
            Some(i) => self.entries[i].byte,
            None => 0,
        }
    }

    fn room(&mut self, at: u32, n: u32) -> Result<(), AllocError> {
        for k in 0..n {
            self.find_or_push(at.wrapping_add(k))?;
        }
        Ok(())
    }

    fn set(&mut self, at: u32, byte: u8) -> Result<(), AllocError> {
        let i = self.find_or_push(at)?;
        self.entries[i] = Entry { at, byte };
        Ok(())
    }
}
