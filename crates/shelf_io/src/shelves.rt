//! A shelf keeps bytes under names, as a folder keeps files. A call may fail at any time.
ghost use Rattle.std.specs.Prelude.{◌≡◌};
ghost use Rattle.shelf_io.specs.{declared.shelves.ShelfFault.TheVariants.{Memory}, Shelf.{ShelfView, Reads, ReadLeaves, WriteLeaves}};

use std::alloc::{AllocError, AllocFailed, Global};
use thiserror::Error;

/// Why a call of a shelf has no answer.
#[derive(Clone, Copy, Debug, Error)]
pub enum ShelfFault {
    /// The outside failed. The shelf's list of failed calls has this call.
    #[error("the call failed")]
    Failed,
    /// Memory was wanting.
    #[error("out of memory")]
    Memory,
}

impl From<AllocError> for ShelfFault {
    ghost from_gives = { λ _ fault. fault ≡ Memory };

    fn from(_error: AllocError) -> ShelfFault {
        ShelfFault::Memory
    }
}

impl<T: Drop> From<AllocFailed<T>> for ShelfFault {
    ghost from_gives = { λ _ fault. fault ≡ Memory };

    fn from(_error: AllocFailed<T>) -> ShelfFault {
        ShelfFault::Memory
    }
}

/// What a call of a shelf does.
#[derive(Clone, Copy)]
pub enum CallKind {
    /// [`Shelf::read`].
    Read,
    /// [`Shelf::write`].
    Write,
}

/// Bytes under names, as a folder keeps them in files.
pub trait Shelf {
    /// What is to be seen of the shelf: what it tells of each name, the failed calls, and how many
    /// writes wanted memory in vain. At 2^64 - 1 that count stays.
    ghost view: { Self → ShelfView };

    /// Reads the bytes under a name, and changes no content. A missing name is a fault. `Failed`
    /// comes only with an entry in the list of failed calls.
    fn read(&mut self, alloc: Global, name: &str) -> Result<Vec<u8>, ShelfFault>
        ensures bytes { Reads name.now result (view self.old) }
        ensures leaves { ReadLeaves name.now result (view self.old) (view self.new) };

    /// Sets the bytes under a name, and of no other. After `Failed`, which comes only with an entry
    /// in the list of failed calls, nothing is known of that name. After `Memory`, which comes only
    /// where the count of wants rose, nothing changed.
    fn write(&mut self, name: &str, bytes: &[u8]) -> Result<(), ShelfFault>
        ensures { WriteLeaves name.now bytes.now result (view self.old) (view self.new) };
}
