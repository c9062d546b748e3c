use crate::unchecked::records::UncheckedFile;
use std::alloc::{AllocError, Global};
use std::collections::BTreeMap;

/// Names of a file, each with a number. Those of the same bytes have the same one. A name is read once, however many records
/// share it.
#[derive(Drop)]
pub struct NameNumbers<'a> {
    file: UncheckedFile<'a>,
    /// The number of the name that begins at a place in the file, of each that was asked for.
    by_place: BTreeMap<u32, usize>,
    /// The number of each name. Names of other lengths are told apart by these.
    by_name: BTreeMap<(usize, &'a [u8]), usize>,
}

impl<'a> NameNumbers<'a> {
    /// No names of a file.
    pub fn of(alloc: Global, file: &UncheckedFile<'a>) -> NameNumbers<'a> {
        NameNumbers {
            file: *file,
            by_place: BTreeMap::new(alloc),
            by_name: BTreeMap::new(alloc),
        }
    }

    /// The number of the name that begins at a place in the file. It fails only where no memory was left.
    pub fn number_at(&mut self, place: u32) -> Result<usize, AllocError> {
        if let Some(number) = self.by_place.get(&place) {
            return Ok(*number);
        }
        let name = self.file.text(place);
        let number = match self.number_of(name) {
            Some(number) => number,
            None => {
                let next = self.by_name.len();
                self.by_name.insert((name.len(), name), next)?;
                next
            }
        };
        self.by_place.insert(place, number)?;
        Ok(number)
    }

    /// The number of a name, if it has one.
    pub fn number_of(&self, name: &'a [u8]) -> Option<usize> {
        self.by_name.get(&(name.len(), name)).copied()
    }
}
