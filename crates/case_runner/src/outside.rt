//! The outside of a case, in memory: its files, and what its calls print.

use crate::lists::Case;
use explanations::{Explainer, run, run_command};
use shelf_io::{MemShelf, MemSink, NoProgress, Shelf};
use std::alloc::{AllocError, Global};
use std::collections::BTreeMap;

/// The most bytes that the calls of a case may print together.
const PRINTED_LIMIT: usize = 1 << 20;

/// Files and what was printed.
#[derive(Drop)]
pub struct Outside {
    alloc: Global,
    shelf: MemShelf,
    sink: MemSink,
    /// How many bytes were printed before the last call.
    before: usize,
}

impl Outside {
    /// An outside with these files, which fails where the case says.
    pub fn new(
        alloc: Global,
        files: &BTreeMap<String, Vec<u8>>,
        case: &Case,
    ) -> Result<Outside, AllocError> {
        let mut entries = Vec::new(alloc);
        for (name, bytes) in files {
            entries.push((name.clone()?, bytes.clone()?))?;
        }
        Ok(Outside {
            alloc,
            shelf: MemShelf::new(alloc, entries, case.failing_calls.clone()?)?,
            sink: MemSink::new(
                Vec::with_capacity(alloc, PRINTED_LIMIT)?,
                case.failing_puts.clone()?,
            ),
            before: 0,
        })
    }

    /// Does what the words of a command line ask for, and gives its status.
    pub fn call(&mut self, words: &[String]) -> u8 {
        self.before = self.sink.bytes().len();
        run(self.alloc, words, &mut self.shelf, &mut self.sink)
    }

    /// Does what the words of a command line ask for, and gives its status and what standard error says of it.
    pub fn explained_call(&mut self, words: &[String]) -> (u8, Vec<u8>) {
        self.before = self.sink.bytes().len();
        let mut explainer = Explainer::new(self.alloc, words);
        let outcome = run_command(
            self.alloc,
            words,
            &mut self.shelf,
            &mut self.sink,
            &mut explainer,
            &NoProgress,
        );
        (outcome.status, explainer.into_text(outcome.status, None))
    }

    /// What the last call printed.
    pub fn printed(&self) -> &[u8] {
        self.sink.bytes().get(self.before..).unwrap_or_default()
    }

    /// What stands under a name, or `None` where nothing does.
    pub fn content(&mut self, name: &str) -> Option<Vec<u8>> {
        self.shelf.read(self.alloc, name).ok()
    }
}
