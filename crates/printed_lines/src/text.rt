//! Texts that are made before they are printed.

use std::alloc::AllocError;
use std::mem::replace;

/// The least length in bytes of a name that stays where it is. A shorter one takes less memory if it is copied.
const LONG_NAME: usize = 1024;

/// Bytes of a text, and the long name behind them.
#[derive(Drop)]
pub struct NamedPart<'a> {
    pub before: Vec<u8>,
    pub name: &'a [u8],
}

/// A text to print. Its long names stay where the file holds them: one that many lines end in costs its length once.
#[derive(Drop)]
pub struct Text<'a> {
    /// The parts that end in a long name, one after the other.
    pub parts: Vec<NamedPart<'a>>,
    /// The bytes behind the last long name.
    pub rest: Vec<u8>,
}

impl<'a> Text<'a> {
    ghost use Rattle.std.specs.Prelude.{◌≡◌, ◌++◌, OnOk};
    ghost use Rattle.printed_lines.specs.Texts.{text_of};

    /// A text of these bytes.
    #[tactic(auto, unfolding(crate::specs::Texts::text_of))]
    pub fn plain(bytes: Vec<u8>) -> Text<'a>
        ensures { text_of result ≡ bytes.items }
    {
        Text {
            parts: Vec::new(*bytes.allocator()),
            rest: bytes,
        }
    }

    /// Adds bytes. It fails only where no memory was left.
    #[tactic(auto, unfolding(crate::specs::Texts::text_of))]
    pub fn push(&mut self, bytes: &[u8]) -> Result<(), AllocError>
        ensures { OnOk result (text_of self.new ≡ text_of self.old ++ bytes.now) }
    {
        self.rest.extend_from_slice(bytes)
    }

    /// Adds a name, which isn't copied if it is long. It fails only where no memory was left.
    #[tactic(auto, unfolding(crate::specs::Texts::text_of))]
    pub fn push_name(&mut self, name: &'a [u8]) -> Result<(), AllocError>
        ensures { OnOk result (text_of self.new ≡ text_of self.old ++ name.now) }
    {
        if name.len() < LONG_NAME {
            return self.push(name);
        }
        let alloc = *self.rest.allocator();
        let before = replace(&mut self.rest, Vec::new(alloc));
        self.parts.push(NamedPart { before, name })?;
        Ok(())
    }
}
