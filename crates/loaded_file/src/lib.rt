//! Of a file: which sections are loaded, which words are code, which relocations count, and the ranges of its objects.
#![tactic(auto)]

mod byte_ranges;
mod code_ranges;
mod code_words;
mod contents;
mod file;
mod loaded;
mod overlaps;
mod reaches;
mod records;
mod symbol_ranges;

pub use byte_ranges::ByteRange;
pub use code_ranges::{is_code_range, is_code_word};
pub use code_words::{code_word, content_word, word_in, word_of_code};
pub use file::LoadedFile;
pub use overlaps::overlapped;
pub use reaches::{Reach, SectionKind};
pub use records::{counts, symbol_value, target};
pub use symbol_ranges::{has_range, object_ranges};
