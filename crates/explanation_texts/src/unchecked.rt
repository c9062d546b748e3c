// The fields of an ELF file as they stand, for words on a file that the reader refused. Nothing is checked.
mod code_symbols;
mod names;
mod records;
mod section_map;

pub use code_symbols::CodeSymbols;
pub use names::NameNumbers;
pub use records::{RawRelocation, RawSection, RawSegment, RawSymbol, UncheckedFile};
pub use section_map::SectionMap;
