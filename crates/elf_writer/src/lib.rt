//! Writes an ELF file anew, with patched words, moved symbols and one more segment.
#![tactic(auto)]

mod changing;
mod laws;
mod parts;
mod pieces;
mod program_headers;
mod writing;

pub use laws::{
    bytes_written, changed_bytes_loaded, new_bytes_loaded, others_loaded, others_stay,
    others_untouched, patches_loaded, ranges_written, untouched_stay, words_loaded, written_faults,
    written_is_file, written_reads_back, zeros_loaded,
};
pub use parts::{Patch, SegmentBytes, SymbolMove};
pub use pieces::{padding_after, push_words, push_zeros};
pub use writing::write;
