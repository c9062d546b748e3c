//! Values that may be addresses of objects without a place: operations on them, cells of memory that hold them, a store of
//! cells, and the words that values stand for where the objects are placed.
#![tactic(auto)]

mod cells;
mod comparisons;
mod laws;
mod marks;
mod operations;
mod places;
mod store;
mod values;
mod word_laws;
mod word_table;

use cells::reloaded;
pub use cells::{join, split};
pub use comparisons::compare;
pub use laws::{immediates_are_numbers, operations_keep_words, split_joins};
pub use operations::{op_imm, op_reg};
pub use places::low_site;
pub use store::CellStore;
pub use values::{Cell, Val};
pub use word_laws::{
    cells_keep_words, comparisons_stand, halves_stand, immediates_stand, join_stands,
    kept_uppers_make, low_sites_stand, moved_uppers_make, operations_stand, paired_sites_stand,
    pieces_stand, sites_keep_words, split_stands,
};
