//! What code may be copied into the scratchpad, and the words of its copy.
#![tactic(auto)]

mod block_form;
mod block_range;
mod building;
mod candidates;
mod copy_code;
mod copy_lookups;
mod copy_plan;
mod copy_starts;
mod copying;
mod displacing;
mod finding;
mod forms;
mod kinds;
mod measuring;
mod piece;
mod reaching;
mod registers;
mod sequences;
mod sources;
mod table;
mod unit_copies;
mod unit_kind;
mod words;

pub use block_range::BlockRange;
pub use copy_code::CopyCode;
pub use copying::copy_of;
pub use displacing::displaced;
pub use finding::pieces;
pub use kinds::{copy_size, kind_of};
pub use measuring::{Extent, extent_of};
pub use piece::Piece;
pub use reaching::can_displace;
pub use unit_kind::UnitKind;
