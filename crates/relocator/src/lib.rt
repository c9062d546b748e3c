//! Where what is taken of a programme stands in the scratchpad, and the words that make and hold the addresses of
//! objects there.
#![tactic(auto)]

mod items;
mod laws;
mod places;
mod rewriting;
mod slots;
mod table;
mod words;

pub use items::Item;
pub use laws::{
    homes_off_scratchpad, objects_in_slots, objects_off_code_slots, objects_stand, places_fit,
    slots_apart, slots_disjoint, slots_inside, table_has_space, twins_of_pairs,
    whole_side_has_space,
};
pub use places::{Places, layout};
pub use slots::Slot;
pub use words::site_words;
