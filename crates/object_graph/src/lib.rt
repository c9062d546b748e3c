//! The objects of a program that may move, where their addresses are made, and whether the program fits a board.
#![tactic(auto)]

mod aliasing;
mod building;
mod changing_memory;
mod code;
mod cover;
mod data_words;
mod disjoint;
mod fault;
mod fields;
mod fixed_memory;
mod kinds;
mod laws;
mod layout;
mod leads;
mod listing;
mod lists;
mod lookups;
mod mapped_memory;
mod meaning;
mod naming;
mod objects;
mod pairs;
mod parts;
mod placed;
mod range_marks;
mod ranges;
mod remaining_spans;
mod rewritable_marks;
mod rewritable_words;
mod shared_words;
mod sharing;
mod sites;
mod soundness;
mod span_bounds;
mod span_lookup;
mod span_search;
mod spans;
mod standing;
mod top;

pub use aliasing::is_alias;
pub use building::graph;
pub use code::code_ranges;
pub use fault::GraphFault;
pub use fixed_memory::fixed_ranges;
pub use kinds::{is_hint, is_pair_low};
pub use laws::{
    data_off_code, data_words_lead, high_sites_lead, low_sites_lead, low_stores_lead,
    objects_disjoint, objects_off_code, one_object_a_site, one_offset_a_site, paired_sites_lead,
    sites_disjoint,
};
pub use meaning::{meant_range, place_of_symbol};
pub use parts::{DataWord, Graph, Object, Site, SiteKind};
pub use rewritable_marks::{is_rewritable, rewritable_kinds};
pub use span_lookup::lies_in_some;
pub use top::movable_ranges;
