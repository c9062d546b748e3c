//! The basic blocks of a program's code: where they begin and how they end, which words are calls, and its functions.
#![tactic(auto)]

mod building;
mod candidates;
mod early;
mod edges;
mod ends;
mod fault;
mod flow;
mod functions_kept;
mod laws;
mod lists;
mod meanings;
mod pairs;
mod parts;
mod ranges;
mod search;
mod steps;
mod strata;
mod targets;
mod texts;
mod walking;

pub use building::blocks;
pub use early::early_leaders;
pub use ends::End;
pub use fault::CodeFault;
pub use functions_kept::function_of;
pub use laws::{
    indirect_leaders_are_leaders, leaders_are_code, meaning_is_decided, pairs_are_code,
};
pub use lists::Leaders;
pub use meanings::{has_meaning, is_auipc, is_branch, is_ebreak, is_jal, is_jalr, links};
pub use parts::{Block, Code, Function, Unit};
pub use search::has_address;
pub use strata::leaders;
pub use targets::{branch_target, jal_target, pair_target};
