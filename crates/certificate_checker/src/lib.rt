//! Certificates: trees that show that no feasible choice of a programme gains more than one that is given, and their check.
//!
//! A tree splits a side's choices by variables until each part is closed by a rule: a row that is exceeded, multipliers
//! that bound the gain, or nothing left to fix. The check trusts nobody who made the tree.
#![tactic(auto)]

mod assembling;
mod assignments;
mod columns;
mod crediting;
mod digits;
mod dual_prices;
mod duals;
mod fault;
mod fields;
mod fixings;
mod laws;
mod loading;
mod loads;
mod nodes;
mod prices;
mod rooms;
mod row_wise;
mod rules;
mod skipping;
mod steps;
mod taking;
mod tallied_rules;
mod tallying;
mod tasks;
mod text_checking;
mod text_trees;
mod text_walk;
mod trees;
mod verdict;
mod walking;
mod writing;

pub use assembling::tree_of;
pub use assignments::Assignment;
pub use columns::{gain_of_var, var_count, weights_of_var};
pub use dual_prices::DualPrices;
pub use duals::{Weighed, dual_holds_by_row};
pub use fault::CertFault;
pub use fixings::{Fixing, fixing_of, free_marks, is_free, is_one};
pub use laws::{one_answer, one_certificate, one_text, reads_spelled, shown_is_least};
pub use nodes::TreeNode;
pub use prices::Priced;
pub use rooms::Room;
pub use row_wise::RowWise;
pub use rules::{branch_holds, leaf_holds, over_holds};
pub use steps::PathStep;
pub use text_checking::{accepted, check_text};
pub use trees::{Certificate, Tree};
pub use verdict::Verdict;
pub use writing::write_tree;
