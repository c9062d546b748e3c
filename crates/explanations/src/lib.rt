//! Which explanation is due behind a command: from its words, its status, and what it read and made.
#![tactic(auto)]

mod explainer;
mod explaining;
mod inputs;
mod inward;
mod paying;
mod unread;

pub use command_line::{is_seen_safe, run, run_command};
pub use explainer::Explainer;
pub use explanation_texts::Terminal;
