//! The board file: the memory of a board, its prices, and what of a program may move.
#![tactic(auto)]

mod board;
mod limits;
mod memory_keys;
mod moving_keys;
mod price_keys;
mod reading;
mod unknown_keys;
mod values;
mod work_keys;

pub use board::{Board, BoardFault, Prices, Range};
pub use reading::read_board;
