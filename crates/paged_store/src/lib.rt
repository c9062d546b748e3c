//! Byte memories: a byte at each 32-bit address, 0 where none was ever put.
#![tactic(auto)]

mod byte_store;
mod list_store;
mod page_store;
mod spans;

pub use byte_store::ByteStore;
pub use list_store::ListStore;
pub use page_store::PageStore;
pub use spans::append_span;
