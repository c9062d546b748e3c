use std::alloc::Global;

/// What stands under the names that a command reads.
#[derive(Clone, Copy)]
pub struct InputTexts<'a> {
    /// Where what is made of them takes memory.
    pub alloc: Global,
    /// Under those of its words, in the order of the reads: all, or those before the first that could not be read.
    pub texts: &'a [Vec<u8>],
    /// Under those that its MIX lists, likewise.
    pub listed: &'a [Vec<u8>],
}
