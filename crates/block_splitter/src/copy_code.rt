/// The copy of a piece.
#[derive(Drop)]
pub struct CopyCode {
    /// Its words.
    pub words: Vec<u32>,
    /// Where the copy of each of its blocks begins, in bytes from the beginning.
    pub starts: Vec<u32>,
}
