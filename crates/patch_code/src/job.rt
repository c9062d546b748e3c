/// Copies `bytes` bytes from one address to another.
#[derive(Clone, Copy, PartialEq, Eq)]
pub struct CopyJob {
    pub from: u32,
    pub to: u32,
    pub bytes: u32,
}
