/// An edge of a node leads to another node, and lets some marks pass.
#[derive(Clone, Copy)]
pub struct Edge {
    /// The node to which it leads.
    pub to: u32,
    /// The marks that pass: mark `k` is bit `k`, from 0 to 63.
    pub mask: u64,
}
