use certificate_checker::TreeNode;

/// What the visit of a node finds.
#[derive(Drop)]
pub(crate) enum Visit {
    /// Nothing below gains more, as this node shows.
    Closed(TreeNode),
    /// The search branches on the variable at this place of the order.
    Open(usize),
}
