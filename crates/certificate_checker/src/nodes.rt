/// A node of a tree.
#[derive(Drop)]
pub enum TreeNode {
    /// The choices without a variable, and those with it.
    Branch {
        var: u32,
    },
    /// The variables that are fixed to one exceed a row.
    Over {
        row: u32,
    },
    /// Rows, ascending, each with a multiplier, and the scale of the gains, from 1 to 65,536: weak duality bounds the gain.
    Dual {
        scale: u32,
        multipliers: Vec<(u32, u64)>,
    },
    /// All variables are fixed, and gain no more.
    Leaf,
}
