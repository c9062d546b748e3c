/// What a certificate's check says.
#[derive(Clone, Copy, Debug)]
pub enum Verdict {
    /// The choice is feasible, and no feasible choice has less energy.
    Optimal,
    /// The choice is feasible, and there is no tree.
    BestFound,
    /// The choice isn't feasible, or gains less than 0.
    BadChoice,
    /// A tree fails, at its first failing node: the side (0 off, 1 on), and the number and depth of the node, from 0.
    /// A missing tree, and a tree without a side, fails at node 0. Numbers stop at 2^32 - 1.
    Wrong { side: u32, node: u32, depth: u32 },
}
