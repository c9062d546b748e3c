ghost use Rattle.std.specs.Prelude.{◌≡◌, length};
ghost use Rattle.std.specs.List.Sorted.{IsStrictlyIncreasing};

use crate::marks::keep;
use crate::nodes::Nodes;
use reach_graph::has_mark;
use std::alloc::{AllocError, Global};

/// Which marks reached the registers at the beginning of blocks, and memory.
#[derive(Drop)]
pub struct Reached {
    /// The nodes of these registers that some mark reached, ascending.
    pub(crate) nodes: Vec<u32>,
    /// The marks of each.
    pub(crate) words: Vec<u64>,
    /// The marks of memory.
    pub(crate) memory: u64,
    ghost ascending: { IsStrictlyIncreasing nodes.items },
    ghost one_each: { length words.items ≡ length nodes.items },
}

impl Reached {
    ghost use Rattle.std.specs.Prelude.{◌≡◌, ◌<◌, ◌↔◌, length, IfOk, IsTrue};
    ghost use Rattle.reach_graph.specs.Reaching.{HasMark};
    ghost use Rattle.points_to.specs.{Nodes.{node_count}, Tables.{plain, kept_word, Keeps}};

    /// What is kept of the marks of all nodes.
    pub(crate) fn of(alloc: Global, nodes: Nodes, marks: &[u64]) -> Result<Reached, AllocError>
        requires { length marks.now ≡ node_count nodes.blocks nodes.objects }
        ensures { IfOk result (λ r. Keeps marks.now nodes.blocks (plain r)) }
    {
        let mut reached = Vec::new(alloc);
        let mut words = Vec::new(alloc);
        for node in 0..32 * nodes.blocks {
            keep(&mut reached, &mut words, node, marks[node as usize])?;
        }
        Ok(Reached {
            nodes: reached,
            words,
            memory: marks[nodes.memory() as usize],
        })
    }

    /// Whether a mark reached the node of a register.
    pub(crate) fn has(&self, node: u32, mark: u32) -> bool
        requires { mark < 64 }
        ensures { IsTrue result ↔ HasMark (kept_word (plain self.now) node) mark }
    {
        match self.nodes.binary_search(&node) {
            Ok(place) => has_mark(self.words[place], mark),
            Err(_) => false,
        }
    }

    /// Whether a mark reached memory.
    pub(crate) fn is_stored(&self, mark: u32) -> bool
        requires { mark < 64 }
        ensures { IsTrue result ↔ HasMark self.now.memory mark }
    {
        has_mark(self.memory, mark)
    }
}
