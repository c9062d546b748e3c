ghost use Rattle.std.specs.Prelude.{◌≤◌};

use code_blocks::Code;
use object_graph::Graph;
use std::alloc::AllocError;

/// So many fit into the numbers of nodes.
const MOST_BLOCKS: usize = 33_554_432;

const MOST_OBJECTS: usize = 1_073_741_824;

/// The numbers of the nodes of a graph: 32 for the registers at the beginning of each block; 32 for the places at
/// the end of each, of which the first is memory; 32 for the registers on the way to any indirect leader; memory;
/// what is loaded from memory; and one for each object.
#[derive(Clone, Copy)]
pub(crate) struct Nodes {
    pub(crate) blocks: u32,
    pub(crate) objects: u32,
    ghost few_blocks: { blocks ≤ 33554432 },
    ghost few_objects: { objects ≤ 1073741824 },
}

impl Nodes {
    ghost use Rattle.std.specs.Prelude.{◌≡◌, ◌<◌, length, IfOk};
    ghost use Rattle.points_to.specs.Nodes.{entry, end_of, hub, memory, loaded, object_node, node_count};

    /// The nodes for a program, if they have numbers.
    pub(crate) fn of(code: &Code, graph: &Graph) -> Result<Nodes, AllocError>
        ensures blocks { IfOk result (λ n. n.blocks ≡ length code.now.blocks.items) }
        ensures objects { IfOk result (λ n. n.objects ≡ length graph.now.objects.items) }
    {
        let blocks = code.blocks.len();
        let objects = graph.objects.len();
        if blocks > MOST_BLOCKS || objects > MOST_OBJECTS {
            return Err(AllocError);
        }
        Ok(Nodes {
            blocks: blocks as u32,
            objects: objects as u32,
        })
    }

    /// How many there are.
    pub(crate) fn count(self) -> u32
        ensures { result ≡ node_count self.blocks self.objects }
    {
        64 * self.blocks + 34 + self.objects
    }

    /// The first of those at the beginning of block `block`.
    pub(crate) fn entry(self, block: u32) -> u32
        requires { block < self.blocks }
        ensures { result ≡ entry block 0 }
    {
        32 * block
    }

    /// The first of those at its end.
    pub(crate) fn end(self, block: u32) -> u32
        requires { block < self.blocks }
        ensures { result ≡ end_of self.blocks block 0 }
    {
        32 * self.blocks + 32 * block
    }

    /// The first of those on the way to any indirect leader.
    pub(crate) fn hub(self) -> u32
        ensures { result ≡ hub self.blocks 0 }
    {
        64 * self.blocks
    }

    /// Memory.
    pub(crate) fn memory(self) -> u32
        ensures { result ≡ memory self.blocks }
    {
        64 * self.blocks + 32
    }

    /// What is loaded from memory.
    pub(crate) fn loaded(self) -> u32
        ensures { result ≡ loaded self.blocks }
    {
        64 * self.blocks + 33
    }

    /// Object `object`.
    pub(crate) fn object(self, object: u32) -> u32
        requires { object < self.objects }
        ensures { result ≡ object_node self.blocks object }
    {
        64 * self.blocks + 34 + object
    }
}
