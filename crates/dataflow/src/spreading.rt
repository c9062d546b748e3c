// Registers that spread against the flow of control.
ghost use Rattle.std.specs.Prelude.{◌≡◌};
ghost use Rattle.code_blocks.specs.Leads.{units_at};

use crate::transfers::registers_before;
use code_blocks::{Code, Unit};
use object_graph::Graph;
use reach_graph::{Edge, Queue, grow, joined};
use std::alloc::{AllocError, Global};

/// A word for each block, and one for every jump to an address in a register.
#[derive(Drop)]
pub(crate) struct Exposure {
    /// The places behind each block from which an address may come to memory or to a register that is asked for: mark 0
    /// is memory, and mark `k` is register `k`.
    pub(crate) behind: Vec<u64>,
    /// The registers where it begins.
    pub(crate) before: Vec<u64>,
}

impl Exposure {
    ghost use Rattle.std.specs.Prelude.{◌≡◌, ◌+◌, ◌<◌, ℕ, List, length, OnOk};
    ghost use Rattle.rv32im.specs.declared.instructions.RegSet.{RegSet};
    ghost use Rattle.object_graph.specs.Lookups.{IsSomeGraph};
    ghost use Rattle.reach_graph.specs.{declared.edges.Edge.{Edge}, Reaching.{edge_at, plain_rows}, Propagation.{GoesOn, IsRow}};
    ghost use Rattle.dataflow.specs.{BackEdges.{AreBackEdges}, Spreading.{AreMore, AreSound, AreSpread, AreWords, IsStep, MeansAlong, PassedUpto}};

    /// Lets the registers before all nodes spread along the edges, as far as they come.
    ///
    /// It fails only where no memory was left. A block is looked at again only when a register was added behind it.
    pub(crate) fn spread(
        &mut self,
        alloc: Global,
        code: &Code,
        graph: &Graph,
        rows: &[Vec<Edge>],
    ) -> Result<(), AllocError>
        requires graph { IsSomeGraph graph.now }
        requires edges { AreBackEdges code.now (length code.now.blocks.items) (plain_rows rows.now) }
        requires words { AreWords (length code.now.blocks.items) self.old.behind.items self.old.before.items }
        ensures { OnOk result ((asked : List RegSet) → AreSound code.now graph.now asked self.old.behind.items self.old.before.items → AreSpread code.now graph.now asked (plain_rows rows.now) self.new.behind.items self.new.before.items) }
    {
        let mut queue = Queue::of_marked(alloc, &self.before)?;
        while let Some(node) = queue.take() {
            let by = self.before[node];
            self.pass_row(code, graph, &rows[node], by, &mut queue)?;
        }
        Ok(())
    }

    /// Lets the registers `by` of a node pass along its edges. A node before which a register is added waits then.
    fn pass_row(
        &mut self,
        code: &Code,
        graph: &Graph,
        row: &[Edge],
        by: u64,
        queue: &mut Queue,
    ) -> Result<(), AllocError>
        requires graph { IsSomeGraph graph.now }
        requires inside { IsRow row.now (length code.now.blocks.items + 1) }
        requires words { AreWords (length code.now.blocks.items) self.old.behind.items self.old.before.items }
        requires sizes { length queue.old.waits.items ≡ length self.old.before.items }
        ensures words { OnOk result (AreWords (length code.now.blocks.items) self.new.behind.items self.new.before.items) }
        ensures goes_on { OnOk result (GoesOn self.old.before.items queue.old.waiting.items queue.old.waits.items self.new.before.items queue.new.waiting.items queue.new.waits.items) }
        ensures more { OnOk result (AreMore self.old.behind.items self.new.behind.items) }
        ensures passed { OnOk result (PassedUpto row.now (length row.now) by self.new.behind.items) }
        ensures sound { OnOk result ((asked : List RegSet) → MeansAlong code.now graph.now asked row.now by → AreSound code.now graph.now asked self.old.behind.items self.old.before.items → AreSound code.now graph.now asked self.new.behind.items self.new.before.items) }
    {
        for i in 0..row.len() {
            let edge = row[i];
            self.pass(code, graph, edge.to, by & edge.mask, queue)?;
        }
        Ok(())
    }

    /// Adds registers to the places behind a node, and to those before it what leads there.
    fn pass(
        &mut self,
        code: &Code,
        graph: &Graph,
        node: u32,
        by: u64,
        queue: &mut Queue,
    ) -> Result<(), AllocError>
        requires graph { IsSomeGraph graph.now }
        requires node { node < length code.now.blocks.items + 1 }
        requires words { AreWords (length code.now.blocks.items) self.old.behind.items self.old.before.items }
        requires sizes { length queue.old.waits.items ≡ length self.old.before.items }
        ensures words { OnOk result (AreWords (length code.now.blocks.items) self.new.behind.items self.new.before.items) }
        ensures goes_on { OnOk result (GoesOn self.old.before.items queue.old.waiting.items queue.old.waits.items self.new.before.items queue.new.waiting.items queue.new.waits.items) }
        ensures step { OnOk result (IsStep code.now graph.now.sites.items node by self.old.behind.items self.old.before.items self.new.behind.items self.new.before.items) }
    {
        let place = node as usize;
        let old = self.behind[place];
        let grown = joined(old, by);
        if grown == old {
            return Ok(());
        }
        let added = registers_before(units_of(code, place), graph, grown);
        grow(&mut self.before, queue, place, added)?;
        self.behind[place] = grown;
        Ok(())
    }
}

/// The units of a block. The node behind the blocks has none.
pub(crate) fn units_of(code: &Code, block: usize) -> &[Unit]
    ensures { result.now ≡ units_at code.now block }
{
    match code.blocks.get(block) {
        Some(block) => &block.units,
        None => &[],
    }
}
