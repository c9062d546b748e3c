ghost use Rattle.std.specs.Prelude.{◌≤◌, length};
ghost use Rattle.std.specs.List.Sorted.{IsStrictlyIncreasing};

use crate::reached::Reached;

/// Which registers may hold addresses of each object where the blocks of a program begin, and which objects escape.
#[derive(Drop)]
pub struct PointsTable {
    /// Where the blocks begin, ascending.
    pub(crate) leaders: Vec<u32>,
    /// What comes from memory reaches these registers (mark 0).
    pub(crate) loads: Reached,
    /// For each 64 objects what they reach, object `o` by mark `o % 64`.
    pub(crate) groups: Vec<Reached>,
    ghost ascending: { IsStrictlyIncreasing leaders.items },
    ghost few: { length leaders.items ≤ 33554432 },
}

impl PointsTable {
    ghost use Rattle.std.specs.Prelude.{◌%◌, ◌↔◌, IsTrue, map};
    ghost use Rattle.object_graph.specs.declared.parts.Graph.{Graph};
    ghost use Rattle.code_blocks.specs.declared.parts.Code.{Code};
    ghost use Rattle.reach_graph.specs.Reaching.{HasMark};
    ghost use Rattle.dataflow.specs.Points.{MayHold, Escapes};
    ghost use Rattle.points_to.specs.Tables.{IsTableOf, plain, group_of, kept_word, Holds};

    /// Whether register `reg` may hold an address of object `obj` where the block at `leader` begins. Where no block
    /// begins none does, and x0 never does.
    pub fn may(&self, leader: u32, reg: u8, obj: u32) -> bool
        ensures { (c : Code) (g : Graph) → IsTableOf c g self.now → IsTrue result ↔ MayHold c g leader reg obj }
    {
        if reg > 31 {
            return false;
        }
        match self.leaders.binary_search(&leader) {
            Ok(block) => self.holds(32 * block as u32 + u32::from(reg), obj),
            Err(_) => false,
        }
    }

    /// Whether an address of object `obj` may stand in memory.
    pub fn escapes(&self, obj: u32) -> bool
        ensures { (c : Code) (g : Graph) → IsTableOf c g self.now → IsTrue result ↔ Escapes c g obj }
    {
        self.is_stored(obj)
    }

    /// Whether the node of a register is reached from an object, or by what is loaded and the object reaches memory.
    fn holds(&self, node: u32, obj: u32) -> bool
        ensures { IsTrue result ↔ Holds (plain self.now.loads) (map plain self.now.groups.items) node obj }
    {
        if self.is_reached(node, obj) {
            return true;
        }
        if self.is_stored(obj) {
            return self.loads.has(node, 0);
        }
        false
    }

    /// Whether the node is reached from the object.
    fn is_reached(&self, node: u32, obj: u32) -> bool
        ensures { IsTrue result ↔ HasMark (kept_word (group_of (map plain self.now.groups.items) obj) node) (obj % 64) }
    {
        match self.groups.get((obj / 64) as usize) {
            Some(group) => group.has(node, obj % 64),
            None => false,
        }
    }

    /// Whether memory is.
    fn is_stored(&self, obj: u32) -> bool
        ensures { IsTrue result ↔ HasMark (group_of (map plain self.now.groups.items) obj).stored (obj % 64) }
    {
        match self.groups.get((obj / 64) as usize) {
            Some(group) => group.is_stored(obj % 64),
            None => false,
        }
    }
}
