ghost use Rattle.std.specs.Prelude.{◌≡◌};
ghost use Rattle.object_machine.specs.Footprints.{access_kind};

use crate::footprints::{AccessKind, Footprint};
use object_graph::Site;
use rv32im::Instr;

/// A call of two instructions, an AUIPC and a JALR, which one step runs.
#[derive(Clone, Copy)]
pub(crate) struct Pair {
    /// Where it goes.
    pub(crate) target: u32,
    /// The register of its AUIPC.
    pub(crate) register: u8,
    /// Whether the register holds the way back then; else nothing is known of it.
    pub(crate) links: bool,
}

/// A unit of a block with all that a step asks of it.
#[derive(Clone, Copy)]
pub(crate) struct Prepared {
    /// The address of its first word.
    pub(crate) at: u32,
    /// The instruction that the first word means, if it means one.
    pub(crate) instr: Option<Instr>,
    /// The call that it is, if it has two words.
    pub(crate) pair: Option<Pair>,
    /// The site that it is, if it makes a part of an object's address.
    pub(crate) site: Option<Site>,
    /// Whether the next unit is of its block.
    pub(crate) goes_on: bool,
}

impl Prepared {
    ghost use Rattle.std.specs.Prelude.{◌≡◌};
    ghost use Rattle.object_machine.specs.Footprints.{footprint_by};

    /// What it asks of memory.
    pub(crate) fn footprint(&self) -> Footprint
        ensures { result ≡ footprint_by self.now.instr self.now.pair }
    {
        match &self.pair {
            Some(_) => Footprint {
                words: 2,
                access: None,
            },
            None => Footprint {
                words: 1,
                access: access_kind(self.instr),
            },
        }
    }
}

/// The access of a word that was read as an instruction.
fn access_kind(read: Option<Instr>) -> Option<AccessKind>
    ensures { result ≡ access_kind read }
{
    match read {
        Some(Instr::Load { .. }) => Some(AccessKind::Load),
        Some(Instr::Store { .. }) => Some(AccessKind::Store),
        _ => None,
    }
}
