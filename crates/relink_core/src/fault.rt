use code_blocks::CodeFault;
use elf_reader::ElfFault;
use object_graph::GraphFault;
use region_former::RegionFault;
use std::alloc::AllocError;
use thiserror::Error;

/// Why a program can't be analysed for a board, the first in this order. The faults of the parts are never
/// their own want of memory: that is `Memory`.
#[derive(Debug, Drop, Error)]
pub enum AnalyseFault {
    /// The file is not one that is read, or leaves no room for one more program header.
    #[error("{0}")]
    Elf(ElfFault),
    /// The program doesn't fit the board.
    #[error("{0}")]
    Graph(GraphFault),
    /// The patch range has `have` bytes, fewer than the `need` bytes of the control words and the start stub.
    #[error("the patch range has {have} bytes of the {need} that it needs")]
    PatchTooSmall { need: u32, have: u32 },
    /// The code can't be split into blocks.
    #[error("{0}")]
    Code(CodeFault),
    /// The board lists regions that the program can't have.
    #[error("{0}")]
    Region(RegionFault),
    /// No memory was left.
    #[error("out of memory")]
    Memory,
}

impl From<AllocError> for AnalyseFault {
    ghost use Rattle.std.specs.Prelude.{◌≡◌};
    ghost use Rattle.relink_core.specs.declared.fault.AnalyseFault.TheVariants as analyse;

    ghost from_gives = { λ _ fault. fault ≡ analyse.Memory };

    fn from(_error: AllocError) -> AnalyseFault {
        AnalyseFault::Memory
    }
}

impl From<ElfFault> for AnalyseFault {
    ghost use Rattle.elf_reader.specs.declared.fault.ElfFault.TheVariants as elf;
    ghost use Rattle.relink_core.specs.declared.fault.AnalyseFault.TheVariants as analyse;
    ghost use Rattle.relink_core.specs.Faults.{Becomes};

    ghost from_gives = { λ part fault. Becomes elf.Memory analyse.Elf part fault };

    fn from(part: ElfFault) -> AnalyseFault {
        match part {
            ElfFault::Memory => AnalyseFault::Memory,
            part => AnalyseFault::Elf(part),
        }
    }
}

impl From<GraphFault> for AnalyseFault {
    ghost use Rattle.object_graph.specs.declared.fault.GraphFault.TheVariants as graph;
    ghost use Rattle.relink_core.specs.declared.fault.AnalyseFault.TheVariants as analyse;
    ghost use Rattle.relink_core.specs.Faults.{Becomes};

    ghost from_gives = { λ part fault. Becomes graph.Memory analyse.Graph part fault };

    fn from(part: GraphFault) -> AnalyseFault {
        match part {
            GraphFault::Memory => AnalyseFault::Memory,
            part => AnalyseFault::Graph(part),
        }
    }
}

impl From<CodeFault> for AnalyseFault {
    ghost use Rattle.code_blocks.specs.declared.fault.CodeFault.TheVariants as code;
    ghost use Rattle.relink_core.specs.declared.fault.AnalyseFault.TheVariants as analyse;
    ghost use Rattle.relink_core.specs.Faults.{Becomes};

    ghost from_gives = { λ part fault. Becomes code.Memory analyse.Code part fault };

    fn from(part: CodeFault) -> AnalyseFault {
        match part {
            CodeFault::Memory => AnalyseFault::Memory,
            part => AnalyseFault::Code(part),
        }
    }
}

impl From<RegionFault> for AnalyseFault {
    ghost use Rattle.region_former.specs.declared.fault.RegionFault.TheVariants as region;
    ghost use Rattle.relink_core.specs.declared.fault.AnalyseFault.TheVariants as analyse;
    ghost use Rattle.relink_core.specs.Faults.{Becomes};

    ghost from_gives = { λ part fault. Becomes region.Memory analyse.Region part fault };

    fn from(part: RegionFault) -> AnalyseFault {
        match part {
            RegionFault::Memory => AnalyseFault::Memory,
            part => AnalyseFault::Region(part),
        }
    }
}
