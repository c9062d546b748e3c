//! Sequences of instructions that stand for one unit.

ghost use Rattle.std.specs.Prelude.{◌≡◌, ◌++◌, ◌∷◌, [], ◌<◌, ◌+◌, All};
ghost use Rattle.rv32im.specs.{Table.{IsWithin, IsInRange}, Sequences.{load_immediate, distance}};
ghost use Rattle.block_splitter.specs.Copies.{Reaches};

use rv32im::{BranchKind, Instr, distance, jump, load_immediate};

/// A branch at an address to another.
pub(crate) fn branch(kind: BranchKind, rs1: u8, rs2: u8, at: u32, to: u32) -> Instr
    ensures { result ≡ Instr.Branch kind rs1 rs2 (distance at to) }
{
    Instr::Branch {
        kind,
        rs1,
        rs2,
        off: distance(at, to),
    }
}

/// A JALR that leaves `back` in `link`.
pub(crate) fn link_and_jump(back: u32, link: u8, base: u8, imm: i32) -> [Instr; 3]
    requires { (link < 32) × (base < 32) × IsWithin 2048 imm }
    ensures code { result ≡ load_immediate link back ++ Instr.Jalr 0 base imm ∷ [] }
    ensures range { All IsInRange result }
{
    let [upper, lower] = load_immediate(link, back);
    let jump = Instr::Jalr {
        rd: 0,
        rs1: base,
        imm,
    };
    [upper, lower, jump]
}

/// A word in a register, and a jump to an address; they stand at `at`.
pub(crate) fn load_and_jump(rd: u8, value: u32, at: u32, to: u32) -> [Instr; 3]
    requires rd { rd < 32 }
    requires reach { Reaches (at + 8) to }
    ensures code { result ≡ load_immediate rd value ++ Instr.Jal 0 (distance (at + 8) to) ∷ [] }
    ensures range { All IsInRange result }
{
    let [upper, lower] = load_immediate(rd, value);
    [upper, lower, jump(at.wrapping_add(8), to)]
}
