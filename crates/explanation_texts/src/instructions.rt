use crate::cures::text_at;
use crate::notes::{Notes, Piece};
use rv32im::i_imm;

/// The names of the registers (RISC-V psABI, "Register Convention").
const REGISTERS: [&str; 32] = [
    "zero", "ra", "sp", "gp", "tp", "t0", "t1", "t2", "s0", "s1", "a0", "a1", "a2", "a3", "a4",
    "a5", "a6", "a7", "s2", "s3", "s4", "s5", "s6", "s7", "s8", "s9", "s10", "s11", "t3", "t4",
    "t5", "t6",
];

/// Which operands an instruction has.
#[derive(Clone, Copy)]
enum Operands {
    Nothing,
    /// A register that it writes.
    Target,
    /// Two that it reads.
    Compared,
    /// One that it writes, and two that it reads.
    Three,
    /// One that it writes, one that it reads, and a number.
    Immediate,
    /// One that it writes, and the address of a load or a jump.
    Loaded,
    /// One that it reads, and the address of a store.
    Stored,
}

/// Words of code that differ in the bits under a mask, and have the same operands.
struct Group {
    mask: u32,
    operands: Operands,
    /// The bits under the mask, and the name.
    words: &'static [(u32, &'static str)],
}

/// The instructions of RV32IM (RISC-V manual, "Instruction Set Listings"), and then what else words may be.
const GROUPS: [Group; 16] = [
    Group {
        mask: 0x7f,
        operands: Operands::Target,
        words: &[(0x37, "lui"), (0x17, "auipc"), (0x6f, "jal")],
    },
    Group {
        mask: 0x707f,
        operands: Operands::Loaded,
        words: &[(0x67, "jalr")],
    },
    Group {
        mask: 0x707f,
        operands: Operands::Compared,
        words: &[
            (0x63, "beq"),
            (0x1063, "bne"),
            (0x4063, "blt"),
            (0x5063, "bge"),
            (0x6063, "bltu"),
            (0x7063, "bgeu"),
        ],
    },
    Group {
        mask: 0x707f,
        operands: Operands::Loaded,
        words: &[
            (0x3, "lb"),
            (0x1003, "lh"),
            (0x2003, "lw"),
            (0x4003, "lbu"),
            (0x5003, "lhu"),
        ],
    },
    Group {
        mask: 0x707f,
        operands: Operands::Stored,
        words: &[(0x23, "sb"), (0x1023, "sh"), (0x2023, "sw")],
    },
    Group {
        mask: 0x707f,
        operands: Operands::Immediate,
        words: &[
            (0x13, "addi"),
            (0x2013, "slti"),
            (0x3013, "sltiu"),
            (0x4013, "xori"),
            (0x6013, "ori"),
            (0x7013, "andi"),
        ],
    },
    Group {
        mask: 0xfe00707f,
        operands: Operands::Immediate,
        words: &[(0x1013, "slli"), (0x5013, "srli"), (0x40005013, "srai")],
    },
    Group {
        mask: 0xfe00707f,
        operands: Operands::Three,
        words: &[
            (0x33, "add"),
            (0x40000033, "sub"),
            (0x1033, "sll"),
            (0x2033, "slt"),
            (0x3033, "sltu"),
            (0x4033, "xor"),
            (0x5033, "srl"),
            (0x40005033, "sra"),
            (0x6033, "or"),
            (0x7033, "and"),
            (0x2000033, "mul"),
            (0x2001033, "mulh"),
            (0x2002033, "mulhsu"),
            (0x2003033, "mulhu"),
            (0x2004033, "div"),
            (0x2005033, "divu"),
            (0x2006033, "rem"),
            (0x2007033, "remu"),
        ],
    },
    Group {
        mask: 0x707f,
        operands: Operands::Nothing,
        words: &[(0xf, "fence"), (0x100f, "fence.i")],
    },
    Group {
        mask: 0xffffffff,
        operands: Operands::Nothing,
        words: &[(0x73, "ecall"), (0x100073, "ebreak")],
    },
    Group {
        mask: 0x707f,
        operands: Operands::Nothing,
        words: &[(0x73, "a privileged instruction")],
    },
    Group {
        mask: 0x7f,
        operands: Operands::Nothing,
        words: &[
            (0x73, "a CSR instruction"),
            (0x53, "a floating-point instruction"),
        ],
    },
    Group {
        mask: 0x5f,
        operands: Operands::Nothing,
        words: &[(0x7, "a load or a store of a floating-point register")],
    },
    Group {
        mask: 0x7f,
        operands: Operands::Nothing,
        words: &[(0x2f, "an atomic instruction")],
    },
    Group {
        mask: 0xffffffff,
        operands: Operands::Nothing,
        words: &[(0x0, "a word 0")],
    },
    Group {
        mask: 0x3,
        operands: Operands::Nothing,
        words: &[
            (0x0, "a compressed instruction"),
            (0x1, "a compressed instruction"),
            (0x2, "a compressed instruction"),
        ],
    },
];

/// Ends a line by the instruction that a word of code means, or by what else it is.
pub(crate) fn end_by_instruction(notes: &mut Notes, word: u32) {
    for group in &GROUPS {
        if let Some(name) = name_in(group, word) {
            notes.put(": {}", &[Piece::Text(name)]);
            put_operands(notes, word, group.operands);
            notes.end("");
            return;
        }
    }
    notes.end(": no instruction of RV32IM");
}

/// The name that a group has of a word.
fn name_in(group: &Group, word: u32) -> Option<&'static str> {
    for (bits, name) in group.words {
        if word & group.mask == *bits {
            return Some(*name);
        }
    }
    None
}

/// Goes on with a line by the operands of an instruction.
fn put_operands(notes: &mut Notes, word: u32, operands: Operands) {
    let target = Piece::Text(register_name(word >> 7));
    let first = Piece::Text(register_name(word >> 15));
    let second = Piece::Text(register_name(word >> 20));
    let number = Piece::Signed(i_imm(word));
    // the offset of a load, with the bits of the target for its last five
    let offset = Piece::Signed(i_imm(word & 0xfe00_0000 | (word >> 7 & 31) << 20));
    match operands {
        Operands::Nothing => {}
        Operands::Target => notes.put(" {}", &[target]),
        Operands::Compared => notes.put(" {},{}", &[first, second]),
        Operands::Three => notes.put(" {},{},{}", &[target, first, second]),
        Operands::Immediate => notes.put(" {},{},{}", &[target, first, number]),
        Operands::Loaded => notes.put(" {},{}({})", &[target, number, first]),
        Operands::Stored => notes.put(" {},{}({})", &[second, offset, first]),
    }
}

/// The name of the register whose number is in the last five bits.
fn register_name(bits: u32) -> &'static str {
    text_at(&REGISTERS, bits & 31)
}
