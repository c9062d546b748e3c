//! The words and instructions of RV32IM: halves and bytes of a word, which instruction it means, and what each instruction does.
#![tactic(auto)]

mod calls;
mod decoding;
mod encoding;
mod fields;
mod instructions;
mod laws;
mod operations;
mod registers;
mod sequences;
mod words;

pub use calls::{A0, A1, A2, A7, CALL_EXIT, CALL_READ, CALL_WRITE, NO_CALL};
pub use decoding::decode;
pub use encoding::encode;
pub use fields::{b_imm, funct3, i_imm, j_imm, opcode, rd, rs1, u_imm};
pub use instructions::{BranchKind, ImmKind, Instr, LoadKind, RegKind, RegSet, StoreKind};
pub use laws::{acts_defines_only, acts_keeps_words, acts_uses_only, one_instruction, one_word};
pub use operations::{imm_result, reg_result, takes};
pub use registers::{defs, uses};
pub use sequences::{
    addi, distance, encode_all, inverse, jump, jump_absolute, load_immediate, lui,
};
pub use words::{bytes_rebuild, bytes4, halves_rebuild, hi20, lo12, sext, word4};
