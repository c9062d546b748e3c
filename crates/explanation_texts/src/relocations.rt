use crate::cures::{CureRow, OTHER_RELOCATION, say_cure, text_at};
use crate::notes::{Notes, Piece};
use crate::places::put_place;
use crate::thread_locals::{is_thread_local, say_thread_local};
use crate::unchecked::UncheckedFile;

/// The names of the kinds of relocations (RISC-V psABI, "Relocations").
const KINDS: [&str; 60] = [
    "R_RISCV_NONE",
    "R_RISCV_32",
    "R_RISCV_64",
    "R_RISCV_RELATIVE",
    "R_RISCV_COPY",
    "R_RISCV_JUMP_SLOT",
    "R_RISCV_TLS_DTPMOD32",
    "R_RISCV_TLS_DTPMOD64",
    "R_RISCV_TLS_DTPREL32",
    "R_RISCV_TLS_DTPREL64",
    "R_RISCV_TLS_TPREL32",
    "R_RISCV_TLS_TPREL64",
    "R_RISCV_TLSDESC",
    "",
    "",
    "",
    "R_RISCV_BRANCH",
    "R_RISCV_JAL",
    "R_RISCV_CALL",
    "R_RISCV_CALL_PLT",
    "R_RISCV_GOT_HI20",
    "R_RISCV_TLS_GOT_HI20",
    "R_RISCV_TLS_GD_HI20",
    "R_RISCV_PCREL_HI20",
    "R_RISCV_PCREL_LO12_I",
    "R_RISCV_PCREL_LO12_S",
    "R_RISCV_HI20",
    "R_RISCV_LO12_I",
    "R_RISCV_LO12_S",
    "R_RISCV_TPREL_HI20",
    "R_RISCV_TPREL_LO12_I",
    "R_RISCV_TPREL_LO12_S",
    "R_RISCV_TPREL_ADD",
    "R_RISCV_ADD8",
    "R_RISCV_ADD16",
    "R_RISCV_ADD32",
    "R_RISCV_ADD64",
    "R_RISCV_SUB8",
    "R_RISCV_SUB16",
    "R_RISCV_SUB32",
    "R_RISCV_SUB64",
    "R_RISCV_GOT32_PCREL",
    "",
    "R_RISCV_ALIGN",
    "R_RISCV_RVC_BRANCH",
    "R_RISCV_RVC_JUMP",
    "R_RISCV_RVC_LUI",
    "R_RISCV_GPREL_I",
    "R_RISCV_GPREL_S",
    "R_RISCV_TPREL_I",
    "R_RISCV_TPREL_S",
    "R_RISCV_RELAX",
    "R_RISCV_SUB6",
    "R_RISCV_SET6",
    "R_RISCV_SET8",
    "R_RISCV_SET16",
    "R_RISCV_SET32",
    "R_RISCV_32_PCREL",
    "R_RISCV_IRELATIVE",
    "R_RISCV_PLT32",
];

/// What kinds of relocations come of, and what avoids them.
const CURES: [CureRow; 3] = [
    CureRow {
        numbers: &[20],
        words: "position-independent code takes the address from a table\nfirst: compile and assemble with -fno-pie, and link with -no-pie",
    },
    CureRow {
        numbers: &[47, 48],
        words: "the linker made the address by the gp register\nfirst: link with -Wl,--no-relax (or compile with -msmall-data-limit=0 and set no gp)",
    },
    CureRow {
        numbers: &[44, 45, 46],
        words: "the code is compressed\nfirst: compile with -march=rv32im -mabi=ilp32",
    },
];

/// A relocation of a kind that is not supported.
pub(crate) fn say_unsupported(notes: &mut Notes, file: &UncheckedFile, index: u32, kind: u32) {
    if let Some(relocation) = file.relocation(index) {
        notes.begin(
            "relocation {} in section {} is ",
            &[
                Piece::Number(u64::from(index)),
                Piece::Name(file.section_name(relocation.section)),
            ],
        );
        put_kind(notes, kind);
        notes.put(
            " of {}\nit changes the word",
            &[Piece::Name(file.text(relocation.symbol.name))],
        );
        put_place(notes, file, relocation.at);
        notes.end("");
    }
    if is_thread_local(kind) {
        say_thread_local(notes, file);
    } else {
        say_cure(notes, &CURES, kind, OTHER_RELOCATION);
    }
}

/// Goes on with a line by the name of a kind, or its number where it has none.
fn put_kind(notes: &mut Notes, kind: u32) {
    let name = text_at(&KINDS, kind);
    if name.is_empty() {
        notes.put("kind {}", &[Piece::Number(u64::from(kind))]);
    } else {
        notes.put(name, &[]);
    }
}
