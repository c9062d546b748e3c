use crate::subject::Inputs;
use board_config::read_board;
use code_blocks::CodeFault;
use explanation_texts::{
    LISTED_TWICE, MANY_BLOCKS, NO_CODE, Notes, Piece, SMALL_PATCH, UNKNOWN_FUNCTION, UncheckedFile,
    explain_elf, explain_layout,
};
use region_former::RegionFault;
use relink_core::AnalyseFault;

/// An ELF file, where it can't be read.
pub fn explain_file(notes: &mut Notes, file: &UncheckedFile) {
    if let Err(fault) = elf_reader::read(notes.alloc(), file.bytes) {
        explain_elf(notes, file, &fault);
    }
}

/// Why a file is not analysed for the board.
pub fn explain_refusal(notes: &mut Notes, inputs: &Inputs, fault: &AnalyseFault) {
    match fault {
        AnalyseFault::Elf(fault) => explain_elf(notes, &inputs.unchecked(), fault),
        AnalyseFault::Graph(fault) => {
            if let Ok(board) = read_board(inputs.alloc, inputs.board_text()) {
                explain_layout(notes, &inputs.unchecked(), &board, fault);
            }
        }
        AnalyseFault::PatchTooSmall { need, have } => notes.say(
            SMALL_PATCH,
            &[
                Piece::Number(u64::from(*have)),
                Piece::Number(u64::from(*need)),
            ],
        ),
        AnalyseFault::Code(fault) => match fault {
            CodeFault::TooManyBlocks { count } => {
                notes.say(MANY_BLOCKS, &[Piece::Number(u64::from(*count))])
            }
            CodeFault::NoText | CodeFault::EntryNotLeader => notes.say_words(NO_CODE),
            CodeFault::Memory => {}
        },
        AnalyseFault::Region(fault) => match fault {
            RegionFault::UnknownFunction { name } => {
                notes.say(UNKNOWN_FUNCTION, &[Piece::Name(name.as_bytes())])
            }
            RegionFault::TwoRegions { name } => {
                notes.say(LISTED_TWICE, &[Piece::Name(name.as_bytes())])
            }
            RegionFault::Memory => {}
        },
        AnalyseFault::Memory => {}
    }
}
