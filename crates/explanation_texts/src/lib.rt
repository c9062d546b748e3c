//! The words of all explanations: what a command line, a board or a program lacks, in lines for standard error. A file that
//! the reader refused is read without checks for them.
#![tactic(auto)]

mod answers;
mod boards;
mod comparisons;
mod cures;
mod faults;
mod files;
mod fixes;
mod instructions;
mod mixes;
mod notes;
mod objects;
mod pairing;
mod places;
mod refusals;
mod regions;
mod relocations;
mod runs;
mod savings;
mod staying;
mod terminal;
mod thread_locals;
mod unchecked;
mod usage;

pub use answers::explain_status;
pub use boards::{explain_board, gives_key, text_with_fixed};
pub use comparisons::{
    BOTH_DIFFER, COMPARED, EXITED_EARLY, FILE_DIFFERS, MORE_STEPS, RESULT_DIFFERS, TRAPPED_EARLY,
};
pub use cures::{LISTED_TWICE, MANY_BLOCKS, NO_CODE, SMALL_PATCH, UNKNOWN_FUNCTION};
pub use faults::{AddressFault, Culprit, Origin, Unpaired, Way};
pub use files::{explain_unwritten, say_unread, say_unread_input};
pub use fixes::{
    FixEnd, FixList, MORE_FAULTS, may_keep, say_fault_cure, say_fix, say_further_fault, say_no_list,
};
pub use mixes::{FAULTY_INPUT, UNENDED_INPUTS, UNPAIRED_INPUT, say_bad_line};
pub use notes::{Notes, Piece};
pub use objects::{
    LONGER_RUN, LOWER_PRICES, Label, PinnedSection, Stake, is_anchor, is_library, say_load_address,
    say_more_sections, say_nothing_moved, say_pinned,
};
pub use pairing::{MixedParts, UNPAIRED_RUN, say_unpaired};
pub use refusals::{explain_elf, explain_layout};
pub use regions::{Barrier, FULL_PATCH, IDLE_DRIVER, InwardCalls, say_inward, say_lost_region};
pub use runs::{CALLING_ITSELF, Involved, explain_fault, say_still_running, say_trapped};
pub use savings::{
    FIXED_COST, MORE_ITEMS, Measured, MovedItem, MovedPart, PATCH_USED, SCRATCHPAD_USED, Standing,
    Used, say_moved_item, say_overlay_room, say_room, say_saved,
};
pub use staying::{Room, STAYING_REST, StayingItem, StayingReason, say_staying};
pub use terminal::Terminal;
pub use unchecked::{NameNumbers, RawSegment, SectionMap, UncheckedFile};
pub use usage::{Command, command_of, explain_words};
