/// A result that does not do what the program does, where the file itself does.
pub const RESULT_DIFFERS: &str =
    "RESULT does not do on this input what the program does, and FILE does\nfirst: relink this file for this board again, and compare it with what is written then";

/// A file that does not do what its program does, beside a result that does not do so either.
pub const BOTH_DIFFER: &str = "neither FILE nor RESULT does on this input what the program does";

/// A file that does not do what its program does, beside a result that does.
pub const FILE_DIFFERS: &str = "RESULT does on this input what the program does, and FILE does not";

/// What to do where a program went on, and so did its result.
pub const MORE_STEPS: &str = "first: give the board more `steps`, or take a shorter input";

/// A program that went on at the end of the board's steps: these, and how many steps of its result were compared.
pub const COMPARED: &str =
    "the board allows {} steps, and the program went on; RESULT wrote its bytes in {} steps, and was compared no further";

/// A result that exited within the steps of a program that goes on: its code.
pub const EXITED_EARLY: &str =
    "RESULT exited with {} within as many steps, where what FILE is relinked to goes on\nfirst: relink this file for this board again, and compare it with what is written then";

/// A result that trapped within these steps: the address of the instruction.
pub const TRAPPED_EARLY: &str =
    "RESULT trapped at {} within as many steps, where what FILE is relinked to goes on\nfirst: relink this file for this board again, and compare it with what is written then";
