// Laws of the definitions: functions that do nothing, whose contracts are what is proved.
ghost use Rattle.cell_values.specs.WordLaws.{OperationsStand, ImmediatesStand, ComparisonsStand, LowSitesStand, PairedSitesStand, SplitStands, JoinStands, PiecesStand, HalvesStand, KeptUppersMake, MovedUppersMake, SitesKeepWords, CellsKeepWords};

/// What an operation on two values leaves stands for the word that it leaves of their words: wherever the
/// objects stand, as long as an operation that takes low bits is given no upper part that an AUIPC made
/// (RISC-V Unprivileged ISA, "Integer Computational Instructions").
pub fn operations_stand()
    ensures { OperationsStand }
{}

/// What an operation with an immediate leaves of values that stand for words stands for the word that it leaves of them.
pub fn immediates_stand()
    ensures { ImmediatesStand }
{}

/// A branch whose outcome the values tell is taken exactly where their words take it (RISC-V Unprivileged
/// ISA, "Conditional Branches").
pub fn comparisons_stand()
    ensures { ComparisonsStand }
{}

/// The low part of a place, added to an upper part that a LUI made of an address in the same chunk, makes the
/// address (RISC-V psABI, HI20 and LO12).
pub fn low_sites_stand()
    ensures { LowSitesStand }
{}

/// The low part of a distance, added to what an AUIPC made of that distance, makes the address (RISC-V psABI,
/// PCREL_HI20 and PCREL_LO12).
pub fn paired_sites_stand()
    ensures { PairedSitesStand }
{}

/// The cells that a store puts stand for the bytes of the word.
pub fn split_stands()
    ensures { SplitStands }
{}

/// The value that a word load takes from four cells stands for the word of their bytes.
pub fn join_stands()
    ensures { JoinStands }
{}

/// The value that a byte load takes from a cell stands for the byte, extended by zeros or by its sign.
pub fn pieces_stand()
    ensures { PiecesStand }
{}

/// The value that a halfword load takes from two cells stands for the halfword, extended by zeros or by its
/// sign.
pub fn halves_stand()
    ensures { HalvesStand }
{}

/// The upper parts that the words of the file make are words, those of a LUI are of the place, and those of
/// mixed parts may be any.
pub fn kept_uppers_make()
    ensures { KeptUppersMake }
{}

/// Where each site is a LUI, all origins make the upper part of the place.
pub fn moved_uppers_make()
    ensures { MovedUppersMake }
{}

/// Values hold words after low sites, whose offsets are words: with what cell_values says of operations, all
/// that the law of comparisons asks.
pub fn sites_keep_words()
    ensures { SitesKeepWords }
{}

/// Cells that stores put hold words where the value does, and values that loads take where the cells do.
pub fn cells_keep_words()
    ensures { CellsKeepWords }
{}
