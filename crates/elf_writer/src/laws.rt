ghost use Rattle.elf_writer.specs.{Images.{NewBytesLoaded, ChangedBytesLoaded, ZerosLoaded, OthersUntouched, UntouchedStay, PatchesLoaded, WordsLoaded, OthersLoaded}, Laws.{BytesWritten, RangesWritten, OthersStay, WrittenReadsBack, WrittenIsFile, WrittenFaults}};

/// A byte of the input stays in the file that is written, but for the changes of its place.
pub fn bytes_written()
    ensures { BytesWritten }
{}

/// So do the bytes of a range of the input.
pub fn ranges_written()
    ensures { RangesWritten }
{}

/// Bytes that no change touches stay.
pub fn others_stay()
    ensures { OthersStay }
{}

/// A reader finds in the file that is written the view of the input with the words, the segment and the
/// moves, and with the changed bytes of the ELF header and of the symbol table wherever a segment loads them.
pub fn written_reads_back()
    ensures { WrittenReadsBack }
{}

/// Each view that says this is one of the file that is written.
pub fn written_is_file()
    ensures { WrittenIsFile }
{}

/// The file that is written of one without a fault has none, but that it may be longer than 64 MiB, or its segments may
/// take more than 16 MiB of memory.
pub fn written_faults()
    ensures { WrittenFaults }
{}

/// The new segment's bytes stand in memory at its addresses.
pub fn new_bytes_loaded()
    ensures { NewBytesLoaded }
{}

/// Where a segment of the input puts a byte into memory, the file that is written puts that byte with the
/// changes of its place.
pub fn changed_bytes_loaded()
    ensures { ChangedBytesLoaded }
{}

/// Where no segment puts a byte, there are zeros.
pub fn zeros_loaded()
    ensures { ZerosLoaded }
{}

/// A place of the input that is none of a patched word, of the ELF header or of the symbol table is
/// touched by no change.
pub fn others_untouched()
    ensures { OthersUntouched }
{}

/// An address outside of the new segment keeps its byte where no change touches the byte's place.
pub fn untouched_stay()
    ensures { UntouchedStay }
{}

/// A patched word stands in memory where a segment puts its place of the file.
pub fn patches_loaded()
    ensures { PatchesLoaded }
{}

/// So it does at the address that is as far behind the beginning of its section as the word in the file.
pub fn words_loaded()
    ensures { WordsLoaded }
{}

/// Every other address outside of the new segment keeps its byte, where no segment puts a byte of the ELF
/// header or of the symbol table.
pub fn others_loaded()
    ensures { OthersLoaded }
{}
