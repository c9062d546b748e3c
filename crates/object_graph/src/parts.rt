use board_config::Range;

/// An object that may move.
#[derive(Clone, Copy)]
pub struct Object {
    /// The number of the first symbol of its range.
    pub name: u32,
    /// Its first address in the file.
    pub home: u32,
    /// How many bytes it has.
    pub size: u32,
    /// Whether the section of its first symbol is writable (ELF, "Sections": `SHF_WRITE`).
    pub writable: bool,
}

/// Which part of an address an instruction makes.
#[derive(Clone, Copy)]
pub enum SiteKind {
    /// The upper part, in a LUI or an AUIPC.
    Hi,
    /// The lower part, in an ADDI or a load.
    LowI,
    /// The lower part, in a store.
    LowS,
}

/// An instruction that makes a part of an address in an object that may move, or at its end.
#[derive(Clone, Copy)]
pub struct Site {
    /// The address of the instruction.
    pub at: u32,
    /// Which part it makes.
    pub kind: SiteKind,
    /// The number of the object among those of the graph.
    pub object: u32,
    /// How many bytes behind the object's home the address lies.
    pub offset: u32,
}

/// A word of data that holds an address in an object that may move, or at its end.
#[derive(Clone, Copy)]
pub struct DataWord {
    /// The address of the word, which needn't be a multiple of 4.
    pub at: u32,
    /// The number of the object among those of the graph.
    pub object: u32,
    /// How many bytes behind the object's home the address lies.
    pub offset: u32,
}

/// What a file and a board say of the objects that may move.
#[derive(Drop)]
pub struct Graph {
    /// The grain of the board: how many bytes objects keep their places modulo.
    pub grain: u32,
    /// The objects, by home.
    pub objects: Vec<Object>,
    /// The instructions that make their addresses, by address.
    pub sites: Vec<Site>,
    /// The words of data that hold their addresses, by address.
    pub data_words: Vec<DataWord>,
    /// The code ranges, in the order of their sections.
    pub code: Vec<Range>,
}
