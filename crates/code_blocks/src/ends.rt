/// How a basic block ends. Addresses are those of the words that run next.
#[derive(Clone, Copy)]
pub enum End {
    /// The next block begins behind it.
    Fall { next: u32 },
    /// A branch.
    Branch { target: u32, next: u32 },
    /// A JAL that does not link.
    Jump { target: u32 },
    /// A JAL or a pair of AUIPC and JALR that links in register `link`; it comes back at `back`.
    Call { target: u32, back: u32, link: u8 },
    /// A pair that does not link.
    Tail { target: u32 },
    /// A JALR; `back` is the word behind it where it links.
    Indirect { back: Option<u32> },
    /// A word that means nothing, EBREAK, or the end of the code.
    Stop,
}
