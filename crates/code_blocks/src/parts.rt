use crate::ends::End;
use rv32im::Instr;

/// What one step runs: an instruction, a call of two instructions, or a word that means none.
#[derive(Clone, Copy)]
pub struct Unit {
    /// The address of its first word.
    pub at: u32,
    /// How many words it has: two for a call that is an AUIPC and a JALR, else one.
    pub words: u32,
    /// The instruction that the first word means, if it means one.
    pub instr: Option<Instr>,
    /// The first word.
    pub raw: u32,
}

impl Unit {
    ghost use Rattle.std.specs.Prelude.{◌≡◌};
    ghost use Rattle.code_blocks.specs.Leads.{links_base};

    /// Whether it is a JALR whose base is the register that it writes, other than x0.
    pub fn links_base(&self) -> bool
        ensures { result ≡ links_base self.now.instr }
    {
        match self.instr {
            Some(Instr::Jalr { rd, rs1, .. }) => rd == rs1 && rd != 0,
            _ => false,
        }
    }
}

/// A basic block: units that run one behind the other, entered at the first alone.
#[derive(Drop)]
pub struct Block {
    /// The address of its first unit.
    pub start: u32,
    /// Its units, in order.
    pub units: Vec<Unit>,
    /// How it ends.
    pub end: End,
    /// The function in whose range it starts: its place among the functions of the code.
    pub function: Option<u32>,
}

/// A function, which shares no byte with another.
#[derive(Clone, Copy)]
pub struct Function {
    /// The number of its symbol.
    pub name: u32,
    /// Its first address.
    pub start: u32,
    /// How many bytes it has.
    pub size: u32,
}

/// The code of a program.
#[derive(Drop)]
pub struct Code {
    /// The functions, by start.
    pub functions: Vec<Function>,
    /// The blocks, by start.
    pub blocks: Vec<Block>,
    /// The leaders that a jump to an address in a register may reach, ascending.
    pub indirect: Vec<u32>,
    /// Where execution begins.
    pub entry: u32,
}
