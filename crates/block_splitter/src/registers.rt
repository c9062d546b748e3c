ghost use Rattle.std.specs.Prelude.{◌≡◌, ◌<◌, ◌↔◌, true};
ghost use Rattle.code_blocks.specs.declared.parts.Code.{Code};
ghost use Rattle.dataflow.specs.Tables.{IsTableOf};
ghost use Rattle.block_splitter.specs.Pieces.{only, HasTemporary};

use dataflow::LiveTable;
use rv32im::RegSet;

/// The set of one register.
pub(crate) fn only(register: u8) -> RegSet
    requires { register < 32 }
    ensures { result ≡ only register }
{
    RegSet {
        bits: 1 << register,
    }
}

/// Whether a jump to the block at an address has a register to write, besides `link`; x0 is none to spare.
pub(crate) fn has_temporary(live: &LiveTable, address: u32, link: u8) -> bool
    requires { link < 32 }
    ensures { (c : Code) → IsTableOf c live.now → (result ≡ true) ↔ HasTemporary c address link }
{
    match live.dead_at(address, only(link)) {
        Some(_) => true,
        None => false,
    }
}
