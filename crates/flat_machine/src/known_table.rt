// The table of decoded instructions: each word of the program has a slot by its address, modulo the number of slots.
ghost use Rattle.std.specs.Prelude.{◌≡◌, ◌≢◌, ℕ, ◌%◌, ◌<◌, List, length, vec_len, IsTrue, IfOk};
ghost use Rattle.board_config.specs.declared.board.Range.{Range};
ghost use Rattle.rv32im.specs.{Memory.{Memory}, declared.instructions.StoreKind.{StoreKind}, Acts.{store_width, stored}};
ghost use Rattle.flat_machine.specs.{Ops.{instr_of}, Known.{IsKnown, AreKnown, slot_of, vacant, op_at}};

use crate::known::Known;
use crate::op::Op;
use std::alloc::{AllocError, Global};

/// A slot in which nothing is kept.
const VACANT: Known = Known {
    at: 0x1_0000_0000,
    op: Op::Lui { rd: 0, imm: 0 },
};

/// The slot of an address.
// Inlined, as all that a step of a run does, here and below.
#[inline(always)]
fn slot<const SLOTS: usize>(at: u32) -> usize
    requires { 0 < SLOTS }
    ensures place { result ≡ slot_of SLOTS at }
    ensures inside { result < SLOTS }
{
    at as usize / 4 % SLOTS
}

/// A table in which nothing is kept.
#[tactic(auto, unfolding(crate::specs::Known::AreKnown))]
pub fn nothing_known(alloc: Global, slots: usize) -> Result<Vec<Known>, AllocError>
    ensures len { IfOk result (λ known. vec_len known ≡ slots) }
    ensures known { IfOk result (λ known. (map : List Range) (mem : Memory)
        → AreKnown map mem known.items) }
{
    vec![in alloc; VACANT; slots]
}

/// Whether the instruction at an address is kept.
#[inline(always)]
#[tactic(auto, unfolding(crate::specs::Known::AreKnown))]
pub fn is_known<const SLOTS: usize>(known: &[Known], at: u32) -> bool
    requires some { 0 < SLOTS }
    requires len { length known.now ≡ SLOTS }
    ensures { IsTrue result → (map : List Range) (mem : Memory) → AreKnown map mem known.now
        → IsKnown map mem at (instr_of (op_at known.now at)) }
{
    known[slot::<SLOTS>(at)].at == u64::from(at)
}

/// The instruction in the slot of an address.
#[inline(always)]
pub fn kept_at<const SLOTS: usize>(known: &[Known], at: u32) -> Op
    requires some { 0 < SLOTS }
    requires len { length known.now ≡ SLOTS }
    ensures { result ≡ op_at known.now at }
{
    known[slot::<SLOTS>(at)].op
}

/// Keeps the instruction at an address.
#[tactic(auto, unfolding(crate::specs::Known::AreKnown))]
pub fn learn<const SLOTS: usize>(known: &mut [Known], at: u32, op: Op)
    requires some { 0 < SLOTS }
    requires len { length known.old ≡ SLOTS }
    ensures known { (map : List Range) (mem : Memory) → IsKnown map mem at (instr_of op)
        → AreKnown map mem known.old → AreKnown map mem known.new }
{
    known[slot::<SLOTS>(at)] = Known {
        at: u64::from(at),
        op,
    };
}

/// Forgets the instruction whose word has the byte at an address, as is needed after each store.
#[inline(always)]
#[tactic(auto, unfolding(crate::specs::Known::AreKnown))]
pub fn forget<const SLOTS: usize>(known: &mut [Known], at: u32)
    requires some { 0 < SLOTS }
    requires len { length known.old ≡ SLOTS }
    ensures { (map : List Range) (mem : Memory) (kind : StoreKind) (value : ℕ)
        → at % store_width kind ≡ 0 → AreKnown map mem known.old
        → AreKnown map (stored kind mem at value) known.new }
{
    let k = slot::<SLOTS>(at);
    if known[k].at == u64::from(at / 4 * 4) {
        known[k] = VACANT;
    }
}

/// Forgets all instructions, as is needed after a call that put bytes anywhere.
#[tactic(auto, unfolding(crate::specs::Known::AreKnown))]
pub fn forget_all(known: &mut [Known])
    ensures { (map : List Range) (mem : Memory) → AreKnown map mem known.new }
{
    known.fill(VACANT);
}
