//! The words of one unit's copy.

ghost use Rattle.std.specs.Prelude.{◌≡◌, ◌<◌, true, length, All, IfOk};
ghost use Rattle.rv32im.specs.{Table.{IsInRange}, Sequences.{load_immediate}};
ghost use Rattle.block_splitter.specs.{Forms.{holds_block}, Pieces.{HasTemporary}, Copies.{address_of, place_of, IsUnitCopy, JumpsOut, IsBranchCopy, IsJumpCopy}, Copying.{copy_in, IsPlan, AreStarts, Appends, HasUnit, IsCopyAt, HasFields, HasExits, HasExit}};

use crate::copy_lookups::{start_inside, temporary};
use crate::copy_plan::CopyPlan;
use crate::kinds::kind_of;
use crate::sequences::{branch, link_and_jump};
use crate::unit_kind::UnitKind;
use crate::words::{push_code, push_word, word_of_unit};
use code_blocks::Unit;
use rv32im::{BranchKind, Instr, inverse, jump, jump_absolute, load_immediate};
use std::alloc::AllocError;

/// Adds the words of unit `k` of block `b`.
pub(crate) fn push_unit(
    words: &mut Vec<u32>,
    plan: &CopyPlan,
    starts: &[u32],
    b: usize,
    k: usize,
) -> Result<(), AllocError>
    requires plan { IsPlan plan.now }
    requires starts { AreStarts (copy_in plan.now) starts.now }
    requires block { holds_block b plan.now.range ≡ true }
    requires unit { HasUnit plan.now.code.now b k }
    requires place { length words.old.items ≡ place_of (copy_in plan.now) b k }
    ensures { IfOk result (λ _. Appends words.old.items words.new.items (IsCopyAt (copy_in plan.now) b k)) }
{
    let block = &plan.code.blocks[b];
    let kind = kind_of(plan.graph, block, k);
    push_kind(words, plan, starts, &block.units[k], kind)
}

/// Adds the words of a unit of a kind.
fn push_kind(
    words: &mut Vec<u32>,
    plan: &CopyPlan,
    starts: &[u32],
    unit: &Unit,
    kind: UnitKind,
) -> Result<(), AllocError>
    requires plan { IsPlan plan.now }
    requires starts { AreStarts (copy_in plan.now) starts.now }
    requires fields { HasFields kind }
    requires exits { HasExits (copy_in plan.now) kind }
    requires room { length words.old.items < 1024 }
    ensures { IfOk result (λ _. Appends words.old.items words.new.items (IsUnitCopy (copy_in plan.now) (address_of (copy_in plan.now) (length words.old.items)) unit.now kind)) }
{
    match kind {
        UnitKind::Plain => push_word(words, word_of_unit(plan.sites, unit)),
        UnitKind::Upper { rd, value } => push_code(words, &load_immediate(rd, value)),
        UnitKind::Branch {
            kind,
            rs1,
            rs2,
            target,
        } => push_branch(words, plan, starts, kind, rs1, rs2, target),
        UnitKind::Jump { target } => push_jump(words, plan, starts, target),
        UnitKind::Call { target, back, link } => push_call(words, plan, target, back, link),
        UnitKind::Tail { target, register } => push_code(words, &jump_absolute(register, target)),
        UnitKind::Indirect => push_word(words, unit.raw),
        UnitKind::Linking {
            back,
            link,
            base,
            imm,
        } => push_code(words, &link_and_jump(back, link, base, imm)),
        UnitKind::Halt => push_word(words, unit.raw),
    }
}

/// Adds a branch: one to the copy of its target, or one that skips a jump to it.
fn push_branch(
    words: &mut Vec<u32>,
    plan: &CopyPlan,
    starts: &[u32],
    kind: BranchKind,
    rs1: u8,
    rs2: u8,
    target: u32,
) -> Result<(), AllocError>
    requires plan { IsPlan plan.now }
    requires starts { AreStarts (copy_in plan.now) starts.now }
    requires fields { (rs1 < 32) × (rs2 < 32) }
    requires exit { HasExit (copy_in plan.now) target }
    requires room { length words.old.items < 1024 }
    ensures { IfOk result (λ _. Appends words.old.items words.new.items (IsBranchCopy (copy_in plan.now) (address_of (copy_in plan.now) (length words.old.items)) kind rs1 rs2 target)) }
{
    match start_inside(plan, starts, target) {
        Some(start) => {
            let here = 4 * (words.len() as u32);
            push_code(words, &[branch(kind, rs1, rs2, here, start)])
        }
        None => {
            let skip = Instr::Branch {
                kind: inverse(kind),
                rs1,
                rs2,
                off: 12,
            };
            push_jump_out(words, plan, &[skip], target, 0)
        }
    }
}

/// Adds a jump: a JAL to the copy of its target, or one by a register.
pub(crate) fn push_jump(
    words: &mut Vec<u32>,
    plan: &CopyPlan,
    starts: &[u32],
    target: u32,
) -> Result<(), AllocError>
    requires plan { IsPlan plan.now }
    requires starts { AreStarts (copy_in plan.now) starts.now }
    requires exit { HasExit (copy_in plan.now) target }
    requires room { length words.old.items < 1024 }
    ensures { IfOk result (λ _. Appends words.old.items words.new.items (IsJumpCopy (copy_in plan.now) (address_of (copy_in plan.now) (length words.old.items)) target)) }
{
    match start_inside(plan, starts, target) {
        Some(start) => {
            let here = 4 * (words.len() as u32);
            push_code(words, &[jump(here, start)])
        }
        None => push_jump_out(words, plan, &[], target, 0),
    }
}

/// Adds a call, which comes back at home.
fn push_call(
    words: &mut Vec<u32>,
    plan: &CopyPlan,
    target: u32,
    back: u32,
    link: u8,
) -> Result<(), AllocError>
    requires plan { IsPlan plan.now }
    requires link { link < 32 }
    requires exit { HasTemporary plan.now.code.now target link }
    ensures { IfOk result (λ _. Appends words.old.items words.new.items (JumpsOut plan.now.code.now (load_immediate link back) target link)) }
{
    push_jump_out(words, plan, &load_immediate(link, back), target, link)
}

/// Adds these instructions, and a jump to an address by a register that may be written there and isn't `link`.
pub(crate) fn push_jump_out(
    words: &mut Vec<u32>,
    plan: &CopyPlan,
    before: &[Instr],
    target: u32,
    link: u8,
) -> Result<(), AllocError>
    requires plan { IsPlan plan.now }
    requires before { All IsInRange before.now }
    requires link { link < 32 }
    requires exit { HasTemporary plan.now.code.now target link }
    ensures { IfOk result (λ _. Appends words.old.items words.new.items (JumpsOut plan.now.code.now before.now target link)) }
{
    let register = temporary(plan, target, link);
    push_code(words, before)?;
    push_code(words, &jump_absolute(register, target))?;
    Ok(())
}
