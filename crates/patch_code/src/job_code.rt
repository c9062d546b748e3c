// The instructions of copy jobs.
ghost use Rattle.std.specs.Prelude.{◌≡◌, ℕ, ◌+◌, ◌<◌, ◌≤◌, ◌++◌, All, OnOk, pos, negsuc};
ghost use Rattle.std.specs.List.{flat_map};
ghost use Rattle.rv32im.specs.declared.instructions.ImmKind.TheVariants.{Addi};
ghost use Rattle.patch_code.specs.Jobs.{copies_words, copying, fences, unit_bytes, unit_load, unit_store, IsJob};

use crate::job::CopyJob;
use rv32im::{BranchKind, Instr, LoadKind, StoreKind, addi, lo12, lui};
use std::alloc::AllocError;

// Whether a job copies words: both addresses and the number of bytes are multiples of four.
fn copies_words(job: &CopyJob) -> bool
    ensures { result ≡ copies_words job.now }
{
    job.from % 4 == 0 && (job.to % 4 == 0 && job.bytes % 4 == 0)
}

// A unit from the address in x5 to x31.
fn load_unit(words: bool) -> Instr
    ensures { result ≡ Instr.Load (unit_load words) 31 5 (pos 0) }
{
    let kind = if words { LoadKind::Lw } else { LoadKind::Lbu };
    Instr::Load {
        kind,
        rd: 31,
        rs1: 5,
        imm: 0,
    }
}

// A unit from x31 to the address in x7.
fn store_unit(words: bool) -> Instr
    ensures { result ≡ Instr.Store (unit_store words) 7 31 (pos 0) }
{
    let kind = if words { StoreKind::Sw } else { StoreKind::Sb };
    Instr::Store {
        kind,
        rs1: 7,
        rs2: 31,
        imm: 0,
    }
}

// An address goes on by a unit.
fn next_unit(rd: u8, words: bool) -> Instr
    ensures { result ≡ Instr.OpImm Addi rd rd (pos (unit_bytes words)) }
{
    addi(rd, rd, if words { 4 } else { 1 })
}

// Back to the load, until x5 is the end in x28.
fn back_to_load() -> Instr
    ensures { result ≡ Instr.Branch BranchKind.Bne 5 28 (negsuc 15) }
{
    Instr::Branch {
        kind: BranchKind::Bne,
        rs1: 5,
        rs2: 28,
        off: -16,
    }
}

// The instructions of a job: LUI and ADDI leave the source in x5, the target in x7 and the source's
// end in x28, before the turns.
#[tactic(auto, unfolding(crate::specs::Jobs::copying))]
fn copying(job: &CopyJob) -> [Instr; 11]
    requires { IsJob job.now }
    ensures { result ≡ copying job.now }
{
    let end = job.from + job.bytes;
    let words = copies_words(job);
    [
        lui(5, job.from),
        addi(5, 5, lo12(job.from)),
        lui(7, job.to),
        addi(7, 7, lo12(job.to)),
        lui(28, end),
        addi(28, 28, lo12(end)),
        load_unit(words),
        store_unit(words),
        next_unit(5, words),
        next_unit(7, words),
        back_to_load(),
    ]
}

/// Adds the instructions of all jobs, in order. It fails only where no memory was left.
pub fn push_jobs(code: &mut Vec<Instr>, jobs: &[CopyJob]) -> Result<(), AllocError>
    requires { All IsJob jobs.now }
    ensures { OnOk result (code.new.items ≡ code.old.items ++ flat_map copying jobs.now) }
{
    for job in jobs {
        code.extend_from_slice(&copying(job))?;
    }
    Ok(())
}

/// Adds FENCE.I, where one is asked for. It fails only where no memory was left.
pub fn push_fence(code: &mut Vec<Instr>, fence_i: bool) -> Result<(), AllocError>
    ensures { OnOk result (code.new.items ≡ code.old.items ++ fences fence_i) }
{
    if fence_i {
        code.push(Instr::FenceI { bits: 0 })?;
    }
    Ok(())
}
