ghost use Rattle.std.specs.Prelude.{◌≡◌, ◌+◌, ◌%◌, ◌<◌, ◌∷◌, [], length, map, pos, IfOk};
ghost use Rattle.std.specs.List.Sorted.{IsStrictlyIncreasing};
ghost use Rattle.rv32im.specs.Sequences.{distance, MeanAll};
ghost use Rattle.code_blocks.specs.Blocks.{IsSomeCode};
ghost use Rattle.object_graph.specs.Lookups.{IsSomeGraph};
ghost use Rattle.block_splitter.specs.{Forms.{is_site, body_at, unit_in, kind_of}, Copies.{address_in, HasSites, IsDisplaced, Reaches, ReachesTargets, RunsThenJumps}, Copying.{HasFields}};

use crate::kinds::kind_of;
use crate::sequences::{link_and_jump, load_and_jump};
use crate::unit_kind::UnitKind;
use crate::words::word_of_unit;
use code_blocks::{Code, Unit};
use object_graph::Graph;
use rv32im::{BranchKind, Instr, encode, encode_all, jump};
use std::alloc::{AllocError, Global};

/// The words of the first unit of a block where it is displaced to `at`, with these words at sites: they run as it
/// does at home, and go on behind it there. It fails only where no memory was left.
///
/// The time grows with the logarithm of the number of sites.
pub fn displaced(
    alloc: Global,
    block: u32,
    code: &Code,
    graph: &Graph,
    at: u32,
    sites: &[(u32, u32)],
) -> Result<Vec<u32>, AllocError>
    requires code { IsSomeCode code.now }
    requires graph { IsSomeGraph graph.now }
    requires block { block < length code.now.blocks.items }
    requires aligned { at % 4 ≡ 0 }
    requires reach { let body = body_at code.now.blocks.items block in
        ReachesTargets at ((unit_in body 0).at + 4) (kind_of (is_site graph.now) body 0) }
    requires sites { HasSites code.now graph.now sites.now }
    ensures { let body = body_at code.now.blocks.items block in
        IfOk result (λ words. IsDisplaced sites.now at (unit_in body 0) (kind_of (is_site graph.now) body 0) words.items) }
{
    let block = &code.blocks[block as usize];
    let kind = kind_of(graph, block, 0);
    displaced_unit(alloc, &block.units[0], kind, at, sites)
}

/// The words of a unit of a kind where it is displaced.
fn displaced_unit(
    alloc: Global,
    unit: &Unit,
    kind: UnitKind,
    at: u32,
    sites: &[(u32, u32)],
) -> Result<Vec<u32>, AllocError>
    requires fields { HasFields kind }
    requires reach { ReachesTargets at (unit.now.at + 4) kind }
    requires sites { IsStrictlyIncreasing (map address_in sites.now) }
    ensures { IfOk result (λ words. IsDisplaced sites.now at unit.now kind words.items) }
{
    let next = unit.at.wrapping_add(4);
    match kind {
        UnitKind::Plain => run_and_jump(alloc, word_of_unit(sites, unit), at, next),
        UnitKind::Upper { rd, value } => encode_all(alloc, &load_and_jump(rd, value, at, next)),
        UnitKind::Branch {
            kind,
            rs1,
            rs2,
            target,
        } => displaced_branch(alloc, kind, rs1, rs2, target, at, next),
        UnitKind::Jump { target } => one_jump(alloc, at, target),
        UnitKind::Call { target, back, link } => {
            encode_all(alloc, &load_and_jump(link, back, at, target))
        }
        UnitKind::Tail { target, .. } => one_jump(alloc, at, target),
        UnitKind::Indirect => one_word(alloc, unit.raw),
        UnitKind::Linking {
            back,
            link,
            base,
            imm,
        } => encode_all(alloc, &link_and_jump(back, link, base, imm)),
        UnitKind::Halt => one_word(alloc, unit.raw),
    }
}

fn one_word(alloc: Global, word: u32) -> Result<Vec<u32>, AllocError>
    ensures { IfOk result (λ words. words.items ≡ word ∷ []) }
{
    let mut words = Vec::new(alloc);
    words.push(word)?;
    Ok(words)
}

/// A jump at an address to another.
fn one_jump(alloc: Global, at: u32, to: u32) -> Result<Vec<u32>, AllocError>
    requires { Reaches at to }
    ensures { IfOk result (λ words. MeanAll words.items (Instr.Jal 0 (distance at to) ∷ [])) }
{
    encode_all(alloc, &[jump(at, to)])
}

/// A word at an address, and a jump behind it.
fn run_and_jump(alloc: Global, word: u32, at: u32, next: u32) -> Result<Vec<u32>, AllocError>
    requires { Reaches (at + 4) next }
    ensures { IfOk result (λ words. RunsThenJumps at word next words.items) }
{
    let mut words = Vec::new(alloc);
    words.push(word)?;
    words.push(encode(&jump(at.wrapping_add(4), next)))?;
    Ok(words)
}

/// A branch at an address that skips the jump home, to a jump to its target.
fn displaced_branch(
    alloc: Global,
    kind: BranchKind,
    rs1: u8,
    rs2: u8,
    target: u32,
    at: u32,
    next: u32,
) -> Result<Vec<u32>, AllocError>
    requires fields { (rs1 < 32) × (rs2 < 32) }
    requires home { Reaches (at + 4) next }
    requires target { Reaches (at + 8) target }
    ensures { IfOk result (λ words. MeanAll words.items (Instr.Branch kind rs1 rs2 (pos 8) ∷ Instr.Jal 0 (distance (at + 4) next) ∷ Instr.Jal 0 (distance (at + 8) target) ∷ [])) }
{
    let branch = Instr::Branch {
        kind,
        rs1,
        rs2,
        off: 8,
    };
    let home = jump(at.wrapping_add(4), next);
    let away = jump(at.wrapping_add(8), target);
    encode_all(alloc, &[branch, home, away])
}
