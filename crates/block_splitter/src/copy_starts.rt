ghost use Rattle.std.specs.Prelude.{◌≡◌, true, IfOk};
ghost use Rattle.code_blocks.specs.Numbers.{end_at};
ghost use Rattle.block_splitter.specs.{Forms.{is_site, body_at, holds_block, block_size, copy_size, fall_out_size}, Copies.{is_inside, kind_in}, Copying.{copy_in, IsPlan, HasUnit, AreStarts}};

use crate::copy_lookups::is_inside;
use crate::copy_plan::CopyPlan;
use crate::kinds::{copy_size, fall_out_size, kind_of};
use crate::unit_kind::UnitKind;
use code_blocks::End;
use std::alloc::{AllocError, Global};

/// Where each block of a copy begins, in bytes from its beginning.
pub(crate) fn copy_starts(alloc: Global, plan: &CopyPlan) -> Result<Vec<u32>, AllocError>
    requires { IsPlan plan.now }
    ensures { IfOk result (λ starts. AreStarts (copy_in plan.now) starts.items) }
{
    let mut starts = Vec::new(alloc);
    let mut words = 0;
    for b in plan.range.first as usize..plan.range.last as usize + 1 {
        starts.push(4 * words)?;
        words += block_words(plan, b);
    }
    Ok(starts)
}

/// How many words the copy of a block has.
fn block_words(plan: &CopyPlan, b: usize) -> u32
    requires plan { IsPlan plan.now }
    requires block { holds_block b plan.now.range ≡ true }
    ensures { result ≡ block_size (is_site plan.now.graph.now) (is_inside (copy_in plan.now)) (body_at plan.now.code.now.blocks.items b) }
{
    let mut words = 0;
    for k in 0..plan.code.blocks[b].units.len() {
        words += unit_words(plan, b, k);
    }
    words + fall_out_words(plan, b)
}

/// How many words the copy of unit `k` of a block has.
fn unit_words(plan: &CopyPlan, b: usize, k: usize) -> u32
    requires plan { IsPlan plan.now }
    requires block { holds_block b plan.now.range ≡ true }
    requires unit { HasUnit plan.now.code.now b k }
    ensures { result ≡ copy_size (is_inside (copy_in plan.now)) (kind_in (copy_in plan.now) b k) }
{
    let kind = kind_of(plan.graph, &plan.code.blocks[b], k);
    copy_size(&kind, leads_inside(plan, &kind))
}

/// Whether a branch or a jump leads to a block of the copy.
fn leads_inside(plan: &CopyPlan, kind: &UnitKind) -> bool
    requires { IsPlan plan.now }
    ensures { copy_size (λ a. result) kind.now ≡ copy_size (is_inside (copy_in plan.now)) kind.now }
{
    match *kind {
        UnitKind::Branch { target, .. } => is_inside(plan, target),
        UnitKind::Jump { target } => is_inside(plan, target),
        _ => false,
    }
}

/// How many words stand behind the last unit of a block.
fn fall_out_words(plan: &CopyPlan, b: usize) -> u32
    requires plan { IsPlan plan.now }
    requires block { holds_block b plan.now.range ≡ true }
    ensures { result ≡ fall_out_size (is_inside (copy_in plan.now)) (end_at plan.now.code.now b) }
{
    let end = &plan.code.blocks[b].end;
    fall_out_size(end, falls_inside(plan, end))
}

/// Whether the block behind one that falls is of the copy.
fn falls_inside(plan: &CopyPlan, end: &End) -> bool
    requires { IsPlan plan.now }
    ensures { fall_out_size (λ a. result) end.now ≡ fall_out_size (is_inside (copy_in plan.now)) end.now }
{
    match *end {
        End::Fall { next } => is_inside(plan, next),
        End::Branch { next, .. } => is_inside(plan, next),
        _ => false,
    }
}
