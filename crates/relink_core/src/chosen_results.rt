//! The result in which what a choice takes stands in the scratchpad.
ghost use Rattle.std.specs.Prelude.{◌≡◌, ℕ, ◌<◌, List, map, IfOk};
ghost use Rattle.std.specs.List.{All, sum_by};
ghost use Rattle.region_former.specs.declared.table.RegionTable.{RegionTable};
ghost use Rattle.placement_programme.specs.Plain.{PlainProgramme, PlainChoice};
ghost use Rattle.result_laws.specs.ChosenJobs.{is_static};
ghost use Rattle.relink_core.specs.{Copies.{range_in, place_in}, Standing.{HasBytes, IsCopiedRange}, ResultParts.{ArePartsOf, AreParts, AreCopiesOf, HaveCopies, counts_static, stubs_at, HaveRoom, ServeCopies, IsPlanWith, ArePlanned, IsPlacedBy}};

use crate::analysis::least_patch;
use crate::choosing::TakenNames;
use crate::code_regions::CodeRegions;
use crate::copy_source::CopySource;
use crate::copying::copies;
use crate::items::PlannedItems;
use crate::padding::padded_words;
use crate::patching::patches;
use crate::placed_copy::PlacedCopy;
use crate::plan::patch_plan;
use crate::segments::patch_segment;
use crate::serving::serving_stubs;
use crate::symbol_moves::symbol_moves;
use board_config::Board;
use elf_reader::ElfView;
use elf_writer::write;
use patch_code::{Stub, StubPlan};
use placement_programme::VarName;
use std::alloc::{AllocError, Global};

/// What a result is made of: a file and the code whose pieces are copied, its regions, and what is taken.
#[derive(Drop)]
pub(crate) struct ResultParts<'a> {
    pub(crate) view: &'a ElfView<'a>,
    pub(crate) source: &'a CopySource<'a>,
    pub(crate) regions: &'a CodeRegions<'a>,
    pub(crate) board: &'a Board,
    pub(crate) taken: &'a TakenNames,
}

/// The copies of what is taken, and a plan of the patch range for them.
#[derive(Drop)]
pub(crate) struct PlannedResult {
    pub(crate) copies: Vec<PlacedCopy>,
    pub(crate) plan: StubPlan,
}

/// A result, the copies and the stubs that stand in it, and where each stub does.
#[derive(Drop)]
pub(crate) struct PlacedResult {
    pub(crate) bytes: Vec<u8>,
    pub(crate) copies: Vec<PlacedCopy>,
    pub(crate) stubs: Vec<Stub>,
    pub(crate) stub_at: Vec<u32>,
}

/// How many bytes a copy job takes.
const JOB_SIZE: u32 = 44;

/// The copies of what is taken, each at its slot. It fails only where no memory was left.
pub(crate) fn placed_copies(
    alloc: Global,
    parts: &ResultParts,
) -> Result<Vec<PlacedCopy>, AllocError>
    requires { AreParts parts.now }
    ensures are { IfOk result (λ xs. (file : List ℕ) (t : RegionTable) (p : PlainProgramme) (choice : PlainChoice) → ArePartsOf file t p choice parts.now → AreCopiesOf p choice parts.now xs.items) }
    ensures ranges { IfOk result (λ xs. map range_in xs.items ≡ parts.now.taken.now.ranges.items) }
    ensures places { IfOk result (λ xs. map place_in xs.items ≡ parts.now.taken.now.places.code.items) }
    ensures whole { IfOk result (λ xs. All (HasBytes parts.now.source.now.graph.now parts.now.source.now.code.now) xs.items) }
    ensures pieces { IfOk result (λ xs. All (IsCopiedRange parts.now.source.now.graph.now parts.now.source.now.code.now) xs.items) }
{
    match copies(
        alloc,
        parts.source,
        &parts.taken.ranges,
        &parts.taken.places.code,
    ) {
        Ok(copies) => Ok(copies),
        Err(error) => Err(error),
    }
}

/// Whether a name stands in the scratchpad throughout.
fn is_static(name: VarName) -> bool
    ensures { result ≡ is_static name }
{
    matches!(
        name,
        VarName::StaticData { .. } | VarName::StaticCode { .. }
    )
}

/// How many do.
fn static_count(names: &[VarName]) -> usize
    ensures { result ≡ sum_by counts_static names.now }
{
    let mut count = 0;
    for k in 0..names.len() {
        if is_static(names[k]) {
            count += 1;
        }
    }
    count
}

/// Where the first stub stands: behind the start stub.
fn first_stub(board: &Board, names: &[VarName]) -> u32
    requires { stubs_at board.now names.now < 4294967296 }
    ensures { result ≡ stubs_at board.now names.now }
{
    board.patch.base + (least_patch(board.fence_i) + JOB_SIZE * static_count(names) as u32)
}

/// The stubs of these copies and of the regions. It fails only where no memory was left.
pub(crate) fn placed_stubs(
    alloc: Global,
    parts: &ResultParts,
    copies: &[PlacedCopy],
) -> Result<Vec<Stub>, AllocError>
    requires copies { HaveCopies parts.now copies.now }
    requires room { HaveRoom parts.now copies.now }
    ensures { IfOk result (λ stubs. ServeCopies parts.now copies.now stubs.items) }
{
    let first = first_stub(parts.board, &parts.taken.names);
    match serving_stubs(alloc, parts.source, parts.regions, copies, first) {
        Ok(stubs) => Ok(stubs),
        Err(error) => Err(error),
    }
}

/// The plan of the patch range for these copies and stubs. It fails only where no memory was left.
pub(crate) fn placed_plan(
    alloc: Global,
    parts: &ResultParts,
    copies: &[PlacedCopy],
    stubs: Vec<Stub>,
) -> Result<StubPlan, AllocError>
    requires copies { HaveCopies parts.now copies.now }
    requires stubs { ServeCopies parts.now copies.now stubs.items }
    ensures { IfOk result (λ plan. (file : List ℕ) (t : RegionTable) (p : PlainProgramme) (choice : PlainChoice) → ArePartsOf file t p choice parts.now → AreCopiesOf p choice parts.now copies.now → IsPlanWith file t p choice parts.now copies.now plan) }
{
    let items = PlannedItems {
        graph: parts.source.graph,
        places: &parts.taken.places,
        names: &parts.taken.names,
        copies,
        regions: parts.regions.count,
    };
    match patch_plan(alloc, parts.view.entry, parts.board, &items, stubs) {
        Ok(plan) => Ok(plan),
        Err(error) => Err(error),
    }
}

/// The copies of what is taken, and the plan of the patch range for them. It fails only where no memory was left.
pub(crate) fn planned_result(
    alloc: Global,
    parts: &ResultParts,
) -> Result<PlannedResult, AllocError>
    requires { AreParts parts.now }
    ensures planned { IfOk result (λ r. (file : List ℕ) (t : RegionTable) (p : PlainProgramme) (choice : PlainChoice) → ArePartsOf file t p choice parts.now → ArePlanned file t p choice parts.now r) }
    ensures ranges { IfOk result (λ r. map range_in r.copies.items ≡ parts.now.taken.now.ranges.items) }
    ensures places { IfOk result (λ r. map place_in r.copies.items ≡ parts.now.taken.now.places.code.items) }
    ensures whole { IfOk result (λ r. All (HasBytes parts.now.source.now.graph.now parts.now.source.now.code.now) r.copies.items) }
    ensures pieces { IfOk result (λ r. All (IsCopiedRange parts.now.source.now.graph.now parts.now.source.now.code.now) r.copies.items) }
{
    let copies = placed_copies(alloc, parts)?;
    let stubs = placed_stubs(alloc, parts, &copies)?;
    match placed_plan(alloc, parts, &copies, stubs) {
        Ok(plan) => Ok(PlannedResult { copies, plan }),
        Err(error) => Err(error),
    }
}

/// The result for what is taken. It fails only where no memory was left.
pub(crate) fn placed_result(alloc: Global, parts: &ResultParts) -> Result<PlacedResult, AllocError>
    requires { AreParts parts.now }
    ensures placed { IfOk result (λ r. (file : List ℕ) (t : RegionTable) (p : PlainProgramme) (choice : PlainChoice) → ArePartsOf file t p choice parts.now → IsPlacedBy file t p choice parts.now r) }
    ensures ranges { IfOk result (λ r. map range_in r.copies.items ≡ parts.now.taken.now.ranges.items) }
    ensures places { IfOk result (λ r. map place_in r.copies.items ≡ parts.now.taken.now.places.code.items) }
    ensures whole { IfOk result (λ r. All (HasBytes parts.now.source.now.graph.now parts.now.source.now.code.now) r.copies.items) }
    ensures pieces { IfOk result (λ r. All (IsCopiedRange parts.now.source.now.graph.now parts.now.source.now.code.now) r.copies.items) }
{
    let (source, taken) = (parts.source, parts.taken);
    let planned = planned_result(alloc, parts)?;
    let plan = &planned.plan;
    let patch = patch_segment(alloc, plan)?;
    let padded = padded_words(alloc, source.sites, &plan.stubs, &patch.stub_at)?;
    let patches = patches(alloc, parts.view, &padded)?;
    let moves = symbol_moves(
        alloc,
        parts.view,
        source.graph,
        &taken.places,
        &taken.objects,
    )?;
    match write(alloc, parts.view, &patches, Some(&patch.segment), &moves) {
        Ok(bytes) => Ok(PlacedResult {
            bytes,
            copies: planned.copies,
            stubs: planned.plan.stubs,
            stub_at: patch.stub_at,
        }),
        Err(error) => Err(error),
    }
}
