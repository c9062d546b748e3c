//! Traces of a program beside its result.
ghost use Rattle.std.specs.Prelude.{◌≡◌, ◌++◌, ℕ, List, length, IfOk, MatchBool, true};
ghost use Rattle.std.specs.List.{AllPairs, flat_map};
ghost use Rattle.elf_reader.specs.{File.{plain_view, segments_of}, Loadable.{AreLoadable}};
ghost use Rattle.board_config.specs.Board.{IsLawful, mapped_ranges};
ghost use Rattle.flat_machine.specs.Machine as flat_machine_specs;
ghost use Rattle.flat_machine.specs.Start as flat_start;
ghost use Rattle.loaded_file.specs.Read.{IsRead};
ghost use Rattle.object_graph.specs.Graphs.{IsGraph};
ghost use Rattle.code_blocks.specs.{Leaders.{is_leader}, Blocks.{IsCode}};
ghost use Rattle.object_machine.specs.{Program.{Program, program_of}, Start.{start_of}, Machine.{state_of, IsProgram}, Runs.{HasEnded}};
ghost use Rattle.relink_core.specs.UnitMaps.{StandsBefore};
ghost use Rattle.result_laws.specs.ResultLaws as result_laws;
ghost use Rattle.compare_runner.specs.{declared.marks.TracedStep.{TracedStep}, Marks.{step_text}, Comings.{IsAtForm}, Seeking.{StartsWithin, StopsAfter}, Stepping.{traced_by, AreInOrder}, Tracing.{traced_of, region_in}, Telling.{TracesAs, TellsTrace}};

use crate::forms::Sought;
use crate::lines::{push_step, start_line};
use crate::seeking::{Next, seek_start};
use crate::stepping::{Traced, most_steps, region_behind, trace_step};
use board_config::Board;
use elf_reader::ElfView;
use flat_machine::{Flat, FlatOutcome};
use object_machine::{Outcome, Source};
use paged_store::{ByteStore, PageStore};
use relink_core::{Analysis, UnitAt};
use std::alloc::{AllocError, Global};

/// A result of a program, and where the program's units stand in it.
#[derive(Clone, Copy)]
pub struct TracedResult<'a> {
    /// The result, an ELF file.
    pub view: &'a ElfView<'a>,
    /// The forms of all units, in order.
    pub units: &'a [UnitAt],
}

/// A trace.
#[derive(Drop)]
pub struct TraceText {
    /// The line `start M`, and a line for each traced step.
    pub bytes: Vec<u8>,
    /// How many steps of the program are traced.
    pub steps: u64,
    /// Whether the trace is lost: the next step of the program can't be traced.
    pub lost: bool,
}

/// How far a program was traced.
#[derive(Clone, Copy)]
pub(crate) struct TracedSteps {
    pub(crate) steps: u64,
    pub(crate) lost: bool,
}

/// Whether a program goes on no more.
fn has_ended(outcome: Outcome) -> bool
    ensures { MatchBool result (HasEnded outcome) (outcome ≡ Outcome.GoesOn) }
{
    match outcome {
        Outcome::GoesOn => false,
        Outcome::Exited(_) | Outcome::Trapped { .. } | Outcome::AddressFault { .. } => true,
    }
}

/// Takes the steps of a result up to the first unit of its program, which is at `home`, while no region was current before.
/// Tells how many these are.
fn find_first<S: ByteStore>(
    of: &Traced,
    flat: &mut Flat<S>,
    region: u32,
    home: u32,
) -> Result<u64, AllocError>
    requires traced { AreInOrder of.now }
    requires going { (flat_machine_specs.state_of S.byte_at flat.old).outcome ≡ FlatOutcome.GoesOn }
    requires starts { StartsWithin (IsAtForm of.now.units.now of.now.board.now 0 region home) (result_laws.most_steps of.now.board.now) (flat_machine_specs.state_of S.byte_at flat.old) }
    ensures { IfOk result (λ k. StopsAfter (IsAtForm of.now.units.now of.now.board.now 0 region home) (flat_machine_specs.state_of S.byte_at flat.old) k (flat_machine_specs.state_of S.byte_at flat.new)) }
{
    let next = Next::Form(Sought {
        units: of.units,
        from: 0,
        to: region,
        home,
    });
    match seek_start(flat, &next, &of.board.patch, most_steps(of.board)) {
        Ok(start) => Ok(start),
        Err(error) => Err(error),
    }
}

/// Traces at most `n` steps of a program beside those of its result, from where it is at a form of the program's next unit in
/// the region that is current. Adds a line for each.
///
/// It fails only where no memory was left.
fn trace_steps<S: ByteStore>(
    of: &Traced,
    text: &mut Vec<u8>,
    source: &mut Source,
    flat: &mut Flat<S>,
    region: u32,
    n: u64,
) -> Result<TracedSteps, AllocError>
    requires traced { AreInOrder of.now }
    ensures { IfOk result (λ r. (p : Program) → IsProgram p source.old → (xs : List TracedStep)
        × (TracesAs (traced_by p of.now) n region (state_of p source.old) (flat_machine_specs.state_of S.byte_at flat.old) xs r.steps r.lost
        × (text.new.items ≡ text.old.items ++ flat_map (step_text (plain_view of.now.view.now) of.now.graph.now.objects.items) xs))) }
{
    let alloc = *text.allocator();
    let mut current = region;
    for k in 0..n {
        if has_ended(source.outcome()) {
            return Ok(TracedSteps {
                steps: k,
                lost: false,
            });
        }
        match trace_step(of, source, flat, &mut current)? {
            Some(step) => push_step(alloc, text, of.view, of.graph, &step)?,
            None => return Ok(TracedSteps {
                steps: k,
                lost: true,
            }),
        }
    }
    Ok(TracedSteps {
        steps: n,
        lost: false,
    })
}

/// Traces a program beside its result on an input: at most `count` steps of the program, or fewer where it ends, or where a step
/// can't be traced.
///
/// It fails only where no memory was left.
pub fn trace(
    alloc: Global,
    a: &Analysis,
    relinked: &TracedResult,
    board: &Board,
    input: &[u8],
    count: u64,
) -> Result<TraceText, AllocError>
    requires read { IsRead a.now.view }
    requires graph { IsGraph (plain_view a.now.view) board.now a.now.graph }
    requires code { IsCode (plain_view a.now.view) a.now.code }
    requires lawful { IsLawful board.now }
    requires entry { is_leader (plain_view a.now.view) a.now.view.entry ≡ true }
    requires regions { length a.now.regions.of_block.items ≡ length a.now.code.blocks.items }
    requires loadable { AreLoadable (segments_of relinked.now.view.now) }
    requires ordered { AllPairs StandsBefore relinked.now.units.now }
    requires starts { let v = plain_view a.now.view in
        let w = traced_of v board.now a.now.graph a.now.code a.now.regions relinked.now.units.now in
        let s = start_of v w.program a.now.graph input.now in
        StartsWithin (IsAtForm w.units w.board 0 (region_in w 0 s) s.pc) (result_laws.most_steps board.now) (flat_start.start_of relinked.now.view.now.entry (segments_of relinked.now.view.now) (mapped_ranges board.now) input.now) }
    ensures { IfOk result (λ text. let v = plain_view a.now.view in
        let w = traced_of v board.now a.now.graph a.now.code a.now.regions relinked.now.units.now in
        TellsTrace v a.now.graph.objects.items w count (start_of v w.program a.now.graph input.now)
        (flat_start.start_of relinked.now.view.now.entry (segments_of relinked.now.view.now) (mapped_ranges board.now) input.now) text) }
{
    let of = Traced {
        view: &a.view,
        graph: &a.graph,
        code: &a.code,
        regions: &a.regions,
        units: relinked.units,
        board,
    };
    let mut source = Source::new(alloc, &a.view, &a.graph, &a.code, board, input)?;
    let mut flat = Flat::new(alloc, relinked.view, board, input, PageStore::new(alloc))?;
    match trace_from(alloc, &of, &mut source, &mut flat, count) {
        Ok(text) => Ok(text),
        Err(error) => Err(error),
    }
}

/// Traces a program beside its result, each from where its machine is.
///
/// It fails only where no memory was left.
fn trace_from<S: ByteStore>(
    alloc: Global,
    of: &Traced,
    source: &mut Source,
    flat: &mut Flat<S>,
    count: u64,
) -> Result<TraceText, AllocError>
    requires traced { AreInOrder of.now }
    requires program { IsProgram (program_of (plain_view of.now.view.now) of.now.board.now of.now.graph.now) source.old }
    requires going { (flat_machine_specs.state_of S.byte_at flat.old).outcome ≡ FlatOutcome.GoesOn }
    requires starts { let p = program_of (plain_view of.now.view.now) of.now.board.now of.now.graph.now in
        let w = traced_by p of.now in
        let s = state_of p source.old in
        StartsWithin (IsAtForm w.units w.board 0 (region_in w 0 s) s.pc) (result_laws.most_steps of.now.board.now) (flat_machine_specs.state_of S.byte_at flat.old) }
    ensures { IfOk result (λ text. let v = plain_view of.now.view.now in
        let p = program_of v of.now.board.now of.now.graph.now in
        TellsTrace v of.now.graph.now.objects.items (traced_by p of.now) count (state_of p source.old) (flat_machine_specs.state_of S.byte_at flat.old) text) }
{
    let home = source.at();
    let region = region_behind(of, 0, home);
    let start = find_first(of, flat, region, home)?;
    let mut bytes = start_line(alloc, start)?;
    let traced = trace_steps(of, &mut bytes, source, flat, region, count)?;
    Ok(TraceText {
        bytes,
        steps: traced.steps,
        lost: traced.lost,
    })
}
