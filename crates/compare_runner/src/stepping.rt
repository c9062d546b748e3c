//! A step of a program, and those of its result.
ghost use Rattle.std.specs.Prelude.{◌≡◌, ◌<◌, ◌^◌, ℕ, None, IfOk, MatchBool, MatchOption};
ghost use Rattle.flat_machine.specs.Machine as flat_machine_specs;
ghost use Rattle.code_blocks.specs.Numbers.{starts_of};
ghost use Rattle.object_machine.specs.{Program.{Program}, Machine.{state_of, IsProgram}};
ghost use Rattle.profile_runner.specs.Standing.{entered};
ghost use Rattle.result_laws.specs.ResultLaws as result_laws;
ghost use Rattle.compare_runner.specs.{Comings.{region_behind}, Tracing.{told_access, CanTell}, Seeking.{next_by}, Stepping.{traced_by, AreInOrder, told_step, TracesStep}};

use crate::forms::Sought;
use crate::marks::{TracedAccess, TracedStep};
use crate::seeking::{Came, Next, seek_next};
use board_config::Board;
use code_blocks::Code;
use elf_reader::ElfView;
use flat_machine::{Flat, FlatAccess};
use object_graph::Graph;
use object_machine::{Access, Event, Outcome, Source};
use paged_store::ByteStore;
use region_former::RegionTable;
use relink_core::UnitAt;
use std::alloc::AllocError;

/// A program, its code with the regions, and where its units stand in a result.
#[derive(Clone, Copy)]
pub(crate) struct Traced<'a> {
    pub(crate) view: &'a ElfView<'a>,
    pub(crate) graph: &'a Graph,
    pub(crate) code: &'a Code,
    pub(crate) regions: &'a RegionTable,
    /// The forms of all units, in order.
    pub(crate) units: &'a [UnitAt],
    pub(crate) board: &'a Board,
}

/// The region that is current once a block of this region began: a block of none leaves it as it is.
fn entered(current: u32, region: u32) -> u32
    ensures { result ≡ entered current region }
{
    if region == 0 { current } else { region }
}

/// The region that is current once the program has come to an address.
pub(crate) fn region_behind(of: &Traced, from: u32, at: u32) -> u32
    requires { AreInOrder of.now }
    ensures { result ≡ region_behind (starts_of of.now.code.now) of.now.regions.now.of_block.items from at }
{
    match of.code.block_at(at) {
        Some(block) => entered(from, of.regions.of_block[block as usize]),
        None => from,
    }
}

/// How many steps of a result are enough for one of its program.
pub(crate) fn most_steps(board: &Board) -> u64
    ensures is { result ≡ result_laws.most_steps board.now }
    ensures small { result < 2 ^ 63 }
{
    12 * u64::from(board.spm.size) + 256
}

/// Where control of the result is looked for behind a step that came to an outcome.
fn next_by<'a>(outcome: Outcome, sought: Sought<'a>) -> Next<'a>
    ensures { result ≡ next_by outcome sought.entry }
{
    match outcome {
        Outcome::GoesOn => Next::Form(sought),
        Outcome::Exited(_) | Outcome::Trapped { .. } | Outcome::AddressFault { .. } => Next::End,
    }
}

/// What is told of the access of a unit, whose first step in the result makes another.
fn told_access(access: Option<Access>, made: Option<FlatAccess>) -> Option<TracedAccess>
    ensures { result ≡ told_access access made }
{
    match (access, made) {
        (Some(access), Some(made)) => Some(TracedAccess {
            object: access.object,
            offset: access.offset,
            write: access.write,
            at: made.at,
        }),
        _ => None,
    }
}

/// Whether there is nothing to tell, or the step in the result makes an access, too.
fn can_tell(access: Option<Access>, made: Option<FlatAccess>) -> bool
    ensures { MatchBool result (CanTell access made) (CanTell access made → ⊥) }
{
    match (access, made) {
        (Some(_), None) => false,
        _ => true,
    }
}

/// What is told of a step, if it can be told: behind it the result came along so, from a form at an address.
fn told_step(event: &Event, region: u32, at: u32, came: Came) -> Option<TracedStep>
    ensures { MatchOption result (CanTell event.now.access came.access → ⊥) (λ x. CanTell event.now.access came.access × (x ≡ told_step event.now region at came)) }
{
    if !can_tell(event.access, came.access) {
        return None;
    }
    Some(TracedStep {
        home: event.at,
        region,
        at,
        steps: came.steps,
        access: told_access(event.access, came.access),
    })
}

/// The same where the result may not have come along, of which nothing is told.
fn told_behind(event: &Event, region: u32, at: u32, came: Option<Came>) -> Option<TracedStep>
    ensures { MatchOption came (result ≡ None)
        (λ found. MatchOption result (CanTell event.now.access found.access → ⊥) (λ x. CanTell event.now.access found.access × (x ≡ told_step event.now region at found))) }
{
    match came {
        Some(came) => told_step(event, region, at, came),
        None => None,
    }
}

/// Takes a step of a program that goes on, and those of its result that belong to it. Tells nothing where the step can't be
/// traced.
///
/// It fails only where no memory was left; the contract says nothing of the machines then.
pub(crate) fn trace_step<S: ByteStore>(
    of: &Traced,
    source: &mut Source,
    flat: &mut Flat<S>,
    region: &mut u32,
) -> Result<Option<TracedStep>, AllocError>
    requires traced { AreInOrder of.now }
    requires going { (p : Program) → (state_of p source.old).outcome ≡ Outcome.GoesOn }
    ensures { IfOk result (λ told. (p : Program) → IsProgram p source.old → IsProgram p source.new
        × TracesStep (traced_by p of.now) region.old (state_of p source.old) (flat_machine_specs.state_of S.byte_at flat.old) region.new (state_of p source.new) (flat_machine_specs.state_of S.byte_at flat.new) told) }
{
    let at = flat.at();
    let from = *region;
    let event = source.step()?;
    let pc = source.at();
    let to = region_behind(of, from, pc);
    let sought = Sought {
        units: of.units,
        from,
        to,
        home: pc,
    };
    *region = to;
    let next = next_by(event.outcome, sought);
    let came = seek_next(flat, &next, &of.board.patch, most_steps(of.board))?;
    Ok(told_behind(&event, from, at, came))
}
