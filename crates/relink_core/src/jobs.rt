// The jobs of the names that are copied in a phase.
ghost use Rattle.std.specs.Prelude.{◌≡◌, ◌+◌, ◌<◌, ◌≤◌, true, ◌++◌, [], ◌∷◌, if◌then◌else◌, length, slice_index_or, IfOk, IfSome, OnOk, MatchOption};
ghost use Rattle.cell_values.specs.Objects.{object_of};
ghost use Rattle.relocator.specs.Slots;
ghost use Rattle.relocator.specs.{Slots.{is_code}, Placing.{place_at}};
ghost use Rattle.relink_core.specs.Naming;
ghost use Rattle.result_laws.specs.ChosenJobs.{next_code};
ghost use Rattle.relink_core.specs.Naming.{in_phase, phase_region, IsKnown, CanPlan, images_at, named_into, named_home, phase_entering, phase_leaving};

use crate::items::{Phase, PlannedItems};
use patch_code::CopyJob;
use placement_programme::VarName;
use std::alloc::{AllocError, Global};

/// The pair of a region.
fn pair_of(region: u32) -> u32
    ensures { result ≡ Slots.pair_of region }
{
    region.div_ceil(2)
}

/// Whether a name is copied in a phase.
fn is_in(phase: Phase, name: VarName) -> bool
    ensures { result ≡ in_phase phase name }
{
    match phase {
        Phase::Start => match name {
            VarName::StaticData { .. } | VarName::StaticCode { .. } => true,
            VarName::OverlayData { .. } | VarName::OverlayCode { .. } | VarName::KeptData { .. } =>
                false,
        },
        Phase::Overlaid { region } => match name {
            VarName::OverlayData { region: own, .. } | VarName::OverlayCode { region: own, .. } => {
                own == region
            }
            VarName::StaticData { .. } | VarName::StaticCode { .. } | VarName::KeptData { .. } =>
                false,
        },
        Phase::Kept { region } => match name {
            VarName::KeptData { pair, .. } => pair_of(region) == pair,
            VarName::StaticData { .. }
            | VarName::StaticCode { .. }
            | VarName::OverlayData { .. }
            | VarName::OverlayCode { .. } => false,
        },
    }
}

/// The region in which a phase has its places.
fn region_of(phase: Phase) -> u32
    ensures { result ≡ phase_region phase }
{
    match phase {
        Phase::Start => 0,
        Phase::Overlaid { region } | Phase::Kept { region } => region,
    }
}

/// The job that copies an object into the scratchpad.
fn object_into(items: &PlannedItems, region: u32, object: u32) -> CopyJob
    requires below { object < length items.now.graph.now.objects.items }
    requires region { region ≤ items.now.regions }
    requires can { CanPlan items.now }
    ensures { result ≡ Naming.object_into items.now.graph.now items.now.places.now region object }
{
    let home = &items.graph.objects[object as usize];
    CopyJob {
        from: home.home,
        to: items.places.of[object as usize][region as usize],
        bytes: home.size,
    }
}

/// The job that copies an image to the slot of item `number` of those of code.
fn code_into(items: &PlannedItems, images: &[u32], number: usize) -> CopyJob
    requires slot { number < length items.now.places.now.code.items }
    requires copy { number < length items.now.copies.now }
    requires image { number < length images.now }
    requires can { CanPlan items.now }
    ensures { result ≡ Naming.code_into items.now.places.now (images_at images.now items.now.copies.now) number }
{
    CopyJob {
        from: images[number],
        to: items.places.code[number],
        bytes: 4 * (items.copies[number].code.words.len() as u32),
    }
}

/// The job that copies a name into the scratchpad, where `number` names of code come before it.
fn job_into(
    items: &PlannedItems,
    images: &[u32],
    region: u32,
    name: VarName,
    number: usize,
) -> CopyJob
    requires known { IsKnown items.now.graph.now name }
    requires region { region ≤ items.now.regions }
    requires can { CanPlan items.now }
    requires images { length images.now ≡ length items.now.copies.now }
    requires code { is_code name ≡ true → (number < length items.now.places.now.code.items) × (number < length items.now.copies.now) }
    ensures { result ≡ named_into items.now.graph.now items.now.places.now (images_at images.now items.now.copies.now) region number name }
{
    match name {
        VarName::StaticData { object }
        | VarName::OverlayData { object, .. }
        | VarName::KeptData { object, .. } => object_into(items, region, object),
        VarName::StaticCode { .. } | VarName::OverlayCode { .. } => {
            code_into(items, images, number)
        }
    }
}

/// Adds that job, if the name is copied in the phase.
fn push_into(
    jobs: &mut Vec<CopyJob>,
    items: &PlannedItems,
    images: &[u32],
    phase: Phase,
    name: VarName,
    number: usize,
) -> Result<(), AllocError>
    requires known { IsKnown items.now.graph.now name }
    requires region { phase_region phase ≤ items.now.regions }
    requires can { CanPlan items.now }
    requires images { length images.now ≡ length items.now.copies.now }
    requires code { is_code name ≡ true → (number < length items.now.places.now.code.items) × (number < length items.now.copies.now) }
    ensures { OnOk result (jobs.new.items ≡ jobs.old.items ++ (if in_phase phase name then named_into items.now.graph.now items.now.places.now (images_at images.now items.now.copies.now) (phase_region phase) number name ∷ [] else [])) }
{
    if is_in(phase, name) {
        jobs.push(job_into(items, images, region_of(phase), name, number))?;
    }
    Ok(())
}

/// How many names of code come before the next name.
fn next_code(name: VarName, number: usize) -> usize
    requires { number + 1 < 18446744073709551616 }
    ensures { result ≡ next_code name number }
{
    match name {
        VarName::StaticCode { .. } | VarName::OverlayCode { .. } => number + 1,
        VarName::StaticData { .. } | VarName::OverlayData { .. } | VarName::KeptData { .. } => {
            number
        }
    }
}

/// The jobs that copy what a phase copies into the scratchpad, in the order of names. It fails only where no memory was
/// left.
pub(crate) fn entering(
    alloc: Global,
    items: &PlannedItems,
    images: &[u32],
    phase: Phase,
) -> Result<Vec<CopyJob>, AllocError>
    requires region { phase_region phase ≤ items.now.regions }
    requires can { CanPlan items.now }
    requires images { length images.now ≡ length items.now.copies.now }
    ensures { IfOk result (λ jobs. jobs.items ≡ phase_entering phase items.now images.now) }
{
    let mut jobs = Vec::new(alloc);
    let mut number = 0;
    for name in items.names {
        push_into(&mut jobs, items, images, phase, *name, number)?;
        number = next_code(*name, number);
    }
    Ok(jobs)
}

/// Adds the job that copies an object home, if it is writable.
fn push_object_home(
    jobs: &mut Vec<CopyJob>,
    items: &PlannedItems,
    region: u32,
    object: u32,
) -> Result<(), AllocError>
    requires below { object < length items.now.graph.now.objects.items }
    requires region { region ≤ items.now.regions }
    requires can { CanPlan items.now }
    ensures { OnOk result (jobs.new.items ≡ jobs.old.items ++ Naming.back_jobs items.now.graph.now items.now.places.now region object) }
{
    let into = object_into(items, region, object);
    if items.graph.objects[object as usize].writable {
        jobs.push(CopyJob {
            from: into.to,
            to: into.from,
            bytes: into.bytes,
        })?;
    }
    Ok(())
}

/// Adds those of a name, if it is copied in the phase.
fn push_home(
    jobs: &mut Vec<CopyJob>,
    items: &PlannedItems,
    phase: Phase,
    name: VarName,
) -> Result<(), AllocError>
    requires known { IsKnown items.now.graph.now name }
    requires region { phase_region phase ≤ items.now.regions }
    requires can { CanPlan items.now }
    ensures { OnOk result (jobs.new.items ≡ jobs.old.items ++ (if in_phase phase name then named_home items.now.graph.now items.now.places.now (phase_region phase) name else [])) }
{
    if !is_in(phase, name) {
        return Ok(());
    }
    match name {
        VarName::StaticData { object }
        | VarName::OverlayData { object, .. }
        | VarName::KeptData { object, .. } => push_object_home(
            jobs,
            items,
            region_of(phase),
            object,
        ),
        VarName::StaticCode { .. } | VarName::OverlayCode { .. } => Ok(()),
    }
}

/// The jobs that copy what a phase copies home, in the order of names. It fails only where no memory was left.
pub(crate) fn leaving(
    alloc: Global,
    items: &PlannedItems,
    phase: Phase,
) -> Result<Vec<CopyJob>, AllocError>
    requires region { phase_region phase ≤ items.now.regions }
    requires can { CanPlan items.now }
    ensures { IfOk result (λ jobs. jobs.items ≡ phase_leaving phase items.now) }
{
    let mut jobs = Vec::new(alloc);
    for name in items.names {
        push_home(&mut jobs, items, phase, *name)?;
    }
    Ok(jobs)
}
