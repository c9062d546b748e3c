use crate::census::{LabelUse, ObjectCensus, SectionObjects, census};
use crate::choice::Chosen;
use crate::names::{anchor_sources, name_at, symbol_name};
use crate::stakes::{SectionStake, stakes_in};
use crate::subject::Subject;
use elf_reader::{ElfView, SHT_NOBITS};
use explanation_texts::{
    LONGER_RUN, LOWER_PRICES, Label, Notes, PinnedSection, SectionMap, Stake, gives_key, is_anchor,
    is_library, say_more_sections, say_nothing_moved, say_pinned,
};
use object_machine::Outcome;
use std::alloc::{AllocError, Global};

/// How the label of a table begins that a linker collects of a section, and that a program walks.
const TABLE_START: &[u8] = b"__start_";

/// The most sections that are told.
const TOLD_SECTIONS: usize = 2;

/// How a relink went.
#[derive(Clone, Copy)]
struct RelinkResult {
    /// Whether something moved.
    has_moved: bool,
    /// Whether the board says itself whether objects of `.bss` may move.
    tells_bss: bool,
    /// Whether these may move.
    bss_movable: bool,
}

/// Objects of a section that stay, before the names that they are told with are looked up.
#[derive(Clone, Copy)]
struct PinnedObjects {
    /// The number of the section.
    section: usize,
    /// How many stay.
    fixed: u64,
    /// Whether the board keeps them, as it keeps all of `.bss`.
    is_zeros: bool,
    /// A label that pins them.
    label: Option<LabelUse>,
}

/// Which objects stay, and by which rule. It says nothing where all may move and some did.
pub(crate) fn explain_pinned(
    notes: &mut Notes,
    subject: &Subject,
    chosen: Option<&Chosen>,
) -> Result<(), AllocError> {
    let inputs = &subject.inputs;
    let view = &subject.analysis.view;
    let graph = &subject.analysis.graph;
    let Some(has_moved) = inputs.moved else {
        return Ok(());
    };
    let relinked = RelinkResult {
        has_moved,
        tells_bss: gives_key(inputs.board_text(), b"bss"),
        bss_movable: subject.board.bss_movable,
    };
    let sections = SectionMap::of(inputs.alloc, &inputs.unchecked())?;
    let census = census(inputs.alloc, view, graph, &sections)?;
    let pinned = pinned_sections(inputs.alloc, view, &census, &relinked)?;
    if !has_moved {
        let movable = graph.objects.len() as u64;
        say_nothing_moved(notes, movable, census.total);
        let prices = &subject.board.prices;
        if prices.spm_fetch >= prices.main_fetch
            && prices.spm_read >= prices.main_read
            && prices.spm_write >= prices.main_write
        {
            notes.say_words(LOWER_PRICES);
            return Ok(());
        }
        let has_exited = match inputs.end {
            Some(end) => matches!(end.outcome, Outcome::Exited(_)),
            None => false,
        };
        if movable != 0 && pinned.is_empty() && has_exited {
            notes.say_words(LONGER_RUN);
            return Ok(());
        }
    }
    say_largest(notes, subject, chosen, &pinned)
}

/// The sections with objects that stay for a rule that is to be told, those with most first.
fn pinned_sections(
    alloc: Global,
    view: &ElfView,
    census: &ObjectCensus,
    relinked: &RelinkResult,
) -> Result<Vec<PinnedObjects>, AllocError> {
    let mut pinned = Vec::new(alloc);
    for (section, objects) in census.sections.iter().enumerate() {
        if let Some(objects) = pinned_objects(view, section, objects, relinked) {
            pinned.push(objects)?;
        }
    }
    pinned.sort_unstable_by_key(|objects| (
        u64::MAX.saturating_sub(objects.fixed),
        objects.section,
    ));
    Ok(pinned)
}

/// The objects of a section that stay, if a rule is to be told: none where the board asks for it and others moved.
fn pinned_objects(
    view: &ElfView,
    place: usize,
    objects: &SectionObjects,
    relinked: &RelinkResult,
) -> Option<PinnedObjects> {
    let section = view.sections.get(place)?;
    let is_zeros = section.kind == SHT_NOBITS && !relinked.bss_movable;
    let is_told = match objects.label {
        _ if !relinked.has_moved => true,
        _ if is_zeros => !relinked.tells_bss,
        Some(label) => !symbol_name(view, label.symbol).starts_with(TABLE_START),
        None => false,
    };
    if objects.fixed == 0 || !is_told {
        return None;
    }
    Some(PinnedObjects {
        section: place,
        fixed: objects.fixed,
        is_zeros,
        label: objects.label,
    })
}

/// The two sections of which most objects stay. One that an anchor pins comes first: its cure is a flag, and frees most.
fn say_largest(
    notes: &mut Notes,
    subject: &Subject,
    chosen: Option<&Chosen>,
    pinned: &[PinnedObjects],
) -> Result<(), AllocError> {
    let view = &subject.analysis.view;
    let is_swapped = is_anchored(view, pinned.get(1)) && !is_anchored(view, pinned.first());
    let asked = curable_sections(subject.inputs.alloc, view, pinned)?;
    let stakes = stakes_in(subject, chosen, &asked)?;
    for place in 0..TOLD_SECTIONS {
        let told = if is_swapped { 1 - place } else { place };
        if let Some(objects) = pinned.get(told) {
            say_section(notes, subject, &stakes, objects)?;
        }
    }
    if pinned.len() > TOLD_SECTIONS {
        say_more_sections(notes, pinned.len().saturating_sub(TOLD_SECTIONS) as u64);
    }
    Ok(())
}

/// The numbers of those of the told sections that an anchor pins, and whose objects the user can free.
fn curable_sections(
    alloc: Global,
    view: &ElfView,
    pinned: &[PinnedObjects],
) -> Result<Vec<usize>, AllocError> {
    let mut sections = Vec::new(alloc);
    for objects in pinned.iter().take(TOLD_SECTIONS) {
        if is_curable(view, objects) {
            sections.push(objects.section)?;
        }
    }
    Ok(sections)
}

/// Whether an anchor pins objects of a section that no library alone has.
fn is_curable(view: &ElfView, objects: &PinnedObjects) -> bool {
    match objects.label {
        Some(label) => {
            is_anchor(symbol_name(view, label.symbol))
                && !is_library(section_name(view, objects.section))
        }
        None => false,
    }
}

/// Whether an anchor alone pins the objects of a section.
fn is_anchored(view: &ElfView, objects: Option<&PinnedObjects>) -> bool {
    match objects {
        Some(
            PinnedObjects {
                is_zeros: false,
                label: Some(label),
                ..
            },
        ) => is_anchor(symbol_name(view, label.symbol)),
        _ => false,
    }
}

/// What is told of objects that stay. The time grows with the number of symbols, so it is asked only for those that are told of.
fn say_section(
    notes: &mut Notes,
    subject: &Subject,
    stakes: &[SectionStake],
    objects: &PinnedObjects,
) -> Result<(), AllocError> {
    let view = &subject.analysis.view;
    let sources = anchor_sources(subject, objects.section)?;
    let label = match objects.label {
        Some(label) => Some(Label {
            name: symbol_name(view, label.symbol),
            changed: section_name(view, label.changed as usize),
            object: name_at(view, label.home),
        }),
        None => None,
    };
    let section = PinnedSection {
        name: section_name(view, objects.section),
        fixed: objects.fixed,
        is_zeros: objects.is_zeros,
        label,
        at_stake: stake_at(stakes, objects.section),
    };
    say_pinned(notes, &section, &sources);
    Ok(())
}

/// What is at stake in a section, if that was asked for.
fn stake_at(stakes: &[SectionStake], section: usize) -> Option<Stake> {
    for found in stakes {
        if found.section == section {
            return Some(found.stake);
        }
    }
    None
}

/// The name of the section at a place; empty where there is none.
fn section_name<'a>(view: &ElfView<'a>, place: usize) -> &'a [u8] {
    match view.sections.get(place) {
        Some(section) => section.name,
        None => &[],
    }
}
