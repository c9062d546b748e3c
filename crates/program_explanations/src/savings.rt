use crate::choice::{Chosen, Item, item_of};
use crate::energies::{Energies, words_of};
use crate::names::object_name;
use crate::subject::{Inputs, Subject};
use explanation_texts::{
    FIXED_COST, MORE_ITEMS, Measured, MovedItem, MovedPart, Notes, Piece, Standing, say_moved_item,
    say_saved,
};
use object_machine::Outcome;
use placement_programme::VarName;
use relink_core::Analysis;
use std::alloc::{AllocError, Global};

/// The most items that are told.
const TOLD_ITEMS: usize = 10;

/// An item that a choice takes, with energies in price units.
#[derive(Clone, Copy)]
struct TakenItem {
    name: VarName,
    /// What it saves.
    gain: u128,
    /// What it costs at home, where one run was measured.
    before: Option<u128>,
}

/// How much of the energy a choice saves.
pub fn explain_saved(notes: &mut Notes, inputs: &Inputs, chosen: &Chosen) {
    let of = match &inputs.end {
        None => Measured::Mix,
        Some(end) if end.outcome == Outcome::GoesOn => Measured::Steps,
        Some(_) => Measured::Run,
    };
    say_saved(notes, chosen.thousandths(chosen.saved), of);
}

/// What moved, by what it saves: where in the program it is, when it stands in the scratchpad, and what it costs before and
/// after.
pub(crate) fn explain_taken(
    notes: &mut Notes,
    subject: &Subject,
    chosen: &Chosen,
) -> Result<(), AllocError> {
    let items = taken_items(notes.alloc(), subject, chosen)?;
    let mut more: u128 = 0;
    for (place, item) in items.iter().rev().enumerate() {
        if place < TOLD_ITEMS {
            let told = moved_item(subject.analysis, chosen, item);
            say_moved_item(notes, &told, &subject.inputs.unchecked());
        } else {
            more = more.saturating_add(item.gain);
        }
    }
    if items.len() > TOLD_ITEMS {
        let count = items.len().saturating_sub(TOLD_ITEMS) as u64;
        notes.say(
            MORE_ITEMS,
            &[
                Piece::Number(count),
                Piece::Percent(chosen.thousandths(more)),
            ],
        );
    }
    let fixed = chosen.thousandths(chosen.side.fixed);
    if !items.is_empty() && fixed != 0 {
        notes.say(FIXED_COST, &[Piece::Percent(fixed)]);
    }
    Ok(())
}

/// The items that a choice takes, by what they save, ascending.
fn taken_items(
    alloc: Global,
    subject: &Subject,
    chosen: &Chosen,
) -> Result<Vec<TakenItem>, AllocError> {
    let mut items = Vec::new(alloc);
    for variable in &chosen.taken {
        items.push(TakenItem {
            name: variable.name,
            gain: variable.gain,
            before: match chosen.profile {
                Some(profile) => {
                    Some(Energies::of(subject, profile, false).of_item(variable.name))
                }
                None => None,
            },
        })?;
    }
    items.sort_unstable_by_key(|item| item.gain);
    Ok(items)
}

fn moved_item<'a>(analysis: &Analysis<'a>, chosen: &Chosen, item: &TakenItem) -> MovedItem<'a> {
    MovedItem {
        standing: match item.name {
            VarName::StaticData { .. } | VarName::StaticCode { .. } => Standing::Throughout,
            VarName::OverlayData { region, .. } | VarName::OverlayCode { region, .. } => {
                Standing::InRegion(region)
            }
            VarName::KeptData { pair, .. } => Standing::InTwins(pair),
        },
        part: match item_of(item.name) {
            Item::Code { first, last } => code_part(analysis, first as usize, last as usize),
            Item::Object(object) => MovedPart::Object {
                name: object_name(&analysis.view, &analysis.graph, object),
                bytes: match analysis.graph.objects.get(object as usize) {
                    Some(object) => object.size,
                    None => 0,
                },
            },
        },
        saved: chosen.thousandths(item.gain),
        before: match item.before {
            Some(before) => Some(chosen.thousandths(before)),
            None => None,
        },
    }
}

/// Code from its first to its last block.
fn code_part<'a>(analysis: &Analysis<'_>, first: usize, last: usize) -> MovedPart<'a> {
    let mut words: u32 = 0;
    for block in first..last.saturating_add(1) {
        words = words.saturating_add(words_of(&analysis.code, block, usize::MAX));
    }
    MovedPart::Code {
        home: home_of(analysis, first),
        bytes: words.saturating_mul(4),
    }
}

/// The address of a block at home; 0 where there is none.
pub(crate) fn home_of(analysis: &Analysis<'_>, block: usize) -> u32 {
    match analysis.code.blocks.get(block) {
        Some(block) => block.start,
        None => 0,
    }
}
