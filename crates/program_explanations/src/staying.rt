use crate::choice::{Chosen, Item, item_of};
use crate::energies::{Energies, words_of};
use crate::names::symbol_name;
use crate::savings::home_of;
use crate::subject::Subject;
use code_blocks::End;
use energy_model::{into_price, object_rounds};
use explanation_texts::{
    Notes, Piece, Room, STAYING_REST, StayingItem, StayingReason, say_staying,
};
use placement_programme::Var;
use relink_core::Analysis;
use std::alloc::{AllocError, Global};

/// The most items that stay which are told.
const TOLD_ITEMS: usize = 5;

/// The least share of the energy that is told, in thousandths.
const LEAST_SHARE: u64 = 10;

/// The most bytes that a copy of blocks may have.
const MOST_COPIED: u32 = 4096;

/// Code of a function, or an object that may move, that stays.
#[derive(Clone, Copy)]
enum Part {
    /// The number of the function's symbol, and of its blocks that stay the one whose fetches cost most.
    Function { name: u32, block: usize },
    Object(usize),
}

/// What stays, and what it costs in the measured run, in price units.
#[derive(Clone, Copy)]
struct Staying {
    energy: u128,
    part: Part,
}

/// What the blocks of a function cost that stay.
#[derive(Clone, Copy)]
struct FunctionRest {
    energy: u128,
    /// The block that costs most, and what it costs.
    block: usize,
    most: u128,
}

const NO_REST: FunctionRest = FunctionRest {
    energy: 0,
    block: 0,
    most: 0,
};

/// A choice of a program of which one run was measured, and what that costs.
#[derive(Clone, Copy)]
struct MeasuredChoice<'a, 'b> {
    subject: &'a Subject<'b, 'b>,
    chosen: &'a Chosen<'a>,
    at_home: Energies<'a>,
    in_scratchpad: Energies<'a>,
}

/// What of the measured run's energy stays at home, and why: the greatest items, and what no item explains, reads and writes of
/// what may not move.
pub(crate) fn explain_staying(
    notes: &mut Notes,
    subject: &Subject,
    chosen: &Chosen,
) -> Result<(), AllocError> {
    let Some(profile) = chosen.profile else {
        return Ok(());
    };
    let measured = MeasuredChoice {
        subject,
        chosen,
        at_home: Energies::of(subject, profile, false),
        in_scratchpad: Energies::of(subject, profile, true),
    };
    let items = staying_items(notes.alloc(), subject.analysis, chosen, &measured.at_home)?;
    for item in items.iter().rev().take(TOLD_ITEMS) {
        if chosen.thousandths(item.energy) >= LEAST_SHARE {
            measured.explain_item(notes, item);
        }
    }
    let rest = chosen.thousandths(rest_of(subject.analysis, chosen.base, &measured.at_home));
    if rest >= LEAST_SHARE {
        notes.say(STAYING_REST, &[Piece::Percent(rest)]);
    }
    Ok(())
}

/// What no item explains of an energy.
fn rest_of(analysis: &Analysis<'_>, base: u128, energies: &Energies) -> u128 {
    let last = analysis.code.blocks.len().saturating_sub(1);
    let mut rest = base.saturating_sub(energies.of_blocks(0, last));
    for object in 0..analysis.graph.objects.len() {
        rest = rest.saturating_sub(energies.of_object(object));
    }
    rest
}

/// All functions with blocks that stay, and all objects that may move and stay, by energy, ascending.
fn staying_items(
    alloc: Global,
    analysis: &Analysis<'_>,
    chosen: &Chosen,
    energies: &Energies,
) -> Result<Vec<Staying>, AllocError> {
    let mut copied = vec![in alloc; false; analysis.code.blocks.len()]?;
    let mut moved = vec![in alloc; false; analysis.graph.objects.len()]?;
    mark_taken(chosen, &mut copied, &mut moved);
    let mut items = Vec::new(alloc);
    let rests = function_rests(alloc, analysis, energies, &copied)?;
    for (function, rest) in analysis.code.functions.iter().zip(&rests) {
        let (name, block) = (function.name, rest.block);
        items.push(Staying {
            energy: rest.energy,
            part: Part::Function { name, block },
        })?;
    }
    push_objects(&mut items, energies, &moved)?;
    items.sort_unstable_by_key(|item| item.energy);
    Ok(items)
}

/// Marks each block in a piece that is taken, and each object that is taken, at least for a region.
fn mark_taken(chosen: &Chosen, copied: &mut [bool], moved: &mut [bool]) {
    for variable in &chosen.taken {
        match item_of(variable.name) {
            Item::Code { first, last } => fill(copied, first as usize, last as usize),
            Item::Object(object) => fill(moved, object as usize, object as usize),
        }
    }
}

/// Marks the entries of a list from one to another.
fn fill(list: &mut [bool], first: usize, last: usize) {
    for place in first..last.saturating_add(1) {
        if let Some(entry) = list.get_mut(place) {
            *entry = true;
        }
    }
}

/// What the blocks of each function cost that stay.
fn function_rests(
    alloc: Global,
    analysis: &Analysis<'_>,
    energies: &Energies,
    copied: &[bool],
) -> Result<Vec<FunctionRest>, AllocError> {
    let mut rests = vec![in alloc; NO_REST; analysis.code.functions.len()]?;
    for (number, block) in analysis.code.blocks.iter().enumerate() {
        if copied.get(number).copied().unwrap_or(false) {
            continue;
        }
        let function = block.function.unwrap_or(u32::MAX) as usize;
        let energy = energies.of_block(number);
        if let Some(rest) = rests.get_mut(function) {
            rest.energy = rest.energy.saturating_add(energy);
            if energy > rest.most {
                rest.most = energy;
                rest.block = number;
            }
        }
    }
    Ok(rests)
}

fn push_objects(
    items: &mut Vec<Staying>,
    energies: &Energies,
    moved: &[bool],
) -> Result<(), AllocError> {
    for (object, is_moved) in moved.iter().enumerate() {
        if !*is_moved {
            items.push(Staying {
                energy: energies.of_object(object),
                part: Part::Object(object),
            })?;
        }
    }
    Ok(())
}

impl MeasuredChoice<'_, '_> {
    /// One that stays, and why.
    fn explain_item(&self, notes: &mut Notes, item: &Staying) {
        let analysis = self.subject.analysis;
        let share = self.chosen.thousandths(item.energy);
        let told = match item.part {
            Part::Function { name, block } => StayingItem {
                share,
                name: symbol_name(&analysis.view, name),
                is_code: true,
                reason: self.block_reason(block, item.part),
            },
            Part::Object(object) => StayingItem {
                share,
                name: match analysis.graph.objects.get(object) {
                    Some(object) => symbol_name(&analysis.view, object.name),
                    None => &[],
                },
                is_code: false,
                reason: self.object_reason(object, item.part),
            },
        };
        say_staying(notes, &told);
    }

    /// Why a block is in no piece that is taken.
    fn block_reason(&self, block: usize, part: Part) -> StayingReason {
        let analysis = self.subject.analysis;
        if let Some(variable) = best_variable(&self.chosen.side.vars, part) {
            return self.chosen.untaken_reason(analysis.regions.count, variable);
        }
        // of the pieces with the block that which loses least
        let mut best: Option<(u128, u128)> = None;
        for piece in &analysis.pieces {
            let (first, last) = (piece.first as usize, piece.last as usize);
            if first <= block && block <= last {
                let home = self.at_home.of_blocks(first, last);
                let cost = into_price(piece.bytes / 4, &self.subject.board.prices);
                let saved = home.saturating_sub(self.in_scratchpad.of_blocks(first, last));
                best = match best {
                    Some(other) if other.1.saturating_add(cost) >= saved.saturating_add(other.0) =>
                        { best }
                    _ => Some((cost, saved)),
                };
            }
        }
        match best {
            Some((cost, saved)) => no_gain(cost, saved),
            None => uncopied_reason(analysis, block),
        }
    }

    /// Why an object is not taken.
    fn object_reason(&self, number: usize, part: Part) -> StayingReason {
        let board = self.subject.board;
        let analysis = self.subject.analysis;
        let have = u64::from(board.spm.size);
        if let Some(variable) = best_variable(&self.chosen.side.vars, part) {
            return self.chosen.untaken_reason(analysis.regions.count, variable);
        }
        match analysis.graph.objects.get(number) {
            Some(object) if u64::from(object.size) > have => StayingReason::NoRoom {
                room: Room::Scratchpad,
                needed: u64::from(object.size),
                left: have,
                have,
            },
            Some(object) => {
                let home = self.at_home.of_object(number);
                no_gain(
                    into_price(object_rounds(object), &board.prices),
                    home.saturating_sub(self.in_scratchpad.of_object(number)),
                )
            }
            None => StayingReason::OthersSaveMore,
        }
    }
}

/// What the copy of an item costs at the start, and what the run saves by it, in price units.
fn no_gain(cost: u128, saved: u128) -> StayingReason {
    StayingReason::NoGain {
        cost: u64::try_from(cost).unwrap_or(u64::MAX),
        saved: u64::try_from(saved).unwrap_or(u64::MAX),
    }
}

/// Why a block is in no piece.
fn uncopied_reason(analysis: &Analysis<'_>, block: usize) -> StayingReason {
    let at = home_of(analysis, block);
    let bytes = words_of(&analysis.code, block, usize::MAX).saturating_mul(4);
    if bytes > MOST_COPIED {
        return StayingReason::TooLong { at, bytes };
    }
    match analysis.code.blocks.get(block) {
        Some(block) if matches!(block.end, End::Stop) => StayingReason::Stops { at },
        _ => StayingReason::NoRegister { at },
    }
}

/// The variable that saves most of those of pieces with the block of a function, or of an object.
fn best_variable(variables: &[Var], part: Part) -> Option<&Var> {
    let mut best: Option<&Var> = None;
    let mut most: u128 = 0;
    for variable in variables {
        let is_wanted = match (part, item_of(variable.name)) {
            (Part::Function { block, .. }, Item::Code { first, last }) => {
                first as usize <= block && block <= last as usize
            }
            (Part::Object(object), Item::Object(other)) => object == other as usize,
            _ => false,
        };
        if is_wanted && variable.gain > most {
            most = variable.gain;
            best = Some(variable);
        }
    }
    best
}
