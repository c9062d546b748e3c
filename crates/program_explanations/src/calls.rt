use crate::choice::{Chosen, Item, item_of};
use code_blocks::End;
use explanation_texts::InwardCalls;
use profile_runner::Profile;
use relink_core::Analysis;
use std::alloc::{AllocError, Global};

/// What stands in front of what OUT pays, in the text of the command `paid`.
const PAID: &[u8] = b"paid ";

/// A call in a piece of code that is taken, which leads to a block of the same piece that is no entry of it.
#[derive(Clone, Copy)]
pub struct InwardCall {
    /// The numbers of the blocks from which and to which it leads.
    from: u32,
    to: u32,
    /// Its address, and that to which it leads.
    at: u32,
    target: u32,
}

/// All inward calls of the code, by what is taken. It fails only where no memory was left.
pub fn inward_calls(
    alloc: Global,
    analysis: &Analysis<'_>,
    chosen: &Chosen,
) -> Result<Vec<InwardCall>, AllocError> {
    let mut calls = Vec::new(alloc);
    for variable in &chosen.taken {
        if let Item::Code { first, last } = item_of(variable.name) {
            push_calls(&mut calls, analysis, chosen.on, first, last)?;
        }
    }
    Ok(calls)
}

/// Adds the inward calls of the piece from its first to its last block.
fn push_calls(
    calls: &mut Vec<InwardCall>,
    analysis: &Analysis<'_>,
    on: bool,
    first: u32,
    last: u32,
) -> Result<(), AllocError> {
    let number = analysis
        .pieces
        .partition_point(|piece| (piece.first, piece.last) < (first, last));
    let Some(piece) = analysis.pieces.get(number) else {
        return Ok(());
    };
    for from in first..last.saturating_add(1) {
        if let Some(call) = call_of(analysis, from) {
            let is_border = on && analysis.regions.border.get(call.to as usize) == Some(&true);
            let is_within = first <= call.to && call.to <= last;
            if is_within && !is_border && !piece.entries.contains(&call.to) {
                calls.push(call)?;
            }
        }
    }
    Ok(())
}

/// The call by which a block ends, if it leads to the beginning of another.
fn call_of(analysis: &Analysis<'_>, from: u32) -> Option<InwardCall> {
    let blocks = &analysis.code.blocks;
    let block = blocks.get(from as usize)?;
    let target = match block.end {
        End::Call { target, .. } | End::Tail { target } => target,
        _ => return None,
    };
    let to = blocks.partition_point(|block| block.start < target);
    if blocks.get(to)?.start != target {
        return None;
    }
    Some(InwardCall {
        from,
        to: u32::try_from(to).ok()?,
        at: block.units.last()?.at,
        target,
    })
}

/// Those of these calls that a run makes, the first of them in the program, if it makes some.
pub fn made_calls(calls: &[InwardCall], profile: &Profile) -> Option<InwardCalls> {
    let mut made: Option<InwardCalls> = None;
    for edge in &profile.edges {
        if let Some(call) = call_by(calls, edge.from, edge.to) {
            let before = made.unwrap_or(InwardCalls {
                at: call.at,
                target: call.target,
                count: 0,
                line: None,
                paid: None,
                is_first: true,
            });
            made = Some(InwardCalls {
                count: before.count.saturating_add(edge.count),
                ..before
            });
        }
    }
    made
}

/// The call from one block to another, if it is one of these.
fn call_by(calls: &[InwardCall], from: u32, to: u32) -> Option<InwardCall> {
    for call in calls {
        if call.from == from && call.to == to {
            return Some(*call);
        }
    }
    None
}

/// What OUT pays by the text of the command `paid`, and what it does by the model; `None` where the text tells nothing.
pub fn paid_of(text: &[u8], chosen: &Chosen) -> Option<(u64, u64)> {
    let after = chosen.base.saturating_sub(chosen.saved);
    let mut begins_line = true;
    for place in 0..text.len() {
        let rest = text.get(place..).unwrap_or_default();
        if begins_line {
            if let Some(digits) = rest.strip_prefix(PAID) {
                return Some((number_of(digits), u64::try_from(after).unwrap_or(u64::MAX)));
            }
        }
        begins_line = rest.starts_with(b"\n");
    }
    None
}

/// The number that a line spells in decimal.
fn number_of(line: &[u8]) -> u64 {
    let mut number: u64 = 0;
    for digit in line {
        if *digit == b'\n' {
            break;
        }
        let digit = u64::from(digit.wrapping_sub(b'0'));
        number = number.saturating_mul(10).saturating_add(digit);
    }
    number
}
