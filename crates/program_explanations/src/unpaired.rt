use crate::origins::Trace;
use crate::subject::Subject;
use crate::trail::Trail;
use crate::units::{TracedUnit, UnitTable};
use explanation_texts::{Origin, Unpaired, Way};
use object_machine::{Outcome, Source};
use rv32im::{ImmKind, Instr, RegKind};
use std::alloc::AllocError;

/// Runs the program on an input for the board's steps, and tells the first unit by which the run is not paired; `None` where it is
/// paired, as far as is known. It fails only where no memory was left.
pub(crate) fn unpaired_of_run(
    subject: &Subject,
    input: &[u8],
    units: &UnitTable,
) -> Result<Option<Unpaired>, AllocError> {
    let alloc = subject.inputs.alloc;
    let graph = &subject.analysis.graph;
    let mut trail = Trail::new(alloc, graph)?;
    // a machine is dear to drop, so it is held on one way out alone
    match subject.machine(input) {
        Ok(mut source) => first_unpaired(&mut source, units, &mut trail, subject.board.steps),
        Err(error) => Err(error),
    }
}

/// The first unit by which a run of so many steps is not paired.
fn first_unpaired(
    source: &mut Source,
    units: &UnitTable,
    trail: &mut Trail,
    most: u64,
) -> Result<Option<Unpaired>, AllocError> {
    for _ in 0..most {
        let event = source.step()?;
        if event.outcome != Outcome::GoesOn {
            break;
        }
        if let Some(unit) = units.unit_at(event.at) {
            if let Some(unpaired) = unpaired_at(trail, event.at, &unit) {
                return Ok(Some(unpaired));
            }
            trail.follow(event.at, &unit, event.access);
        }
    }
    Ok(None)
}

/// How a unit makes its run unpaired, before it is performed: by a low part that meets another upper part than that of the AUIPC
/// that its relocation names, or of a LUI where it names none, or by an upper part that is taken as it is.
fn unpaired_at(trail: &Trail, pc: u32, unit: &TracedUnit) -> Option<Unpaired> {
    let base = trail.register(base_of(unit)?);
    let upper = match unit.site {
        Some(_) => upper_part(base)?,
        None => taken_upper(trail, unit, base)?,
    };
    if unit.site.is_some() && upper.auipc == unit.named {
        return None;
    }
    Some(Unpaired {
        pc,
        object: match unit.site {
            Some(site) => Some(site.object),
            None => None,
        },
        other: upper.object,
        upper: upper.auipc,
    })
}

/// The register to which a unit of one word adds, if it does.
fn base_of(unit: &TracedUnit) -> Option<u8> {
    match unit.instr {
        Some(
            Instr::Load { rs1, .. }
            | Instr::Store { rs1, .. }
            | Instr::OpImm { rs1, .. }
            | Instr::OpReg { rs1, .. },
        ) if unit.words == 1 => Some(rs1),
        _ => None,
    }
}

fn upper_part(value: Trace) -> Option<Origin> {
    let origin = value.origin?;
    if origin.way == Way::Upper {
        Some(origin)
    } else {
        None
    }
}

/// The upper part of an AUIPC whose low bits a unit takes as they are; of two operands, where the low bits of the other are known.
fn taken_upper(trail: &Trail, unit: &TracedUnit, first: Trace) -> Option<Origin> {
    match unit.instr {
        Some(
            Instr::OpImm {
                kind: ImmKind::Addi | ImmKind::Andi | ImmKind::Ori | ImmKind::Xori,
                ..
            },
        ) => upper_by_auipc(first),
        Some(
            Instr::OpReg {
                kind: RegKind::Add | RegKind::Sub | RegKind::And | RegKind::Or | RegKind::Xor,
                rs2,
                ..
            },
        ) => {
            let second = trail.register(rs2);
            if !has_low_bits(first) || !has_low_bits(second) {
                return None;
            }
            upper_by_auipc(first).or(upper_by_auipc(second))
        }
        _ => None,
    }
}

fn upper_by_auipc(value: Trace) -> Option<Origin> {
    let upper = upper_part(value)?;
    upper.auipc?;
    Some(upper)
}

/// Whether the low bits of a value are surely known.
fn has_low_bits(value: Trace) -> bool {
    match value.origin {
        Some(origin) => matches!(origin.way, Way::Upper | Way::Address),
        None => value.number.is_some(),
    }
}
