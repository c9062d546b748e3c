use crate::subject::Subject;
use crate::trail::Trail;
use crate::units::{TracedUnit, UnitTable};
use explanation_texts::{AddressFault, Culprit};
use object_machine::{Outcome, Source};
use rv32im::{A0, A1, Instr};
use std::alloc::AllocError;

/// A run that was followed.
#[derive(Clone, Copy)]
pub(crate) struct FollowedRun {
    /// How many steps it took.
    pub(crate) steps: u64,
    /// The address fault that it met, if it met one.
    pub(crate) fault: Option<AddressFault>,
}

/// A value of which nothing is known.
const NO_CULPRIT: Culprit = Culprit {
    origin: None,
    other: None,
    compared: None,
    address: None,
};

/// Runs the program on an input for the board's steps, and no more than so many, and tells the address fault that it meets. It fails
/// only where no memory was left.
pub(crate) fn follow_run(
    subject: &Subject,
    input: &[u8],
    most: u64,
) -> Result<FollowedRun, AllocError> {
    let alloc = subject.inputs.alloc;
    let graph = &subject.analysis.graph;
    let units = UnitTable::new(alloc, &subject.analysis.code, graph)?;
    let mut trail = Trail::new(alloc, graph)?;
    let steps = subject.board.steps.min(most);
    // a machine is dear to drop, so it is held on one way out alone
    match subject.machine(input) {
        Ok(mut source) => follow_steps(&mut source, &units, &mut trail, steps),
        Err(error) => Err(error),
    }
}

/// Takes so many steps, or fewer where the program ends.
fn follow_steps(
    source: &mut Source,
    units: &UnitTable,
    trail: &mut Trail,
    most: u64,
) -> Result<FollowedRun, AllocError> {
    let mut steps: u64 = 0;
    for _ in 0..most {
        let event = source.step()?;
        if event.outcome != Outcome::GoesOn {
            break;
        }
        if let Some(unit) = units.unit_at(event.at) {
            trail.follow(event.at, &unit, event.access);
        }
        steps = steps.saturating_add(1);
    }
    let fault = match source.outcome() {
        Outcome::AddressFault { pc, why } => Some(AddressFault {
            pc,
            why,
            culprit: match units.unit_at(pc) {
                Some(unit) => culprit_of(trail, &unit),
                None => NO_CULPRIT,
            },
        }),
        _ => None,
    };
    Ok(FollowedRun { steps, fault })
}

/// The value that a unit may not use, before it is performed.
fn culprit_of(trail: &Trail, unit: &TracedUnit) -> Culprit {
    match unit.instr {
        Some(Instr::Load { rs1, imm, .. } | Instr::Store { rs1, imm, .. }) => Culprit {
            origin: unit.origin_at_site(trail.register(rs1).origin),
            address: trail.address(rs1, imm),
            ..NO_CULPRIT
        },
        Some(Instr::Branch { rs1, rs2, .. }) => {
            let (first, second) = (trail.register(rs1), trail.register(rs2));
            // the operand that comes of an object first
            let (value, other) = match first.origin {
                Some(_) => (first, second),
                None => (second, first),
            };
            Culprit {
                origin: value.origin,
                other: other.origin,
                compared: other.number,
                ..NO_CULPRIT
            }
        }
        Some(Instr::Jalr { rs1, .. }) => Culprit {
            origin: trail.register(rs1).origin,
            ..NO_CULPRIT
        },
        Some(Instr::Ecall) => {
            // the second argument of a call is the address of a buffer
            let buffer = trail.register(A1);
            Culprit {
                origin: buffer.origin.or(trail.register(A0).origin),
                address: buffer.number,
                ..NO_CULPRIT
            }
        }
        _ => NO_CULPRIT,
    }
}
