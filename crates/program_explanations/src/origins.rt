use explanation_texts::{Origin, Way};
use object_graph::Site;
use rv32im::{ImmKind, RegKind, imm_result, reg_result};

/// What is known of a value: the number that it is where all objects are at home, and its origin.
#[derive(Clone, Copy)]
pub(crate) struct Trace {
    pub(crate) number: Option<u32>,
    pub(crate) origin: Option<Origin>,
}

pub(crate) const UNKNOWN: Trace = Trace {
    number: None,
    origin: None,
};

/// A plain number.
pub(crate) fn number(number: u32) -> Trace {
    Trace {
        number: Some(number),
        origin: None,
    }
}

/// What a LUI makes, or the AUIPC at an address.
pub(crate) fn upper(number: u32, auipc: Option<u32>, site: Option<Site>) -> Trace {
    Trace {
        number: Some(number),
        origin: match site {
            Some(site) => Some(Origin {
                object: site.object,
                way: Way::Upper,
                auipc,
                made: None,
            }),
            None => None,
        },
    }
}

/// What an operation on a value and an immediate makes. At a site it adds the lower part of an address.
pub(crate) fn with_immediate(kind: ImmKind, operand: Trace, imm: i32, site: Option<Site>) -> Trace {
    let is_copied = match operand.origin {
        Some(origin) => origin.way == Way::CopiedUpper,
        None => false,
    };
    Trace {
        number: match operand.number {
            Some(number) => Some(imm_result(kind, number, imm)),
            None => None,
        },
        origin: match site {
            Some(site) if is_copied => Some(of_object(site.object, Way::CopiedUpper)),
            Some(site) => Some(of_object(site.object, Way::Address)),
            None => kept(kind, imm, operand.origin),
        },
    }
}

/// An origin of which no AUIPC is known.
pub(crate) fn of_object(object: u32, way: Way) -> Origin {
    Origin {
        object,
        way,
        auipc: None,
        made: None,
    }
}

/// The origin of a value that was made of another one.
fn changed(origin: Origin, way: Way) -> Origin {
    Origin {
        way,
        auipc: None,
        ..origin
    }
}

/// A value, with the unit at an address as the one that did other arithmetic, where none did before.
pub(crate) fn made_at(trace: Trace, at: u32) -> Trace {
    let Some(origin) = trace.origin else {
        return trace;
    };
    if origin.made.is_some() || !matches!(origin.way, Way::Computed | Way::Tested) {
        return trace;
    }
    Trace {
        number: trace.number,
        origin: Some(Origin {
            auipc: None,
            made: Some(at),
            ..origin
        }),
    }
}

/// The origin of a value with an immediate added, or otherwise changed.
fn kept(kind: ImmKind, imm: i32, origin: Option<Origin>) -> Option<Origin> {
    let origin = origin?;
    let way = match (kind, origin.way) {
        (ImmKind::Addi, Way::Upper) => Way::CopiedUpper,
        (ImmKind::Addi, way) => way,
        (ImmKind::Sltiu, Way::Address) if imm == 1 => Way::Tested,
        (_, Way::Tested) => Way::Tested,
        _ => Way::Computed,
    };
    Some(changed(origin, way))
}

/// What an operation on two values makes.
pub(crate) fn combined(kind: RegKind, first: Trace, second: Trace) -> Trace {
    Trace {
        number: match (first.number, second.number) {
            (Some(first), Some(second)) => Some(reg_result(kind, first, second)),
            _ => None,
        },
        origin: match (first.origin, second.origin) {
            (Some(first), Some(second)) => of_two(kind, first, second),
            (Some(origin), None) if matches!(kind, RegKind::Add | RegKind::Sub) => {
                Some(added(origin))
            }
            (None, Some(origin)) if matches!(kind, RegKind::Add) => Some(added(origin)),
            (Some(origin), None) | (None, Some(origin)) => Some(computed(origin)),
            (None, None) => None,
        },
    }
}

/// The origin of what an operation on two values makes that come of addresses. The difference of two addresses in one object is a
/// number; else the subtracted one is what it comes of, and of other operations the one with which arithmetic was done before.
fn of_two(kind: RegKind, first: Origin, second: Origin) -> Option<Origin> {
    let is_difference = matches!(kind, RegKind::Sub);
    if is_difference && first.object == second.object && first.way == second.way {
        return None;
    }
    Some(computed(if is_difference || second.way == Way::Computed {
        second
    } else {
        first
    }))
}

/// The origin of a value that arithmetic changed: the answer to whether an address is null stays that.
fn computed(origin: Origin) -> Origin {
    match origin.way {
        Way::Tested => origin,
        _ => changed(origin, Way::Computed),
    }
}

/// The origin of a value with a number added.
fn added(origin: Origin) -> Origin {
    match origin.way {
        Way::Upper => changed(origin, Way::CopiedUpper),
        _ => origin,
    }
}
