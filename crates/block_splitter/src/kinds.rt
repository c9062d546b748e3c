ghost use Rattle.std.specs.Prelude.{◌≡◌, ◌*◌, ◌<◌, if◌then◌else◌, length};
ghost use Rattle.rv32im.specs.Words.{plus};
ghost use Rattle.block_splitter.specs.{declared.unit_kind.UnitKind.TheVariants.{Plain, Upper}, Forms.{is_site, body_of, kind_of, straight_kind, branch_kind, tail_kind, indirect_kind, last_kind, copy_size, fall_out_size, displaced_size}};
ghost use Rattle.object_graph.specs.Lookups.{IsSomeGraph};

use crate::unit_kind::UnitKind;
use code_blocks::{Block, End, Unit};
use object_graph::Graph;
use rv32im::Instr;

/// What unit `place` of a block is.
pub fn kind_of(graph: &Graph, block: &Block, place: usize) -> UnitKind
    requires graph { IsSomeGraph graph.now }
    requires place { place < length block.now.units.items }
    ensures { result ≡ kind_of (is_site graph.now) (body_of block.now) place }
{
    let unit = &block.units[place];
    if place + 1 == block.units.len() {
        last_kind(graph, &block.end, unit)
    } else {
        straight_kind(graph, unit)
    }
}

/// What the last unit of a block is.
fn last_kind(graph: &Graph, end: &End, unit: &Unit) -> UnitKind
    requires { IsSomeGraph graph.now }
    ensures { result ≡ last_kind (is_site graph.now) end.now unit.now }
{
    match *end {
        End::Branch { target, .. } => branch_kind(unit, target),
        End::Jump { target } => UnitKind::Jump { target },
        End::Call { target, back, link } => UnitKind::Call { target, back, link },
        End::Tail { target } => tail_kind(unit, target),
        End::Indirect { back } => indirect_kind(unit, back),
        End::Fall { .. } => straight_kind(graph, unit),
        End::Stop => straight_kind(graph, unit),
    }
}

/// What a unit is behind which its block goes on or falls.
fn straight_kind(graph: &Graph, unit: &Unit) -> UnitKind
    requires { IsSomeGraph graph.now }
    ensures { result ≡ straight_kind (is_site graph.now) unit.now.at unit.now.instr }
{
    match unit.instr {
        None => UnitKind::Halt,
        Some(Instr::Auipc { rd, imm }) => upper_kind(graph, unit.at, rd, imm),
        Some(Instr::Ebreak) => UnitKind::Halt,
        Some(_) => UnitKind::Plain,
    }
}

/// What an AUIPC is.
fn upper_kind(graph: &Graph, at: u32, rd: u8, imm: u32) -> UnitKind
    requires { IsSomeGraph graph.now }
    ensures { result ≡ (if is_site graph.now at then Plain else Upper rd (plus at (imm * 4096))) }
{
    if is_site(graph, at) {
        UnitKind::Plain
    } else {
        UnitKind::Upper {
            rd,
            value: at.wrapping_add(imm << 12),
        }
    }
}

/// Whether the instruction at an address makes a part of an object's address.
fn is_site(graph: &Graph, address: u32) -> bool
    requires { IsSomeGraph graph.now }
    ensures { result ≡ is_site graph.now address }
{
    match graph.site_at(address) {
        Some(_) => true,
        None => false,
    }
}

fn branch_kind(unit: &Unit, target: u32) -> UnitKind
    ensures { result ≡ branch_kind target unit.now.instr }
{
    match unit.instr {
        Some(Instr::Branch { kind, rs1, rs2, .. }) => UnitKind::Branch {
            kind,
            rs1,
            rs2,
            target,
        },
        _ => UnitKind::Halt,
    }
}

fn tail_kind(unit: &Unit, target: u32) -> UnitKind
    ensures { result ≡ tail_kind target unit.now.instr }
{
    match unit.instr {
        Some(Instr::Auipc { rd, .. }) => UnitKind::Tail {
            target,
            register: rd,
        },
        _ => UnitKind::Halt,
    }
}

fn indirect_kind(unit: &Unit, back: Option<u32>) -> UnitKind
    ensures { result ≡ indirect_kind back unit.now.instr }
{
    let Some(back) = back else {
        return UnitKind::Indirect;
    };
    match unit.instr {
        Some(Instr::Jalr { rd, rs1, imm }) => UnitKind::Linking {
            back,
            link: rd,
            base: rs1,
            imm,
        },
        _ => UnitKind::Halt,
    }
}

/// How many words a unit has in a copy; `inside` tells whether its target is of the same copy.
pub fn copy_size(kind: &UnitKind, inside: bool) -> u32
    ensures { result ≡ copy_size (λ a. inside) kind.now }
{
    match *kind {
        UnitKind::Plain | UnitKind::Indirect | UnitKind::Halt => 1,
        UnitKind::Branch { .. } => { if inside { 1 } else { 3 } }
        UnitKind::Jump { .. } => { if inside { 1 } else { 2 } }
        UnitKind::Upper { .. } | UnitKind::Tail { .. } => 2,
        UnitKind::Linking { .. } => 3,
        UnitKind::Call { .. } => 4,
    }
}

/// How many words a copied block has behind its last unit; `inside` tells whether the block behind it is of the same
/// copy.
pub(crate) fn fall_out_size(end: &End, inside: bool) -> u32
    ensures { result ≡ fall_out_size (λ a. inside) end.now }
{
    match *end {
        End::Fall { .. } | End::Branch { .. } if !inside => 2,
        _ => 0,
    }
}

/// How many words a unit has where it is displaced.
pub(crate) fn displaced_size(kind: &UnitKind) -> u32
    ensures { result ≡ displaced_size kind.now }
{
    match *kind {
        UnitKind::Jump { .. } | UnitKind::Tail { .. } | UnitKind::Indirect | UnitKind::Halt => 1,
        UnitKind::Plain => 2,
        UnitKind::Upper { .. }
        | UnitKind::Branch { .. }
        | UnitKind::Call { .. }
        | UnitKind::Linking { .. } => 3,
    }
}
