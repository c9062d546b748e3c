ghost use Rattle.std.specs.Prelude.{◌≡◌, ◌↔◌, ◌+◌, ◌<◌, length, true};
ghost use Rattle.code_blocks.specs.Blocks.{IsSomeCode};
ghost use Rattle.object_graph.specs.Lookups.{IsSomeGraph};
ghost use Rattle.block_splitter.specs.{Forms.{is_site, body_at, unit_in, kind_of}, Copies.{Reaches, ReachesTargets}};

use crate::kinds::kind_of;
use crate::unit_kind::UnitKind;
use code_blocks::Code;
use object_graph::Graph;
use rv32im::distance;

/// Whether the first unit of a block may be displaced to `at`: whether JAL reaches from its words there to where the
/// unit leads.
pub fn can_displace(code: &Code, graph: &Graph, block: u32, at: u32) -> bool
    requires code { IsSomeCode code.now }
    requires graph { IsSomeGraph graph.now }
    requires block { block < length code.now.blocks.items }
    ensures { let body = body_at code.now.blocks.items block in
        (result ≡ true) ↔ ReachesTargets at ((unit_in body 0).at + 4) (kind_of (is_site graph.now) body 0) }
{
    let block = &code.blocks[block as usize];
    let kind = kind_of(graph, block, 0);
    reaches_targets(kind, at, block.units[0].at.wrapping_add(4))
}

/// Whether JAL reaches from the words of a displaced unit of a kind to where it leads; `next` is behind it at home.
fn reaches_targets(kind: UnitKind, at: u32, next: u32) -> bool
    ensures { (result ≡ true) ↔ ReachesTargets at next kind }
{
    let (second, third) = (at.wrapping_add(4), at.wrapping_add(8));
    match kind {
        UnitKind::Plain => reaches(second, next),
        UnitKind::Upper { .. } => reaches(third, next),
        UnitKind::Branch { target, .. } => reaches(second, next) && reaches(third, target),
        UnitKind::Jump { target } | UnitKind::Tail { target, .. } => reaches(at, target),
        UnitKind::Call { target, .. } => reaches(third, target),
        UnitKind::Indirect | UnitKind::Linking { .. } | UnitKind::Halt => true,
    }
}

/// Whether JAL at an address reaches another: at an even distance within 2^20 bytes (RISC-V Unprivileged ISA,
/// "Unconditional Jumps").
fn reaches(at: u32, to: u32) -> bool
    ensures { (result ≡ true) ↔ Reaches at to }
{
    let far = distance(at, to);
    -0x10_0000 <= far && (far < 0x10_0000 && far.cast_unsigned() % 2 == 0)
}
