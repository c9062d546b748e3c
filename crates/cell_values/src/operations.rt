ghost use Rattle.std.specs.Prelude.{◌≡◌, ◌<◌, length};
ghost use Rattle.cell_values.specs.{Objects.{IsGrain, IsOfGraph, objects_of}, Operations.{op_imm, op_reg, by_lows, added, subtracted, masked, masked_low, masked_address, cleared_bits, changed, changed_address, flagged, numbered}};
ghost use Rattle.rv32im.specs.Operations.{operation_of};

use crate::comparisons::compare;
use crate::places::{home_address, low_of};
use crate::values::Val;
use object_graph::Graph;
use rv32im::{BranchKind, ImmKind, RegKind, imm_result, reg_result};

// A machine does an operation in each step, so these are inlined in it, where they have several callers and would else stay
// calls, which pass values by way of the stack. What numbers and sums of an address and a number need not is left to cold
// functions.

/// What an operation with an immediate leaves of a value
/// (RISC-V Unprivileged ISA, "Integer Register-Immediate Instructions").
#[inline(always)]
pub fn op_imm(kind: ImmKind, a: &Val, imm: i32, graph: &Graph) -> Val
    requires grain { IsGrain graph.now.grain }
    requires of { IsOfGraph graph.now a.now }
    ensures value { result ≡ op_imm (objects_of graph.now) kind a.now imm }
    ensures of { IsOfGraph graph.now result }
{
    match *a {
        Val::Int(n) => Val::Int(imm_result(kind, n, imm)),
        _ => op_reg(operation_of(kind), a, &Val::Int(imm.cast_unsigned()), graph),
    }
}

/// The operation on registers that does what one with an immediate does.
#[inline(always)]
fn operation_of(kind: ImmKind) -> RegKind
    ensures { result ≡ operation_of kind }
{
    match kind {
        ImmKind::Addi => RegKind::Add,
        ImmKind::Slti => RegKind::Slt,
        ImmKind::Sltiu => RegKind::Sltu,
        ImmKind::Xori => RegKind::Xor,
        ImmKind::Ori => RegKind::Or,
        ImmKind::Andi => RegKind::And,
        ImmKind::Slli => RegKind::Sll,
        ImmKind::Srli => RegKind::Srl,
        ImmKind::Srai => RegKind::Sra,
    }
}

/// What an operation on two registers leaves of their values
/// (RISC-V Unprivileged ISA, "Integer Register-Register Operations" and the M extension).
#[inline(always)]
pub fn op_reg(kind: RegKind, a: &Val, b: &Val, graph: &Graph) -> Val
    requires grain { IsGrain graph.now.grain }
    requires a { IsOfGraph graph.now a.now }
    requires b { IsOfGraph graph.now b.now }
    ensures value { result ≡ op_reg (objects_of graph.now) kind a.now b.now }
    ensures of { IsOfGraph graph.now result }
{
    match kind {
        RegKind::Add => added(a, b, graph),
        RegKind::Sub => subtracted(a, b, graph),
        RegKind::And => masked(a, b, graph),
        RegKind::Or => changed(RegKind::Or, a, b, graph),
        RegKind::Xor => changed(RegKind::Xor, a, b, graph),
        RegKind::Sltu => flagged(compare(BranchKind::Bltu, a, b, graph)),
        _ => numbered(kind, a, b),
    }
}

/// ADD: an address and a number, in either order, give an address.
#[inline(always)]
fn added(a: &Val, b: &Val, graph: &Graph) -> Val
    requires grain { IsGrain graph.now.grain }
    requires a { IsOfGraph graph.now a.now }
    requires b { IsOfGraph graph.now b.now }
    ensures value { result ≡ added (objects_of graph.now) a.now b.now }
    ensures of { IsOfGraph graph.now result }
{
    match (*a, *b) {
        (Val::Int(a), Val::Int(b)) => Val::Int(reg_result(RegKind::Add, a, b)),
        (Val::Addr { obj, off }, Val::Int(n)) => Val::Addr {
            obj,
            off: off.wrapping_add(n),
        },
        (Val::Int(n), Val::Addr { obj, off }) => Val::Addr {
            obj,
            off: off.wrapping_add(n),
        },
        _ => by_lows(RegKind::Add, a, b, graph),
    }
}

/// SUB: a number from an address gives an address, and two addresses of one object their distance.
#[inline(always)]
fn subtracted(a: &Val, b: &Val, graph: &Graph) -> Val
    requires grain { IsGrain graph.now.grain }
    requires a { IsOfGraph graph.now a.now }
    requires b { IsOfGraph graph.now b.now }
    ensures value { result ≡ subtracted (objects_of graph.now) a.now b.now }
    ensures of { IsOfGraph graph.now result }
{
    match (*a, *b) {
        (Val::Int(a), Val::Int(b)) => Val::Int(reg_result(RegKind::Sub, a, b)),
        (Val::Addr { obj, off }, Val::Int(n)) => Val::Addr {
            obj,
            off: off.wrapping_sub(n),
        },
        (Val::Addr { obj, off }, Val::Addr { obj: peer, off: at }) if obj == peer => {
            let distance = off.wrapping_sub(at);
            Val::Int(distance)
        }
        _ => by_lows(RegKind::Sub, a, b, graph),
    }
}

/// AND: a number clears known bits of an address, or keeps known bits alone.
#[inline(always)]
fn masked(a: &Val, b: &Val, graph: &Graph) -> Val
    requires grain { IsGrain graph.now.grain }
    requires a { IsOfGraph graph.now a.now }
    requires b { IsOfGraph graph.now b.now }
    ensures value { result ≡ masked (objects_of graph.now) a.now b.now }
    ensures of { IsOfGraph graph.now result }
{
    match (*a, *b) {
        (Val::Int(a), Val::Int(b)) => Val::Int(reg_result(RegKind::And, a, b)),
        (Val::Addr { obj, off }, Val::Int(m)) => masked_address(obj, off, m, graph),
        (Val::Int(m), Val::Addr { obj, off }) => masked_address(obj, off, m, graph),
        (_, Val::Int(m)) => masked_low(m, a, graph),
        (Val::Int(m), _) => masked_low(m, b, graph),
        _ => by_lows(RegKind::And, a, b, graph),
    }
}

/// AND of an address with a number of which all bits from the grain on are set; with others as `masked_low`.
#[cold]
#[inline(never)]
fn masked_address(obj: u32, off: u32, m: u32, graph: &Graph) -> Val
    requires grain { IsGrain graph.now.grain }
    requires object { obj < length graph.now.objects.items }
    ensures value { result ≡ masked_address (objects_of graph.now) obj off m }
    ensures of { IsOfGraph graph.now result }
{
    if m > u32::MAX - graph.grain {
        let cleared = cleared_bits(obj, off, m, graph);
        return Val::Addr {
            obj,
            off: off.wrapping_sub(cleared),
        };
    }
    masked_low(m, &Val::Addr { obj, off }, graph)
}

/// The bits of an address modulo the grain that AND with `m` clears.
fn cleared_bits(obj: u32, off: u32, m: u32, graph: &Graph) -> u32
    requires grain { IsGrain graph.now.grain }
    requires object { obj < length graph.now.objects.items }
    ensures { result ≡ cleared_bits (objects_of graph.now) obj off m }
{
    home_address(obj, off, graph) % graph.grain & !m
}

/// AND with a number below the grain, which keeps known bits alone.
#[cold]
#[inline(never)]
fn masked_low(m: u32, a: &Val, graph: &Graph) -> Val
    requires grain { IsGrain graph.now.grain }
    requires of { IsOfGraph graph.now a.now }
    ensures value { result ≡ masked_low (objects_of graph.now) m a.now }
    ensures of { IsOfGraph graph.now result }
{
    if m >= graph.grain {
        return by_lows(RegKind::And, &Val::Int(m), a, graph);
    }
    match low_of(a, graph) {
        Some(low) => Val::Int(low & m),
        None => Val::Unknown,
    }
}

/// OR and XOR: a number below the grain changes known bits of an address.
#[inline(always)]
fn changed(kind: RegKind, a: &Val, b: &Val, graph: &Graph) -> Val
    requires grain { IsGrain graph.now.grain }
    requires a { IsOfGraph graph.now a.now }
    requires b { IsOfGraph graph.now b.now }
    ensures value { result ≡ changed (objects_of graph.now) kind a.now b.now }
    ensures of { IsOfGraph graph.now result }
{
    match (*a, *b) {
        (Val::Int(a), Val::Int(b)) => Val::Int(reg_result(kind, a, b)),
        (Val::Addr { obj, off }, Val::Int(m)) => changed_address(kind, obj, off, m, graph),
        (Val::Int(m), Val::Addr { obj, off }) => changed_address(kind, obj, off, m, graph),
        _ => by_lows(kind, a, b, graph),
    }
}

/// OR or XOR of the address `off` bytes behind the home of object `obj` with a number.
#[cold]
#[inline(never)]
fn changed_address(kind: RegKind, obj: u32, off: u32, m: u32, graph: &Graph) -> Val
    requires grain { IsGrain graph.now.grain }
    requires object { obj < length graph.now.objects.items }
    ensures value { result ≡ changed_address (objects_of graph.now) kind obj off m }
    ensures of { IsOfGraph graph.now result }
{
    if m < graph.grain {
        let low = home_address(obj, off, graph) % graph.grain;
        let bits = reg_result(kind, low, m);
        return Val::Addr {
            obj,
            off: off.wrapping_add(bits).wrapping_sub(low),
        };
    }
    by_lows(kind, &Val::Addr { obj, off }, &Val::Int(m), graph)
}

/// SLTU: 1 or 0 where it is known whether the first value is below the second.
#[inline(always)]
fn flagged(less: Option<bool>) -> Val
    ensures { result ≡ flagged less }
{
    match less {
        Some(less) => Val::Int(u32::from(less)),
        None => Val::Unknown,
    }
}

/// The operations that know numbers alone.
#[inline(always)]
fn numbered(kind: RegKind, a: &Val, b: &Val) -> Val
    ensures { result ≡ numbered kind a.now b.now }
{
    match (*a, *b) {
        (Val::Int(a), Val::Int(b)) => Val::Int(reg_result(kind, a, b)),
        _ => Val::Unknown,
    }
}

/// What an operation leaves modulo the grain, where both values are known modulo it.
#[cold]
#[inline(never)]
fn by_lows(kind: RegKind, a: &Val, b: &Val, graph: &Graph) -> Val
    requires grain { IsGrain graph.now.grain }
    requires a { IsOfGraph graph.now a.now }
    requires b { IsOfGraph graph.now b.now }
    ensures value { result ≡ by_lows (objects_of graph.now) kind a.now b.now }
    ensures of { IsOfGraph graph.now result }
{
    match (low_of(a, graph), low_of(b, graph)) {
        (Some(a), Some(b)) => Val::Low(reg_result(kind, a, b) % graph.grain),
        _ => Val::Unknown,
    }
}
