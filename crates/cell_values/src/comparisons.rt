ghost use Rattle.std.specs.Prelude.{◌≡◌, ◌<◌, length};
ghost use Rattle.cell_values.specs.{Objects.{IsOfGraph, objects_of, object_of}, Comparisons.{compare, known_if, within, same_object, other_object, beside_zero}};

use crate::values::Val;
use object_graph::Graph;
use rv32im::{BranchKind, takes};

// Each branch of a machine asks this, so it is inlined there; the rarer comparisons stay calls.

/// Whether a branch of this kind is taken on two values; `None` where that is not known
/// (RISC-V Unprivileged ISA, "Conditional Branches").
#[inline(always)]
pub fn compare(kind: BranchKind, a: &Val, b: &Val, graph: &Graph) -> Option<bool>
    requires a { IsOfGraph graph.now a.now }
    requires b { IsOfGraph graph.now b.now }
    ensures { result ≡ compare (objects_of graph.now) kind a.now b.now }
{
    match (*a, *b) {
        (Val::Int(a), Val::Int(b)) => Some(takes(kind, a, b)),
        (Val::Addr { obj, off }, Val::Addr { obj: peer, off: at }) if obj == peer => {
            let size = size_of(obj, graph);
            same_object(size, kind, off, at)
        }
        (Val::Addr { obj, off }, Val::Addr { obj: peer, off: at }) => {
            let inside = off < size_of(obj, graph) && at < size_of(peer, graph);
            other_object(inside, kind)
        }
        (Val::Addr { obj, off }, Val::Int(n)) => {
            beside_zero(false, n == 0 && off <= size_of(obj, graph), kind)
        }
        (Val::Int(n), Val::Addr { obj, off }) => {
            beside_zero(true, n == 0 && off <= size_of(obj, graph), kind)
        }
        _ => None,
    }
}

/// How many bytes an object has.
#[inline(always)]
fn size_of(obj: u32, graph: &Graph) -> u32
    requires { obj < length graph.now.objects.items }
    ensures { result ≡ (object_of graph.now obj).size }
{
    graph.objects[obj as usize].size
}

/// Two addresses of one object of `size` bytes.
#[inline(always)]
fn same_object(size: u32, kind: BranchKind, off: u32, at: u32) -> Option<bool>
    ensures { result ≡ same_object size kind off at }
{
    match kind {
        BranchKind::Beq => Some(off == at),
        BranchKind::Bne => Some(off != at),
        BranchKind::Bltu => known_if(is_within(size, off, at), off < at),
        BranchKind::Bgeu => known_if(is_within(size, off, at), off >= at),
        BranchKind::Blt | BranchKind::Bge => None,
    }
}

/// Two offsets are no greater than an object's size.
#[inline(always)]
fn is_within(size: u32, off: u32, at: u32) -> bool
    ensures { result ≡ within size off at }
{
    off <= size && at <= size
}

/// Two addresses of unequal objects, which lie inside them or not.
#[inline(never)]
fn other_object(inside: bool, kind: BranchKind) -> Option<bool>
    ensures { result ≡ other_object inside kind }
{
    match kind {
        BranchKind::Beq => known_if(inside, false),
        BranchKind::Bne => known_if(inside, true),
        _ => None,
    }
}

/// An address and a number, which is the first of the two where `zero_first` holds; `near` says that the one lies up to the end
/// of its object and the other is 0.
#[inline(never)]
fn beside_zero(zero_first: bool, near: bool, kind: BranchKind) -> Option<bool>
    ensures { result ≡ beside_zero zero_first near kind }
{
    match kind {
        BranchKind::Beq => known_if(near, false),
        BranchKind::Bne => known_if(near, true),
        BranchKind::Bltu => known_if(near, zero_first),
        BranchKind::Bgeu => known_if(near, !zero_first),
        BranchKind::Blt | BranchKind::Bge => None,
    }
}

/// An answer that is known on a condition alone.
#[inline(always)]
fn known_if(condition: bool, answer: bool) -> Option<bool>
    ensures { result ≡ known_if condition answer }
{
    if condition { Some(answer) } else { None }
}
