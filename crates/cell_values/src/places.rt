ghost use Rattle.std.specs.Prelude.{◌≡◌, ◌<◌, length};
ghost use Rattle.cell_values.specs.{Objects.{IsGrain, IsOfGraph, objects_of, home_address, low_of}, Operations.{low_site, same_chunk}};

use crate::values::Val;
use object_graph::Graph;

/// The address that the low part of an instruction at a low site makes of the upper part `a` in its register:
/// `off` bytes behind the home of object `obj`, which its relocation names, if `a` is the upper part of an
/// address of that object in the same chunk.
#[inline(always)]
pub fn low_site(a: &Val, obj: u32, off: u32, graph: &Graph) -> Val
    requires grain { IsGrain graph.now.grain }
    requires of { IsOfGraph graph.now a.now }
    requires object { obj < length graph.now.objects.items }
    ensures value { result ≡ low_site (objects_of graph.now) a.now obj off }
    ensures of { IsOfGraph graph.now result }
{
    match *a {
        Val::Hi { obj: peer, off: at } if peer == obj && is_same_chunk(obj, at, off, graph) =>
            Val::Addr { obj, off },
        _ => Val::Unknown,
    }
}

/// Two addresses of an object lie in one chunk while the object is at home.
#[inline(always)]
fn is_same_chunk(obj: u32, off: u32, other: u32, graph: &Graph) -> bool
    requires grain { IsGrain graph.now.grain }
    requires object { obj < length graph.now.objects.items }
    ensures { let os = objects_of graph.now in result ≡ same_chunk os.grain (home_address os obj off) (home_address os obj other) }
{
    home_address(obj, off, graph) / graph.grain == home_address(obj, other, graph) / graph.grain
}

/// The address that a value of object `obj` has while the object is at home.
#[inline(always)]
pub(crate) fn home_address(obj: u32, off: u32, graph: &Graph) -> u32
    requires { obj < length graph.now.objects.items }
    ensures { result ≡ home_address (objects_of graph.now) obj off }
{
    graph.objects[obj as usize].home.wrapping_add(off)
}

/// What is known of a value modulo the grain.
pub(crate) fn low_of(v: &Val, graph: &Graph) -> Option<u32>
    requires grain { IsGrain graph.now.grain }
    requires of { IsOfGraph graph.now v.now }
    ensures { result ≡ low_of (objects_of graph.now) v.now }
{
    match *v {
        Val::Int(n) => Some(n % graph.grain),
        Val::Addr { obj, off } => Some(home_address(obj, off, graph) % graph.grain),
        Val::Hi { .. } => Some(0),
        Val::Low(n) => Some(n % graph.grain),
        Val::Piece { .. } | Val::Unknown => None,
    }
}
