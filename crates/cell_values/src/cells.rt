ghost use Rattle.std.specs.Prelude.{◌≡◌, ◌<◌, length, slice_index_or};
ghost use Rattle.std.specs.List.{All};
ghost use Rattle.object_graph.specs.declared.parts.Graph.{Graph};
ghost use Rattle.cell_values.specs.{declared.values.Cell.TheVariants.{Mist}, declared.values.Val.TheVariants.{Int}, Objects.{IsOfGraph}, Cells.{IsCellOfGraph, split, join, is_part, whole_word, bytes_of, parts_of}, Laws.{joined}};

use crate::values::{Cell, Val};
use rv32im::{bytes4, word4};

/// The four cells that a word fills, least byte first; a narrower store fills the first of them.
pub fn split(v: &Val) -> [Cell; 4]
    ensures value { result ≡ split v.now }
    ensures of { (g : Graph) → IsOfGraph g v.now → All (IsCellOfGraph g) result }
{
    match *v {
        Val::Int(n) => bytes_of(n),
        Val::Addr { obj, off } => parts_of(false, obj, off),
        Val::Hi { obj, off } => parts_of(true, obj, off),
        Val::Piece { hi, obj, off, k } => {
            [
                Cell::Part { hi, obj, off, k },
                Cell::Mist,
                Cell::Mist,
                Cell::Mist,
            ]
        }
        Val::Low(_) | Val::Unknown => [Cell::Mist, Cell::Mist, Cell::Mist, Cell::Mist],
    }
}

/// The bytes of a number.
fn bytes_of(n: u32) -> [Cell; 4]
    ensures { result ≡ bytes_of n }
{
    let [first, second, third, fourth] = bytes4(n);
    [
        Cell::Byte(first),
        Cell::Byte(second),
        Cell::Byte(third),
        Cell::Byte(fourth),
    ]
}

/// The bytes of an address, or of its upper part.
fn parts_of(hi: bool, obj: u32, off: u32) -> [Cell; 4]
    ensures { result ≡ parts_of hi obj off }
{
    [
        Cell::Part { hi, obj, off, k: 0 },
        Cell::Part { hi, obj, off, k: 1 },
        Cell::Part { hi, obj, off, k: 2 },
        Cell::Part { hi, obj, off, k: 3 },
    ]
}

/// The word of four cells: of four plain bytes, or of the four bytes of one address or upper part in their order.
pub fn join(cells: [Cell; 4]) -> Val
    ensures value { result ≡ join (slice_index_or cells 0 Mist) (slice_index_or cells 1 Mist) (slice_index_or cells 2 Mist) (slice_index_or cells 3 Mist) }
    ensures of { (g : Graph) → All (IsCellOfGraph g) cells → IsOfGraph g result }
{
    match cells {
        [Cell::Byte(a), Cell::Byte(b), Cell::Byte(c), Cell::Byte(d)] => {
            Val::Int(word4([a, b, c, d]))
        }
        [Cell::Part { hi, obj, off, k: 0 }, second, third, fourth]
            if is_part(hi, obj, off, 1, &second)
                && is_part(hi, obj, off, 2, &third)
                && is_part(hi, obj, off, 3, &fourth) => whole_word(hi, obj, off),
        _ => Val::Unknown,
    }
}

/// A cell is byte `k` of an address, or of its upper part.
fn is_part(hi: bool, obj: u32, off: u32, k: u8, cell: &Cell) -> bool
    ensures { result ≡ is_part hi obj off k cell.now }
{
    *cell == Cell::Part { hi, obj, off, k }
}

/// An address, or its upper part.
fn whole_word(hi: bool, obj: u32, off: u32) -> Val
    ensures { result ≡ whole_word hi obj off }
{
    if hi {
        Val::Hi { obj, off }
    } else {
        Val::Addr { obj, off }
    }
}

/// What is loaded where a word was stored: of a value that is neither a number nor an address nor the upper part of one,
/// nothing is known.
#[inline(always)]
pub(crate) fn reloaded(v: &Val) -> Val
    ensures { result ≡ joined (split v.now) }
{
    match *v {
        Val::Int(n) => loaded_number(n),
        Val::Addr { obj, off } => Val::Addr { obj, off },
        Val::Hi { obj, off } => Val::Hi { obj, off },
        Val::Piece { .. } | Val::Low(_) | Val::Unknown => Val::Unknown,
    }
}

/// That of a number.
#[inline(always)]
fn loaded_number(n: u32) -> Val
    ensures { result ≡ joined (split (Int n)) }
{
    Val::Int(n)
}
