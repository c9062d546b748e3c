ghost use Rattle.std.specs.Prelude.{◌≡◌};
ghost use Rattle.object_graph.specs.declared.parts.Graph.{Graph};
ghost use Rattle.cell_values.specs.{Objects.{IsOfGraph}, Cells.{IsCellOfGraph, byte_value, half_value}, Marks.{half_of_cells}, declared.values.Cell.{Cell}};
ghost use Rattle.object_machine.specs.Memory.{signed_byte, signed_half, same_number};

use cell_values::{Cell, Val};
use rv32im::sext;

/// The value of a byte, extended by its sign.
#[inline(always)]
pub(crate) fn signed_byte(cell: &Cell) -> Val
    ensures value { result ≡ byte_value signed_byte cell.now }
    ensures of { (g : Graph) → IsCellOfGraph g cell.now → IsOfGraph g result }
{
    match *cell {
        Cell::Byte(byte) => Val::Int(sext(u32::from(byte), 8)),
        Cell::Part { hi, obj, off, k } => Val::Piece { hi, obj, off, k },
        Cell::Mist => Val::Unknown,
    }
}

/// That extended by zeros.
#[inline(always)]
pub(crate) fn plain_byte(cell: &Cell) -> Val
    ensures value { result ≡ byte_value same_number cell.now }
    ensures of { (g : Graph) → IsCellOfGraph g cell.now → IsOfGraph g result }
{
    match *cell {
        Cell::Byte(byte) => Val::Int(u32::from(byte)),
        Cell::Part { hi, obj, off, k } => Val::Piece { hi, obj, off, k },
        Cell::Mist => Val::Unknown,
    }
}

/// The value of a halfword, extended by its sign, where it is one of plain bytes.
#[inline(always)]
pub(crate) fn signed_half_of(half: Option<u16>) -> Val
    ensures value { (a b : Cell) → half ≡ half_of_cells a b → result ≡ half_value signed_half a b }
    ensures of { (g : Graph) → IsOfGraph g result }
{
    match half {
        Some(half) => Val::Int(sext(u32::from(half), 16)),
        None => Val::Unknown,
    }
}

/// That extended by zeros.
#[inline(always)]
pub(crate) fn half_of(half: Option<u16>) -> Val
    ensures value { (a b : Cell) → half ≡ half_of_cells a b → result ≡ half_value same_number a b }
    ensures of { (g : Graph) → IsOfGraph g result }
{
    match half {
        Some(half) => Val::Int(u32::from(half)),
        None => Val::Unknown,
    }
}
