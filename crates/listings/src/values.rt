ghost use Rattle.std.specs.Prelude.{◌≡◌, IfOk, IfSome, IsTrue, ◌↔◌, OnOk};
ghost use Rattle.cell_values.specs.Objects.{IsOfGraph, IsGrain};

use crate::listing::Listing;
use crate::texts::{four_words, number};
use anyhow::{Result, bail};
use cell_values::{Val, compare, join, low_site, op_imm, op_reg, split};
use object_graph::{Graph, Object};
use rv32im::{BranchKind, ImmKind, Instr, RegKind, decode};
use std::alloc::{AllocError, Global};
use std::fmt::Debug;

/// The graph of two objects. Object 0 has 40 bytes from 0x11038, which is 8 modulo 16 and 56 modulo 64; object 1 has
/// 64 bytes from 0x11064, which is 4 modulo 16 and 36 modulo 64.
fn graph(alloc: Global, grain: u32) -> Result<Graph, AllocError>
    ensures { IfOk result (λ g. g.grain ≡ grain) }
{
    let mut objects = Vec::new(alloc);
    for (name, home, size) in [(3, 0x0001_1038, 40), (5, 0x0001_1064, 64)] {
        objects.push(Object {
            name,
            home,
            size,
            writable: true,
        })?;
    }
    Ok(Graph {
        grain,
        objects,
        sites: Vec::new(alloc),
        data_words: Vec::new(alloc),
        code: Vec::new(alloc),
    })
}

/// The graph at a grain that is one of a board.
fn graph_at(alloc: Global, grain: u32) -> Result<Graph>
    ensures { IfOk result (λ g. IsGrain g.grain) }
{
    match grain {
        16 | 32 | 64 => Ok(graph(alloc, grain)?),
        _ => bail!("no grain"),
    }
}

fn is_of_graph(v: &Val, graph: &Graph) -> bool
    ensures { IsTrue result ↔ IsOfGraph graph.now v.now }
{
    match *v {
        Val::Addr { obj, .. } | Val::Hi { obj, .. } | Val::Piece { obj, .. } => {
            (obj as usize) < graph.objects.len()
        }
        Val::Int(_) | Val::Low(_) | Val::Unknown => true,
    }
}

/// A value: a number, `address:OBJECT:OFFSET`, `upper:OBJECT:OFFSET`, `piece:OBJECT:OFFSET` for byte 2 of an address,
/// `low:NUMBER` or `unknown`.
fn value(word: &str) -> Result<Val> {
    let Some((kind, rest)) = word.split_once(':') else {
        return match word {
            "unknown" => Ok(Val::Unknown),
            _ => Ok(Val::Int(number(word)?)),
        };
    };
    let Some((obj, off)) = rest.split_once(':') else {
        return Ok(Val::Low(number(rest)?));
    };
    let (obj, off) = (number(obj)?, number(off)?);
    match kind {
        "address" => Ok(Val::Addr { obj, off }),
        "upper" => Ok(Val::Hi { obj, off }),
        _ => Ok(Val::Piece {
            hi: false,
            obj,
            off,
            k: 2,
        }),
    }
}

/// An instruction, a word, and the values of its two registers, with the grain of the board.
#[derive(Drop)]
struct Operation {
    grain: u32,
    word: u32,
    a: Val,
    b: Val,
}

fn read_operation(text: &str) -> Result<Operation> {
    let (grain, word, a, b) = four_words(text)?;
    Ok(Operation {
        grain: number(grain)?,
        word: number(word)?,
        a: value(a)?,
        b: value(b)?,
    })
}

/// `GRAIN INSTRUCTION VALUE VALUE`: what the instruction makes of the values of its two registers, or of the first and
/// its immediate; of a branch, whether it is taken.
pub(crate) fn tell_operation(listing: &mut Listing, text: &str) -> Result<()> {
    let asked = read_operation(text)?;
    let graph = graph_at(listing.alloc(), asked.grain)?;
    if !is_of_graph(&asked.a, &graph) || !is_of_graph(&asked.b, &graph) {
        bail!("a value of no object");
    }
    match decode(asked.word) {
        Some(Instr::OpReg { kind, .. }) => tell_registers(listing, kind, &asked, &graph),
        Some(Instr::OpImm { kind, imm, .. }) => tell_immediate(listing, kind, imm, &asked, &graph),
        Some(Instr::Branch { kind, .. }) => tell_branch(listing, kind, &asked, &graph),
        _ => bail!("no operation"),
    }
    Ok(())
}

/// The grain, an operation, its two values, and what it makes of them.
fn tell_made(
    listing: &mut Listing,
    asked: &Operation,
    kind: &impl Debug,
    b: &impl Debug,
    made: &impl Debug,
) {
    listing.number("", u64::from(asked.grain));
    listing.value(" ", kind);
    listing.value(" ", &asked.a);
    listing.value(" ", b);
    listing.value_line(": ", made);
}

fn tell_registers(listing: &mut Listing, kind: RegKind, asked: &Operation, graph: &Graph)
    requires grain { IsGrain graph.now.grain }
    requires a { IsOfGraph graph.now asked.now.a }
    requires b { IsOfGraph graph.now asked.now.b }
{
    let made = op_reg(kind, &asked.a, &asked.b, graph);
    tell_made(listing, asked, &kind, &asked.b, &made);
}

fn tell_immediate(listing: &mut Listing, kind: ImmKind, imm: i32, asked: &Operation, graph: &Graph)
    requires grain { IsGrain graph.now.grain }
    requires a { IsOfGraph graph.now asked.now.a }
{
    let made = op_imm(kind, &asked.a, imm, graph);
    tell_made(listing, asked, &kind, &imm, &made);
}

fn tell_branch(listing: &mut Listing, kind: BranchKind, asked: &Operation, graph: &Graph)
    requires a { IsOfGraph graph.now asked.now.a }
    requires b { IsOfGraph graph.now asked.now.b }
{
    let taken = compare(kind, &asked.a, &asked.b, graph);
    tell_made(listing, asked, &kind, &asked.b, &taken);
}

/// `GRAIN VALUE OBJECT OFFSET`: the address that a low part of an address of the object makes of the value.
pub(crate) fn tell_address(listing: &mut Listing, text: &str) -> Result<()> {
    let (grain, word, obj, off) = four_words(text)?;
    let (a, obj, off) = (value(word)?, number(obj)?, number(off)?);
    let grain = number(grain)?;
    let graph = graph_at(listing.alloc(), grain)?;
    if !is_of_graph(&a, &graph) || obj as usize >= graph.objects.len() {
        bail!("a value of no object");
    }
    listing.number("", u64::from(grain));
    listing.value(" ", &a);
    listing.number(" ", u64::from(obj));
    listing.number(" ", u64::from(off));
    listing.value_line(": ", &low_site(&a, obj, off, &graph));
    Ok(())
}

/// The cells that a value fills in memory, what they are as a word, and what they are with the first two exchanged.
pub(crate) fn tell_cells(listing: &mut Listing, text: &str) -> Result<()> {
    let v = value(text)?;
    let cells = split(&v);
    let [first, second, third, fourth] = cells;
    let other = join([second, first, third, fourth]);
    listing.value("", &v);
    listing.value_line(": ", &cells);
    listing.value("  ", &join(cells));
    listing.value_line(", ", &other);
    Ok(())
}
