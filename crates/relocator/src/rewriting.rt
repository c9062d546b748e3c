ghost use Rattle.std.specs.Prelude.{◌≡◌, ◌<◌};
ghost use Rattle.rv32im.specs.{Words.{upper_half}, Table.{IsInRange}};
ghost use Rattle.object_graph.specs.declared.parts.SiteKind.TheVariants.{Hi, LowI, LowS};
ghost use Rattle.relocator.specs.{SiteWords.{IsRewritten, IsSiteWord}, Gathering.{CanMake, CanRewrite}};

use object_graph::SiteKind;
use rv32im::{ImmKind, Instr, decode, encode, hi20, lo12};

/// The word of a site that makes that part of `address`, from the word that the file has there.
pub(crate) fn new_word(part: SiteKind, word: u32, address: u32) -> u32
    requires { CanRewrite part word }
    ensures { IsSiteWord part address word result }
{
    match decode(word) {
        Some(instr) => encode(&rewritten(part, instr, address)),
        None => word,
    }
}

/// The instruction that makes that part of `address` in place of `instr`.
fn rewritten(part: SiteKind, instr: Instr, address: u32) -> Instr
    requires range { IsInRange instr }
    requires part { CanMake part instr }
    ensures rewritten { IsRewritten part address instr result }
    ensures range { IsInRange result }
{
    match part {
        SiteKind::Hi => with_upper(instr, address),
        SiteKind::LowI => with_lower(instr, address),
        SiteKind::LowS => with_stored(instr, address),
    }
}

/// A LUI of the upper part, in place of a LUI or an AUIPC.
fn with_upper(instr: Instr, address: u32) -> Instr
    requires range { IsInRange instr }
    requires part { CanMake Hi instr }
    ensures rewritten { IsRewritten Hi address instr result }
    ensures range { IsInRange result }
{
    match instr {
        Instr::Lui { rd, imm: _ } => lui(rd, address),
        Instr::Auipc { rd, imm: _ } => lui(rd, address),
        other => other,
    }
}

fn lui(rd: u8, address: u32) -> Instr
    requires { rd < 32 }
    ensures instr { result ≡ Instr.Lui rd (upper_half address) }
    ensures range { IsInRange result }
{
    Instr::Lui {
        rd,
        imm: hi20(address),
    }
}

/// An ADDI or a load, with the lower part.
fn with_lower(instr: Instr, address: u32) -> Instr
    requires range { IsInRange instr }
    requires part { CanMake LowI instr }
    ensures rewritten { IsRewritten LowI address instr result }
    ensures range { IsInRange result }
{
    match instr {
        Instr::OpImm {
            kind: ImmKind::Addi,
            rd,
            rs1,
            imm: _,
        } => Instr::OpImm {
            kind: ImmKind::Addi,
            rd,
            rs1,
            imm: lo12(address),
        },
        Instr::Load {
            kind,
            rd,
            rs1,
            imm: _,
        } => Instr::Load {
            kind,
            rd,
            rs1,
            imm: lo12(address),
        },
        other => other,
    }
}

/// A store, with the lower part.
fn with_stored(instr: Instr, address: u32) -> Instr
    requires range { IsInRange instr }
    requires part { CanMake LowS instr }
    ensures rewritten { IsRewritten LowS address instr result }
    ensures range { IsInRange result }
{
    match instr {
        Instr::Store {
            kind,
            rs1,
            rs2,
            imm: _,
        } => Instr::Store {
            kind,
            rs1,
            rs2,
            imm: lo12(address),
        },
        other => other,
    }
}
