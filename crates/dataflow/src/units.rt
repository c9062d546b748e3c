ghost use Rattle.std.specs.Prelude.{◌≡◌, if◌then◌else◌};
ghost use Rattle.rv32im.specs.Operations.{takes_low_bits};
ghost use Rattle.dataflow.specs.{Points.{is_move}, Flows.{written, first_source, second_source, stored, made_in, made, loads}};

use object_graph::{Site, SiteKind};
use rv32im::{ImmKind, Instr, LoadKind, RegKind};

/// The register that an instruction writes; 0 where it writes none. ECALL writes x10.
pub fn written(instr: Option<Instr>) -> u8
    ensures { result ≡ written instr }
{
    match instr {
        Some(Instr::Lui { rd, .. }) => rd,
        Some(Instr::Auipc { rd, .. }) => rd,
        Some(Instr::Jal { rd, .. }) => rd,
        Some(Instr::Jalr { rd, .. }) => rd,
        Some(Instr::Load { rd, .. }) => rd,
        Some(Instr::OpImm { rd, .. }) => rd,
        Some(Instr::OpReg { rd, .. }) => rd,
        Some(Instr::Ecall) => 10,
        Some(Instr::Branch { .. }) => 0,
        Some(Instr::Store { .. }) => 0,
        Some(Instr::Fence { .. }) => 0,
        Some(Instr::FenceI { .. }) => 0,
        Some(Instr::Ebreak) => 0,
        None => 0,
    }
}

/// An operation on a register and an immediate that may leave an address.
pub(crate) fn is_move(kind: ImmKind) -> bool
    ensures { result ≡ is_move kind }
{
    match kind {
        ImmKind::Addi => true,
        ImmKind::Xori => true,
        ImmKind::Ori => true,
        ImmKind::Andi => true,
        ImmKind::Slti => false,
        ImmKind::Sltiu => false,
        ImmKind::Slli => false,
        ImmKind::Srli => false,
        ImmKind::Srai => false,
    }
}

/// An operation on two registers that may leave an address.
pub(crate) fn is_sum(kind: RegKind) -> bool
    ensures { result ≡ takes_low_bits kind }
{
    match kind {
        RegKind::Add => true,
        RegKind::Sub => true,
        RegKind::Xor => true,
        RegKind::Or => true,
        RegKind::And => true,
        RegKind::Sll => false,
        RegKind::Slt => false,
        RegKind::Sltu => false,
        RegKind::Srl => false,
        RegKind::Sra => false,
        RegKind::Mul => false,
        RegKind::Mulh => false,
        RegKind::Mulhsu => false,
        RegKind::Mulhu => false,
        RegKind::Div => false,
        RegKind::Divu => false,
        RegKind::Rem => false,
        RegKind::Remu => false,
    }
}

/// The first register of which an instruction makes what may be an address; 0 for none. At a site it makes the
/// address anew.
pub fn first_source(site: Option<Site>, instr: Option<Instr>) -> u8
    ensures { result ≡ first_source site instr }
{
    match instr {
        Some(Instr::OpImm { kind, rs1, .. }) => match site {
            None => chosen(is_move(kind), rs1),
            Some(_) => 0,
        },
        Some(Instr::OpReg { kind, rs1, .. }) => chosen(is_sum(kind), rs1),
        Some(_) => 0,
        None => 0,
    }
}

/// The second one; 0 for none.
pub fn second_source(instr: Option<Instr>) -> u8
    ensures { result ≡ second_source instr }
{
    match instr {
        Some(Instr::OpReg { kind, rs2, .. }) => chosen(is_sum(kind), rs2),
        Some(_) => 0,
        None => 0,
    }
}

/// The register, or 0.
fn chosen(wanted: bool, register: u8) -> u8
    ensures { result ≡ (if wanted then register else 0) }
{
    if wanted { register } else { 0 }
}

/// The register that an instruction stores, in any width; 0 for none.
pub fn stored(instr: Option<Instr>) -> u8
    ensures { result ≡ stored instr }
{
    match instr {
        Some(Instr::Store { rs2, .. }) => rs2,
        Some(_) => 0,
        None => 0,
    }
}

/// The object of whose address an instruction makes a part, at its site.
pub fn made(site: Option<Site>, instr: Option<Instr>) -> Option<u32>
    ensures { result ≡ made site instr }
{
    match site {
        Some(site) => made_in(site.kind, site.object, instr),
        None => None,
    }
}

/// The object, if an instruction makes a part of its address at a site of this kind.
fn made_in(kind: SiteKind, object: u32, instr: Option<Instr>) -> Option<u32>
    ensures { result ≡ made_in kind object instr }
{
    match kind {
        SiteKind::Hi => match instr {
            Some(Instr::Lui { .. }) => Some(object),
            Some(Instr::Auipc { .. }) => Some(object),
            _ => None,
        },
        SiteKind::LowI => match instr {
            Some(
                Instr::OpImm {
                    kind: ImmKind::Addi,
                    ..
                },
            ) => Some(object),
            _ => None,
        },
        SiteKind::LowS => None,
    }
}

/// Whether an instruction loads a word.
pub fn loads(instr: Option<Instr>) -> bool
    ensures { result ≡ loads instr }
{
    match instr {
        Some(
            Instr::Load {
                kind: LoadKind::Lw,
                ..
            },
        ) => true,
        _ => false,
    }
}
