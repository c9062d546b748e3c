// The checking stub.
ghost use Rattle.std.specs.Prelude.{◌≡◌, ℕ, ◌+◌, ◌<◌, pos, if◌then◌else◌, ◌==◌};
ghost use Rattle.rv32im.specs.Words.{lower_half};
ghost use Rattle.rv32im.specs.Sequences;
ghost use Rattle.patch_code.specs.Checking.{checking};

use crate::guards::{branch_on, subtract};
use rv32im::{BranchKind, ImmKind, Instr, LoadKind, StoreKind, addi, distance, lo12, lui};

/// `lw rd, %lo(at)(rs1)`, a word of the control words.
pub(crate) fn load_control(rd: u8, rs1: u8, at: u32) -> Instr
    ensures { result ≡ Instr.Load LoadKind.Lw rd rs1 (lower_half at) }
{
    Instr::Load {
        kind: LoadKind::Lw,
        rd,
        rs1,
        imm: lo12(at),
    }
}

/// `sw rs2, %lo(at)(rs1)`.
pub(crate) fn store_control(rs2: u8, rs1: u8, at: u32) -> Instr
    ensures { result ≡ Instr.Store StoreKind.Sw rs1 rs2 (lower_half at) }
{
    Instr::Store {
        kind: StoreKind::Sw,
        rs1,
        rs2,
        imm: lo12(at),
    }
}

// The load that gives a register its word again, but for the stub's own register.
fn restore(temp: u8, rd: u8, at: u32) -> Instr
    ensures { result ≡ Instr.Load LoadKind.Lw (if rd == temp then 0 else rd) temp (lower_half at) }
{
    load_control(if rd == temp { 0 } else { rd }, temp, at)
}

// A call of the routine.
fn call(at: u32, switch: u32) -> Instr
    ensures { result ≡ Instr.Jal 29 (Sequences.distance at switch) }
{
    Instr::Jal {
        rd: 29,
        off: distance(at, switch),
    }
}

// A small number in a register.
fn number(rd: u8, n: u32) -> Instr
    requires { n < 2048 }
    ensures { result ≡ Instr.OpImm ImmKind.Addi rd 0 (pos n) }
{
    addi(rd, 0, n as i32)
}

/// The instructions of the checking stub at `at` of a region, which uses the register `temp`, and calls the switch routine
/// at `switch`. The control words stand at `base`. The stub's body is to stand behind them.
pub fn checking_stub(base: u32, temp: u8, region: u32, at: u32, switch: u32) -> [Instr; 22]
    requires control { base + 64 < 4294967296 }
    requires place { at + 88 < 4294967296 }
    requires region { region < 2048 }
    ensures { result ≡ checking base temp region at switch }
{
    [
        lui(temp, base),
        load_control(temp, temp, base),
        subtract(temp, temp, region),
        branch_on(BranchKind::Beq, temp, 76),
        lui(temp, base),
        store_control(5, temp, base + 4),
        store_control(6, temp, base + 8),
        store_control(7, temp, base + 12),
        store_control(28, temp, base + 16),
        store_control(29, temp, base + 20),
        store_control(30, temp, base + 24),
        store_control(31, temp, base + 28),
        number(30, region),
        call(at + 52, switch),
        lui(temp, base),
        restore(temp, 5, base + 4),
        restore(temp, 6, base + 8),
        restore(temp, 7, base + 12),
        restore(temp, 28, base + 16),
        restore(temp, 29, base + 20),
        restore(temp, 30, base + 24),
        restore(temp, 31, base + 28),
    ]
}
