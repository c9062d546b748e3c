// What most steps do: units that have a name, where the machine goes on. Numbers are dealt with first, and what is rare is
// left to cold functions, so that no value stands in memory on its way.
use crate::events::Access;
use crate::machine::Source;
use crate::op::Op;
use crate::spots::Spot;
use crate::widths::{load_bytes, store_bytes};
use cell_values::{Val, compare};
use rv32im::BranchKind::{Beq, Bge, Bgeu, Blt, Bltu, Bne};
use rv32im::{BranchKind, ImmKind, LoadKind, RegKind, StoreKind, imm_result, reg_result, takes};

impl Source {
    ghost use Rattle.std.specs.Prelude.{◌≡◌, ◌+◌, ◌<◌, ◌%◌, true, MatchBool, length};
    ghost use Rattle.std.specs.Int.{cast_signed, w32};
    ghost use Rattle.rv32im.specs.declared.instructions.Instr.{Instr};
    ghost use Rattle.cell_values.specs.{Objects.{IsOfGraph, objects_of}, Operations.{op_imm, op_reg}, Comparisons.{compare}};
    ghost use Rattle.object_machine.specs.{State.{value, wrote}, Places.{located, Nowhere}, Spots.{where_of, IsWidth, Spans, IsSomewhere}, Ops.{instr_of}, Units.{FitsRead}, Named.{IsPresent, IsPresentBy, LeadsOn, Went, Stays, Tried, Lands}, Machine.{here, seen, seen_state, Becomes}};

    /// The name of the present unit.
    #[inline(always)]
    pub(super) fn op(&self) -> Op
        ensures named { IsPresentBy self.now (instr_of result) }
        ensures fits { FitsRead (instr_of result) }
    {
        self.tables.op_at(self.place)
    }

    // A method that several arms call takes the number of the arm, and so has a copy for each, with its kind known: what has one
    // caller is inlined there.

    /// Performs the present unit by its name, if it has one and the machine goes on. Tells of its access.
    #[inline(always)]
    pub(super) fn perform_named<const LOOP: u8>(&mut self, op: Op) -> Option<Option<Access>>
        requires named { IsPresentBy self.old (instr_of op) }
        requires fits { FitsRead (instr_of op) }
        ensures { Tried self.old self.new result }
    {
        match op {
            Op::Lui { rd, imm } => self.named_lui::<LOOP>(rd, imm),
            Op::Jal { rd, off } => self.named_jal::<LOOP>(rd, off),
            Op::Jalr { rd, rs1, imm } => self.named_jalr::<LOOP>(rd, rs1, imm),
            Op::Beq { rs1, rs2, off } => self.named_branch::<LOOP, 0>(Beq, rs1, rs2, off),
            Op::Bne { rs1, rs2, off } => self.named_branch::<LOOP, 1>(Bne, rs1, rs2, off),
            Op::Blt { rs1, rs2, off } => self.named_branch::<LOOP, 2>(Blt, rs1, rs2, off),
            Op::Bge { rs1, rs2, off } => self.named_branch::<LOOP, 3>(Bge, rs1, rs2, off),
            Op::Bltu { rs1, rs2, off } => self.named_branch::<LOOP, 4>(Bltu, rs1, rs2, off),
            Op::Bgeu { rs1, rs2, off } => self.named_branch::<LOOP, 5>(Bgeu, rs1, rs2, off),
            Op::Lb { rd, rs1, imm } => self.named_load::<LOOP, 0>(LoadKind::Lb, rd, rs1, imm),
            Op::Lh { rd, rs1, imm } => self.named_load::<LOOP, 1>(LoadKind::Lh, rd, rs1, imm),
            Op::Lw { rd, rs1, imm } => self.named_load::<LOOP, 2>(LoadKind::Lw, rd, rs1, imm),
            Op::Lbu { rd, rs1, imm } => self.named_load::<LOOP, 3>(LoadKind::Lbu, rd, rs1, imm),
            Op::Lhu { rd, rs1, imm } => self.named_load::<LOOP, 4>(LoadKind::Lhu, rd, rs1, imm),
            Op::Sb { rs1, rs2, imm } => self.named_store::<LOOP, 0>(StoreKind::Sb, rs1, rs2, imm),
            Op::Sh { rs1, rs2, imm } => self.named_store::<LOOP, 1>(StoreKind::Sh, rs1, rs2, imm),
            Op::Sw { rs1, rs2, imm } => self.named_store::<LOOP, 2>(StoreKind::Sw, rs1, rs2, imm),
            Op::Addi { rd, rs1, imm } => self.named_imm::<LOOP, 0>(ImmKind::Addi, rd, rs1, imm),
            Op::Andi { rd, rs1, imm } => self.named_imm::<LOOP, 1>(ImmKind::Andi, rd, rs1, imm),
            Op::Slli { rd, rs1, imm } => self.named_imm::<LOOP, 2>(ImmKind::Slli, rd, rs1, imm),
            Op::Srli { rd, rs1, imm } => self.named_imm::<LOOP, 3>(ImmKind::Srli, rd, rs1, imm),
            Op::OpImm { kind, rd, rs1, imm } => self.named_imm::<LOOP, 4>(kind, rd, rs1, imm),
            Op::Add { rd, rs1, rs2 } => self.named_reg::<LOOP, 0>(RegKind::Add, rd, rs1, rs2),
            Op::Sub { rd, rs1, rs2 } => self.named_reg::<LOOP, 1>(RegKind::Sub, rd, rs1, rs2),
            Op::Xor { rd, rs1, rs2 } => self.named_reg::<LOOP, 2>(RegKind::Xor, rd, rs1, rs2),
            Op::Or { rd, rs1, rs2 } => self.named_reg::<LOOP, 3>(RegKind::Or, rd, rs1, rs2),
            Op::And { rd, rs1, rs2 } => self.named_reg::<LOOP, 4>(RegKind::And, rd, rs1, rs2),
            Op::Mul { rd, rs1, rs2 } => self.named_reg::<LOOP, 5>(RegKind::Mul, rd, rs1, rs2),
            Op::OpReg { kind, rd, rs1, rs2 } => self.named_reg::<LOOP, 6>(kind, rd, rs1, rs2),
            Op::Other => None,
        }
    }

    /// Goes to the next unit of the block.
    #[inline(always)]
    fn advance(&mut self)
        requires { LeadsOn self.old }
        ensures { Becomes self.old self.new (record (seen_state self.old) { pc = self.old.pc + 4 }) }
    {
        self.place += 1;
        self.pc += 4;
    }

    /// Puts a value into a register, and goes to the next unit of the block.
    #[inline(always)]
    fn write_on(&mut self, rd: u8, v: Val)
        requires rd { rd < 32 }
        requires of { IsOfGraph self.old.tables.graph v }
        requires straight { LeadsOn self.old }
        ensures { Becomes self.old self.new (record (wrote (seen_state self.old) rd v) { pc = self.old.pc + 4 }) }
    {
        self.set_register(rd, v);
        self.advance();
    }

    /// LUI.
    #[inline(always)]
    fn named_lui<const LOOP: u8>(&mut self, rd: u8, imm: u32) -> Option<Option<Access>>
        requires rd { rd < 32 }
        requires imm { imm < 1048576 }
        requires named { IsPresent self.old (Instr.Lui rd imm) }
        ensures { Tried self.old self.new result }
    {
        self.write_on(rd, Val::Int(imm << 12));
        Some(None)
    }

    /// An operation on a register and an immediate.
    #[inline(always)]
    fn named_imm<const LOOP: u8, const ARM: u8>(
        &mut self,
        kind: ImmKind,
        rd: u8,
        rs1: u8,
        imm: u32,
    ) -> Option<Option<Access>>
        requires rd { rd < 32 }
        requires rs1 { rs1 < 32 }
        requires named { IsPresent self.old (Instr.OpImm kind rd rs1 (cast_signed w32 imm)) }
        ensures { Tried self.old self.new result }
    {
        match self.register(rs1) {
            Val::Int(n) => self.write_on(rd, Val::Int(imm_result(kind, n, imm.cast_signed()))),
            Val::Addr { obj, off } => match kind {
                ImmKind::Addi => {
                    let off = off.wrapping_add(imm);
                    self.write_on(rd, Val::Addr { obj, off });
                }
                _ => self.write_imm(kind, rd, rs1, imm),
            },
            _ => self.write_imm(kind, rd, rs1, imm),
        }
        Some(None)
    }

    /// The same of any value.
    #[cold]
    #[inline(never)]
    fn write_imm(&mut self, kind: ImmKind, rd: u8, rs1: u8, imm: u32)
        requires rd { rd < 32 }
        requires rs1 { rs1 < 32 }
        requires straight { LeadsOn self.old }
        ensures { let s = seen_state self.old in
            Becomes self.old self.new (record (wrote s rd (op_imm (objects_of self.old.tables.graph) kind (value s.regs rs1) (cast_signed w32 imm))) { pc = self.old.pc + 4 }) }
    {
        let value = self.imm_operated(kind, rs1, imm.cast_signed());
        self.write_on(rd, value);
    }

    /// An operation on two registers.
    #[inline(always)]
    fn named_reg<const LOOP: u8, const ARM: u8>(
        &mut self,
        kind: RegKind,
        rd: u8,
        rs1: u8,
        rs2: u8,
    ) -> Option<Option<Access>>
        requires rd { rd < 32 }
        requires rs1 { rs1 < 32 }
        requires rs2 { rs2 < 32 }
        requires named { IsPresent self.old (Instr.OpReg kind rd rs1 rs2) }
        ensures { Tried self.old self.new result }
    {
        match self.register(rs1) {
            Val::Int(a) => match self.register(rs2) {
                Val::Int(b) => self.write_on(rd, Val::Int(reg_result(kind, a, b))),
                _ => self.write_reg(kind, rd, rs1, rs2),
            },
            _ => self.write_reg(kind, rd, rs1, rs2),
        }
        Some(None)
    }

    /// The same of any values.
    #[inline(never)]
    fn write_reg(&mut self, kind: RegKind, rd: u8, rs1: u8, rs2: u8)
        requires rd { rd < 32 }
        requires rs1 { rs1 < 32 }
        requires rs2 { rs2 < 32 }
        requires straight { LeadsOn self.old }
        ensures { let s = seen_state self.old in
            Becomes self.old self.new (record (wrote s rd (op_reg (objects_of self.old.tables.graph) kind (value s.regs rs1) (value s.regs rs2))) { pc = self.old.pc + 4 }) }
    {
        let value = self.operated(kind, rs1, rs2);
        self.write_on(rd, value);
    }

    /// Goes to the block at an address, if there is one. Tells whether it did.
    #[inline(always)]
    fn land(&mut self, address: u32) -> bool
        ensures { MatchBool result (Lands self.old self.new address) (Stays self.old self.new) }
    {
        match self.tables.block_at(u64::from(address)) {
            Some(place) => {
                self.enter(place);
                true
            }
            None => false,
        }
    }

    /// A conditional branch.
    #[inline(always)]
    fn named_branch<const LOOP: u8, const ARM: u8>(
        &mut self,
        kind: BranchKind,
        rs1: u8,
        rs2: u8,
        off: u32,
    ) -> Option<Option<Access>>
        requires rs1 { rs1 < 32 }
        requires rs2 { rs2 < 32 }
        requires named { IsPresent self.old (Instr.Branch kind rs1 rs2 (cast_signed w32 off)) }
        ensures { Tried self.old self.new result }
    {
        match self.is_taken(kind, rs1, rs2) {
            Some(true) => {
                if self.land(self.pc.wrapping_add(off)) {
                    Some(None)
                } else {
                    None
                }
            }
            Some(false) => {
                self.advance();
                Some(None)
            }
            None => None,
        }
    }

    /// Whether a branch is taken, if that is known.
    #[inline(always)]
    fn is_taken(&self, kind: BranchKind, rs1: u8, rs2: u8) -> Option<bool>
        requires rs1 { rs1 < 32 }
        requires rs2 { rs2 < 32 }
        ensures { let regs = (seen_state self.now).regs in
            result ≡ compare (objects_of self.now.tables.graph) kind (value regs rs1) (value regs rs2) }
    {
        match self.register(rs1) {
            Val::Int(a) => match self.register(rs2) {
                Val::Int(b) => Some(takes(kind, a, b)),
                _ => self.compared(kind, rs1, rs2),
            },
            _ => self.compared(kind, rs1, rs2),
        }
    }

    /// The same of any values.
    #[inline(never)]
    fn compared(&self, kind: BranchKind, rs1: u8, rs2: u8) -> Option<bool>
        requires rs1 { rs1 < 32 }
        requires rs2 { rs2 < 32 }
        ensures { let regs = (seen_state self.now).regs in
            result ≡ compare (objects_of self.now.tables.graph) kind (value regs rs1) (value regs rs2) }
    {
        let first = self.register(rs1);
        let second = self.register(rs2);
        compare(kind, &first, &second, &self.tables.graph)
    }

    /// JAL.
    #[inline(always)]
    fn named_jal<const LOOP: u8>(&mut self, rd: u8, off: u32) -> Option<Option<Access>>
        requires rd { rd < 32 }
        requires named { IsPresent self.old (Instr.Jal rd (cast_signed w32 off)) }
        ensures { Tried self.old self.new result }
    {
        match self.tables.block_at(u64::from(self.pc.wrapping_add(off))) {
            Some(place) => {
                let back = self.pc + 4;
                self.set_register(rd, Val::Int(back));
                self.enter(place);
                Some(None)
            }
            None => None,
        }
    }

    /// JALR, by a number to a block that a register may lead to.
    #[inline(always)]
    fn named_jalr<const LOOP: u8>(&mut self, rd: u8, rs1: u8, imm: u32) -> Option<Option<Access>>
        requires rd { rd < 32 }
        requires rs1 { rs1 < 32 }
        requires named { IsPresent self.old (Instr.Jalr rd rs1 (cast_signed w32 imm)) }
        ensures { Tried self.old self.new result }
    {
        match self.register(rs1) {
            Val::Int(n) => {
                let address = n.wrapping_add(imm) / 2 * 2;
                match self.tables.reached_at(u64::from(address)) {
                    Some(place) => {
                        let back = self.pc + 4;
                        self.set_register(rd, Val::Int(back));
                        self.enter(place);
                        Some(None)
                    }
                    None => None,
                }
            }
            _ => None,
        }
    }

    /// The place of an access of `width` bytes by a register, where that holds a number or an address.
    #[inline(always)]
    fn named_spot(&self, width: u32, rs1: u8, imm: u32) -> Spot
        requires width { IsWidth width }
        requires rs1 { rs1 < 32 }
        ensures place { IsSomewhere result → where_of result ≡ located (seen self.now) width (op_imm (objects_of self.now.tables.graph) ImmKind.Addi (value (seen_state self.now).regs rs1) (cast_signed w32 imm)) }
        ensures spans { Spans self.now.tables width result }
    {
        match self.register(rs1) {
            Val::Int(n) => self.located_number(width, n.wrapping_add(imm)),
            Val::Addr { obj, off } => self.located_offset(width, obj, off.wrapping_add(imm)),
            _ => Spot::Nowhere(0),
        }
    }

    /// A load.
    #[inline(always)]
    fn named_load<const LOOP: u8, const ARM: u8>(
        &mut self,
        kind: LoadKind,
        rd: u8,
        rs1: u8,
        imm: u32,
    ) -> Option<Option<Access>>
        requires rd { rd < 32 }
        requires rs1 { rs1 < 32 }
        requires named { IsPresent self.old (Instr.Load kind rd rs1 (cast_signed w32 imm)) }
        ensures { Tried self.old self.new result }
    {
        let spot = self.named_spot(load_bytes(kind), rs1, imm);
        match spot {
            Spot::Nowhere(_) => None,
            Spot::Fixed(_) | Spot::Object { .. } => {
                let value = self.loaded(kind, &spot);
                self.write_on(rd, value);
                Some(spot.access(false))
            }
        }
    }

    /// A store.
    #[inline(always)]
    fn named_store<const LOOP: u8, const ARM: u8>(
        &mut self,
        kind: StoreKind,
        rs1: u8,
        rs2: u8,
        imm: u32,
    ) -> Option<Option<Access>>
        requires rs1 { rs1 < 32 }
        requires rs2 { rs2 < 32 }
        requires named { IsPresent self.old (Instr.Store kind rs1 rs2 (cast_signed w32 imm)) }
        ensures { Tried self.old self.new result }
    {
        let spot = self.named_spot(store_bytes(kind), rs1, imm);
        match self.write_fault(&spot) {
            Some(_) => None,
            None => {
                let value = self.register(rs2);
                match self.put_value(kind, &value, &spot) {
                    Ok(()) => {
                        self.advance();
                        Some(spot.access(true))
                    }
                    Err(_) => None,
                }
            }
        }
    }
}
