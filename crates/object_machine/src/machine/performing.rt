use crate::events::Access;
use crate::machine::Source;
use crate::units::Prepared;
use cell_values::{Val, compare, low_site, op_imm, op_reg};
use rv32im::{BranchKind, ImmKind, Instr, RegKind, imm_result, reg_result};
use std::alloc::AllocError;

impl Source {
    ghost use Rattle.std.specs.Prelude.{◌≡◌, ◌+◌, ◌<◌, length, IfOk, OnOk, OnErr};
    ghost use Rattle.cell_values.specs.{Objects.{IsOfGraph, objects_of}, Operations.{op_imm, op_reg}};
    ghost use Rattle.object_machine.specs.{State.{trapped, value}, Step.{acts, access_by, one_word, upper_value, imm_result}, Units.{Fits, FitsRead, IsFit}, Machine.{here, seen, seen_state, next_by, accesses, Becomes}};

    /// Performs the present unit. Tells of its access.
    #[inline(always)]
    pub(super) fn perform(&mut self, unit: &Prepared) -> Result<Option<Access>, AllocError>
        requires present { unit.now ≡ here self.old }
        requires fit { IsFit (length self.old.tables.graph.objects.items) unit.now }
        ensures state { OnOk result (Becomes self.old self.new (next_by (seen self.old) (seen_state self.old) unit.now.instr unit.now.pair)) }
        ensures access { IfOk result (λ access. access ≡ accesses (seen self.old) (seen_state self.old) unit.now.instr unit.now.pair) }
        ensures err { OnErr result (Becomes self.old self.new (seen_state self.old)) }
    {
        match &unit.pair {
            Some(pair) => {
                self.call_pair(pair);
                Ok(None)
            }
            None => self.perform_read(unit.instr),
        }
    }

    /// Does what a word was read as; one that means nothing is a trap. Tells of its access.
    #[inline(always)]
    fn perform_read(&mut self, read: Option<Instr>) -> Result<Option<Access>, AllocError>
        requires { FitsRead read }
        ensures state { OnOk result (Becomes self.old self.new (one_word (seen self.old) (seen_state self.old) read)) }
        ensures access { IfOk result (λ access. access ≡ access_by (seen self.old) (seen_state self.old) read) }
        ensures err { OnErr result (Becomes self.old self.new (seen_state self.old)) }
    {
        match read {
            Some(i) => self.perform_one(i),
            None => {
                self.trap();
                Ok(None)
            }
        }
    }

    /// Performs an instruction. Tells of its access.
    #[inline(always)]
    fn perform_one(&mut self, i: Instr) -> Result<Option<Access>, AllocError>
        requires { Fits i }
        ensures state { let p = seen self.old in
            let s = seen_state self.old in
            OnOk result (Becomes self.old self.new (acts p s i (p.site s.pc))) }
        ensures access { IfOk result (λ access. access ≡ access_by (seen self.old) (seen_state self.old) (Some i)) }
        ensures err { OnErr result (Becomes self.old self.new (seen_state self.old)) }
    {
        match i {
            Instr::Lui { rd, imm } => self.lui(rd, imm),
            Instr::Auipc { rd, imm } => self.auipc(rd, imm),
            Instr::Jal { rd, off } => self.jal(rd, off),
            Instr::Jalr { rd, rs1, imm } => self.jalr(rd, rs1, imm),
            Instr::Branch {
                kind,
                rs1,
                rs2,
                off,
            } => self.branch(kind, rs1, rs2, off),
            Instr::Load { kind, rd, rs1, imm } => return Ok(self.load(kind, rd, rs1, imm)),
            Instr::Store {
                kind,
                rs1,
                rs2,
                imm,
            } => return self.store(kind, rs1, rs2, imm),
            Instr::OpImm { kind, rd, rs1, imm } => self.op_imm(kind, rd, rs1, imm),
            Instr::OpReg { kind, rd, rs1, rs2 } => self.op_reg(kind, rd, rs1, rs2),
            Instr::Fence { .. } | Instr::FenceI { .. } => self.fall(),
            Instr::Ecall => self.call()?,
            Instr::Ebreak => self.trap(),
        }
        Ok(None)
    }

    /// LUI.
    #[inline(always)]
    fn lui(&mut self, rd: u8, imm: u32)
        requires rd { rd < 32 }
        requires imm { imm < 1048576 }
        ensures { let p = seen self.old in
            let s = seen_state self.old in
            Becomes self.old self.new (acts p s (Instr.Lui rd imm) (p.site s.pc)) }
    {
        let value = self.upper(imm << 12);
        self.write(rd, value);
    }

    /// AUIPC.
    #[inline(always)]
    fn auipc(&mut self, rd: u8, imm: u32)
        requires rd { rd < 32 }
        requires imm { imm < 1048576 }
        ensures { let p = seen self.old in
            let s = seen_state self.old in
            Becomes self.old self.new (acts p s (Instr.Auipc rd imm) (p.site s.pc)) }
    {
        let value = self.upper(self.pc.wrapping_add(imm << 12));
        self.write(rd, value);
    }

    /// A number, or at a site the upper part of an address.
    #[inline(always)]
    fn upper(&self, n: u32) -> Val
        ensures value { result ≡ upper_value ((seen self.now).site self.now.pc) n }
        ensures of { IsOfGraph self.now.tables.graph result }
    {
        match self.site() {
            Some(site) => Val::Hi {
                obj: site.object,
                off: site.offset,
            },
            None => Val::Int(n),
        }
    }

    /// JAL.
    #[inline(always)]
    fn jal(&mut self, rd: u8, off: i32)
        requires { rd < 32 }
        ensures { let p = seen self.old in
            let s = seen_state self.old in
            Becomes self.old self.new (acts p s (Instr.Jal rd off) (p.site s.pc)) }
    {
        let target = self.pc.wrapping_add_signed(off);
        let back = self.pc + 4;
        self.link(target, rd, Val::Int(back));
    }

    /// JALR: the target is taken before the way back is written.
    #[inline(always)]
    fn jalr(&mut self, rd: u8, rs1: u8, imm: i32)
        requires rd { rd < 32 }
        requires rs1 { rs1 < 32 }
        ensures { let p = seen self.old in
            let s = seen_state self.old in
            Becomes self.old self.new (acts p s (Instr.Jalr rd rs1 imm) (p.site s.pc)) }
    {
        let target = self.imm_operated(ImmKind::Addi, rs1, imm);
        self.jump_by(&target, rd);
    }

    /// A conditional branch.
    #[inline(always)]
    fn branch(&mut self, kind: BranchKind, rs1: u8, rs2: u8, off: i32)
        requires rs1 { rs1 < 32 }
        requires rs2 { rs2 < 32 }
        ensures { let p = seen self.old in
            let s = seen_state self.old in
            Becomes self.old self.new (acts p s (Instr.Branch kind rs1 rs2 off) (p.site s.pc)) }
    {
        let first = self.register(rs1);
        let second = self.register(rs2);
        let consumed = compare(kind, &first, &second, &self.tables.graph);
        self.branch_if(consumed, off);
    }

    /// An operation on a register and an immediate, or at a site the low part of an address.
    #[inline(always)]
    fn op_imm(&mut self, kind: ImmKind, rd: u8, rs1: u8, imm: i32)
        requires rd { rd < 32 }
        requires rs1 { rs1 < 32 }
        ensures { let p = seen self.old in
            let s = seen_state self.old in
            Becomes self.old self.new (acts p s (Instr.OpImm kind rd rs1 imm) (p.site s.pc)) }
    {
        let value = self.imm_result(kind, rs1, imm);
        self.write(rd, value);
    }

    /// What that leaves of a register.
    #[inline(always)]
    fn imm_result(&self, kind: ImmKind, rs1: u8, imm: i32) -> Val
        requires { rs1 < 32 }
        ensures value { result ≡ imm_result (seen self.now) kind (value (seen_state self.now).regs rs1) imm ((seen self.now).site self.now.pc) }
        ensures of { IsOfGraph self.now.tables.graph result }
    {
        match self.site() {
            Some(site) => {
                let base = self.register(rs1);
                low_site(&base, site.object, site.offset, &self.tables.graph)
            }
            None => self.imm_operated(kind, rs1, imm),
        }
    }

    // Operations on numbers, and sums of an address and a number, are inlined. The others take the registers' numbers, so that
    // no value need stand in memory for them.

    /// What an operation with an immediate leaves of a register.
    #[inline(always)]
    pub(super) fn imm_operated(&self, kind: ImmKind, rs1: u8, imm: i32) -> Val
        requires { rs1 < 32 }
        ensures value { result ≡ op_imm (objects_of self.now.tables.graph) kind (value (seen_state self.now).regs rs1) imm }
        ensures of { IsOfGraph self.now.tables.graph result }
    {
        match self.register(rs1) {
            Val::Int(n) => Val::Int(imm_result(kind, n, imm)),
            Val::Addr { obj, off } => match kind {
                ImmKind::Addi => Val::Addr {
                    obj,
                    off: off.wrapping_add(imm.cast_unsigned()),
                },
                _ => self.imm_operated_any(kind, rs1, imm),
            },
            _ => self.imm_operated_any(kind, rs1, imm),
        }
    }

    /// The same of any value.
    #[inline(never)]
    fn imm_operated_any(&self, kind: ImmKind, rs1: u8, imm: i32) -> Val
        requires { rs1 < 32 }
        ensures value { result ≡ op_imm (objects_of self.now.tables.graph) kind (value (seen_state self.now).regs rs1) imm }
        ensures of { IsOfGraph self.now.tables.graph result }
    {
        let base = self.register(rs1);
        op_imm(kind, &base, imm, &self.tables.graph)
    }

    /// An operation on two registers.
    #[inline(always)]
    fn op_reg(&mut self, kind: RegKind, rd: u8, rs1: u8, rs2: u8)
        requires rd { rd < 32 }
        requires rs1 { rs1 < 32 }
        requires rs2 { rs2 < 32 }
        ensures { let p = seen self.old in
            let s = seen_state self.old in
            Becomes self.old self.new (acts p s (Instr.OpReg kind rd rs1 rs2) (p.site s.pc)) }
    {
        let value = self.operated(kind, rs1, rs2);
        self.write(rd, value);
    }

    /// What an operation leaves of two registers.
    #[inline(always)]
    #[tactic(auto, using(crate::proofs::NumberLemmas::numbers_operated))]
    pub(super) fn operated(&self, kind: RegKind, rs1: u8, rs2: u8) -> Val
        requires rs1 { rs1 < 32 }
        requires rs2 { rs2 < 32 }
        ensures value { let regs = (seen_state self.now).regs in
            result ≡ op_reg (objects_of self.now.tables.graph) kind (value regs rs1) (value regs rs2) }
        ensures of { IsOfGraph self.now.tables.graph result }
    {
        match self.register(rs1) {
            Val::Int(a) => match self.register(rs2) {
                Val::Int(b) => Val::Int(reg_result(kind, a, b)),
                _ => self.operated_any(kind, rs1, rs2),
            },
            _ => self.operated_any(kind, rs1, rs2),
        }
    }

    /// The same of any values.
    #[inline(never)]
    fn operated_any(&self, kind: RegKind, rs1: u8, rs2: u8) -> Val
        requires rs1 { rs1 < 32 }
        requires rs2 { rs2 < 32 }
        ensures value { let regs = (seen_state self.now).regs in
            result ≡ op_reg (objects_of self.now.tables.graph) kind (value regs rs1) (value regs rs2) }
        ensures of { IsOfGraph self.now.tables.graph result }
    {
        let first = self.register(rs1);
        let second = self.register(rs2);
        op_reg(kind, &first, &second, &self.tables.graph)
    }
}
