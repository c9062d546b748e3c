use crate::accesses::{load_bytes, loaded_value, set_value, store_bytes};
use crate::events::{FlatAccess, FlatOutcome};
use crate::machine::Flat;
use crate::mapping::has_access;
use paged_store::ByteStore;
use rv32im::{BranchKind, ImmKind, Instr, LoadKind, RegKind, StoreKind, takes};
use std::alloc::AllocError;

impl<S: ByteStore> Flat<S> {
    ghost use Rattle.std.specs.Prelude.{◌≡◌, ◌<◌, IfOk, OnOk, OnErr, IfSome};
    ghost use Rattle.rv32im.specs.Table.{IsInRange};
    ghost use Rattle.flat_machine.specs.{State.{trap}, Step.{performed, accessed, next_state, next_access}, Machine.{state_of}};

    /// Does what a word was read as; one that means nothing is a trap. Tells of the access.
    // Inlined, as all that a step does: a call would pass the instruction by way of the stack.
    #[inline(always)]
    pub(super) fn perform_read(
        &mut self,
        read: Option<Instr>,
    ) -> Result<Option<FlatAccess>, AllocError>
        requires { IfSome read IsInRange }
        ensures state { OnOk result (state_of S.byte_at self.new
            ≡ next_state (state_of S.byte_at self.old) read) }
        ensures access { IfOk result (λ access. access
            ≡ next_access (state_of S.byte_at self.old) read) }
        ensures err { OnErr result (state_of S.byte_at self.new ≡ state_of S.byte_at self.old) }
    {
        match read {
            Some(i) => self.perform(i),
            None => {
                self.trap();
                Ok(None)
            }
        }
    }

    /// Performs an instruction, and tells of its access.
    #[inline(always)]
    fn perform(&mut self, i: Instr) -> Result<Option<FlatAccess>, AllocError>
        requires { IsInRange i }
        ensures state { OnOk result (state_of S.byte_at self.new ≡ performed (state_of S.byte_at self.old) i) }
        ensures access { IfOk result (λ access. access ≡ accessed (state_of S.byte_at self.old) i) }
        ensures err { OnErr result (state_of S.byte_at self.new ≡ state_of S.byte_at self.old) }
    {
        match i {
            Instr::Lui { rd, imm } => self.lui(rd, imm),
            Instr::Auipc { rd, imm } => self.auipc(rd, imm),
            Instr::Jal { rd, off } => self.jal(rd, off),
            Instr::Jalr { rd, rs1, imm } => self.jalr(rd, rs1, imm),
            Instr::Branch {
                kind,
                rs1,
                rs2,
                off,
            } => self.branch(kind, rs1, rs2, off),
            Instr::Load { kind, rd, rs1, imm } => return Ok(self.load(kind, rd, rs1, imm)),
            Instr::Store {
                kind,
                rs1,
                rs2,
                imm,
            } => return self.store_word(kind, rs1, rs2, imm),
            Instr::OpImm { kind, rd, rs1, imm } => self.op_imm(kind, rd, rs1, imm),
            Instr::OpReg { kind, rd, rs1, rs2 } => self.op_reg(kind, rd, rs1, rs2),
            Instr::Fence { .. } | Instr::FenceI { .. } => self.pc = self.pc.wrapping_add(4),
            Instr::Ecall => self.call()?,
            Instr::Ebreak => self.trap(),
        }
        Ok(None)
    }

    /// LUI.
    #[inline(always)]
    pub(super) fn lui(&mut self, rd: u8, imm: u32)
        requires rd { rd < 32 }
        requires imm { imm < 1048576 }
        ensures { state_of S.byte_at self.new ≡ performed (state_of S.byte_at self.old) (Instr.Lui rd imm) }
    {
        let mut pc = self.pc;
        self.lui_near(&mut pc, rd, imm);
        self.pc = pc;
    }

    /// AUIPC.
    #[inline(always)]
    pub(super) fn auipc(&mut self, rd: u8, imm: u32)
        requires rd { rd < 32 }
        requires imm { imm < 1048576 }
        ensures { state_of S.byte_at self.new ≡ performed (state_of S.byte_at self.old) (Instr.Auipc rd imm) }
    {
        let mut pc = self.pc;
        self.auipc_near(&mut pc, rd, imm);
        self.pc = pc;
    }

    /// JAL.
    #[inline(always)]
    pub(super) fn jal(&mut self, rd: u8, off: i32)
        requires { rd < 32 }
        ensures { state_of S.byte_at self.new ≡ performed (state_of S.byte_at self.old) (Instr.Jal rd off) }
    {
        let mut pc = self.pc;
        self.jal_near(&mut pc, rd, off);
        self.pc = pc;
    }

    /// JALR.
    #[inline(always)]
    pub(super) fn jalr(&mut self, rd: u8, rs1: u8, imm: i32)
        requires rd { rd < 32 }
        requires rs1 { rs1 < 32 }
        ensures { state_of S.byte_at self.new ≡ performed (state_of S.byte_at self.old) (Instr.Jalr rd rs1 imm) }
    {
        let mut pc = self.pc;
        self.jalr_near(&mut pc, rd, rs1, imm);
        self.pc = pc;
    }

    /// A conditional branch.
    #[inline(always)]
    pub(super) fn branch(&mut self, kind: BranchKind, rs1: u8, rs2: u8, off: i32)
        requires rs1 { rs1 < 32 }
        requires rs2 { rs2 < 32 }
        ensures { state_of S.byte_at self.new ≡ performed (state_of S.byte_at self.old) (Instr.Branch kind rs1 rs2 off) }
    {
        let consumed = takes(kind, self.register(rs1), self.register(rs2));
        self.pc = self.pc.wrapping_add_signed(if consumed { off } else { 4 });
    }

    /// An operation on a register and an immediate.
    #[inline(always)]
    pub(super) fn op_imm(&mut self, kind: ImmKind, rd: u8, rs1: u8, imm: i32)
        requires rd { rd < 32 }
        requires rs1 { rs1 < 32 }
        ensures { state_of S.byte_at self.new ≡ performed (state_of S.byte_at self.old) (Instr.OpImm kind rd rs1 imm) }
    {
        let mut pc = self.pc;
        self.op_imm_near(&mut pc, kind, rd, rs1, imm);
        self.pc = pc;
    }

    /// An operation on two registers.
    #[inline(always)]
    pub(super) fn op_reg(&mut self, kind: RegKind, rd: u8, rs1: u8, rs2: u8)
        requires rd { rd < 32 }
        requires rs1 { rs1 < 32 }
        requires rs2 { rs2 < 32 }
        ensures { state_of S.byte_at self.new ≡ performed (state_of S.byte_at self.old) (Instr.OpReg kind rd rs1 rs2) }
    {
        let mut pc = self.pc;
        self.op_reg_near(&mut pc, kind, rd, rs1, rs2);
        self.pc = pc;
    }

    /// A load. Tells of the access.
    #[inline(always)]
    pub(super) fn load(&mut self, kind: LoadKind, rd: u8, rs1: u8, imm: i32) -> Option<FlatAccess>
        requires rd { rd < 32 }
        requires rs1 { rs1 < 32 }
        ensures state { state_of S.byte_at self.new ≡ performed (state_of S.byte_at self.old) (Instr.Load kind rd rs1 imm) }
        ensures access { result
            ≡ accessed (state_of S.byte_at self.old) (Instr.Load kind rd rs1 imm) }
    {
        let at = self.register(rs1).wrapping_add_signed(imm);
        if !has_access(&self.map, at, load_bytes(kind)) {
            self.trap();
            return None;
        }
        let value = loaded_value(&self.store, kind, at);
        self.write(rd, value);
        Some(FlatAccess { at, write: false })
    }

    /// A store. Tells of the access.
    #[inline(always)]
    fn store_word(
        &mut self,
        kind: StoreKind,
        rs1: u8,
        rs2: u8,
        imm: i32,
    ) -> Result<Option<FlatAccess>, AllocError>
        requires rs1 { rs1 < 32 }
        requires rs2 { rs2 < 32 }
        ensures state { OnOk result (state_of S.byte_at self.new ≡ performed (state_of S.byte_at self.old) (Instr.Store kind rs1 rs2 imm)) }
        ensures access { IfOk result (λ access. access
            ≡ accessed (state_of S.byte_at self.old) (Instr.Store kind rs1 rs2 imm)) }
        ensures err { OnErr result (state_of S.byte_at self.new ≡ state_of S.byte_at self.old) }
    {
        let at = self.register(rs1).wrapping_add_signed(imm);
        if !has_access(&self.map, at, store_bytes(kind)) {
            self.trap();
            return Ok(None);
        }
        let value = self.register(rs2);
        set_value(&mut self.store, kind, at, value)?;
        self.pc = self.pc.wrapping_add(4);
        Ok(Some(FlatAccess { at, write: true }))
    }

    /// Ends the machine at the instruction at the pc.
    pub(super) fn trap(&mut self)
        ensures { state_of S.byte_at self.new ≡ trap (state_of S.byte_at self.old) }
    {
        self.outcome = FlatOutcome::Trapped { pc: self.pc };
    }
}
