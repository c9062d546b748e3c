// What most steps of a run do: instructions that the table of decoded instructions has, whose loads and stores are near
// the last ones. They end no machine.
use crate::accesses::{load_bytes, loaded_value, set_value, store_bytes};
use crate::events::FlatAccess;
use crate::known::Known;
use crate::known_table::{forget, is_known};
use crate::machine::Flat;
use crate::mapping::is_near;
use crate::op::Op;
use paged_store::ByteStore;
use rv32im::{BranchKind, ImmKind, LoadKind, RegKind, StoreKind, imm_result, reg_result, takes};

impl<S: ByteStore> Flat<S> {
    ghost use Rattle.std.specs.Prelude.{◌≡◌, ◌<◌, ◌≤◌, ℕ, length, IsTrue, MatchBool};
    ghost use Rattle.rv32im.specs.{declared.instructions.Instr.{Instr}, Table.{IsInRange}};
    ghost use Rattle.flat_machine.specs.{Mapping.{can_access}, Step.{performed, accessed}, Ops.{instr_of}, Known.{AreKnown}, Machine.{state_of, state_at}};

    /// Performs an instruction at the machine's own pc, unless it loads or stores elsewhere than near the last ones. Tells
    /// whether it did.
    #[inline(always)]
    pub(super) fn perform_here<const SLOTS: usize>(&mut self, op: Op, known: &mut [Known]) -> bool
        requires some { 0 < SLOTS }
        requires len { length known.old ≡ SLOTS }
        requires known { let s = state_of S.byte_at self.old in AreKnown s.map s.hart.mem known.old }
        requires in_range { IsInRange (instr_of op) }
        ensures state { MatchBool result
            (state_of S.byte_at self.new ≡ performed (state_of S.byte_at self.old) (instr_of op))
            (state_of S.byte_at self.new ≡ state_of S.byte_at self.old) }
        ensures outcome { (state_of S.byte_at self.new).outcome ≡ (state_of S.byte_at self.old).outcome }
        ensures known { let t = state_of S.byte_at self.new in AreKnown t.map t.hart.mem known.new }
    {
        let mut pc = self.pc;
        let done = self.perform_near::<SLOTS>(&mut pc, op, known);
        self.pc = pc;
        done
    }

    /// Performs an instruction at a pc, unless it loads or stores elsewhere than near the last ones. Tells whether it did.
    // Here and below the pc is beside the machine, so that a loop of steps has it in a register of the host.
    #[inline(always)]
    pub(super) fn perform_near<const SLOTS: usize>(
        &mut self,
        pc: &mut u32,
        op: Op,
        known: &mut [Known],
    ) -> bool
        requires some { 0 < SLOTS }
        requires len { length known.old ≡ SLOTS }
        requires known { let s = state_of S.byte_at self.old in AreKnown s.map s.hart.mem known.old }
        requires in_range { IsInRange (instr_of op) }
        ensures state { MatchBool result
            (state_at S.byte_at self.new pc.new ≡ performed (state_at S.byte_at self.old pc.old) (instr_of op))
            (state_at S.byte_at self.new pc.new ≡ state_at S.byte_at self.old pc.old) }
        ensures outcome { (state_of S.byte_at self.new).outcome ≡ (state_of S.byte_at self.old).outcome }
        ensures known { let t = state_of S.byte_at self.new in AreKnown t.map t.hart.mem known.new }
    {
        match op {
            Op::Lui { rd, imm } => self.lui_near(pc, rd, imm),
            Op::Auipc { rd, imm } => self.auipc_near(pc, rd, imm),
            Op::Jal { rd, off } => self.jal_near(pc, rd, off),
            Op::Jalr { rd, rs1, imm } => self.jalr_near(pc, rd, rs1, imm),
            Op::Beq { rs1, rs2, off } => self.branch_near::<SLOTS>(
                pc,
                BranchKind::Beq,
                rs1,
                rs2,
                off,
                known,
            ),
            Op::Bne { rs1, rs2, off } => self.branch_near::<SLOTS>(
                pc,
                BranchKind::Bne,
                rs1,
                rs2,
                off,
                known,
            ),
            Op::Blt { rs1, rs2, off } => self.branch_near::<SLOTS>(
                pc,
                BranchKind::Blt,
                rs1,
                rs2,
                off,
                known,
            ),
            Op::Bge { rs1, rs2, off } => self.branch_near::<SLOTS>(
                pc,
                BranchKind::Bge,
                rs1,
                rs2,
                off,
                known,
            ),
            Op::Bltu { rs1, rs2, off } => self.branch_near::<SLOTS>(
                pc,
                BranchKind::Bltu,
                rs1,
                rs2,
                off,
                known,
            ),
            Op::Bgeu { rs1, rs2, off } => self.branch_near::<SLOTS>(
                pc,
                BranchKind::Bgeu,
                rs1,
                rs2,
                off,
                known,
            ),
            Op::Lb { rd, rs1, imm } => return self.load_near(pc, LoadKind::Lb, rd, rs1, imm),
            Op::Lh { rd, rs1, imm } => return self.load_near(pc, LoadKind::Lh, rd, rs1, imm),
            Op::Lw { rd, rs1, imm } => return self.load_near(pc, LoadKind::Lw, rd, rs1, imm),
            Op::Lbu { rd, rs1, imm } => return self.load_near(pc, LoadKind::Lbu, rd, rs1, imm),
            Op::Lhu { rd, rs1, imm } => return self.load_near(pc, LoadKind::Lhu, rd, rs1, imm),
            Op::Sb { rs1, rs2, imm } => return self.store_near::<SLOTS>(
                pc,
                StoreKind::Sb,
                rs1,
                rs2,
                imm,
                known,
            ),
            Op::Sh { rs1, rs2, imm } => return self.store_near::<SLOTS>(
                pc,
                StoreKind::Sh,
                rs1,
                rs2,
                imm,
                known,
            ),
            Op::Sw { rs1, rs2, imm } => return self.store_near::<SLOTS>(
                pc,
                StoreKind::Sw,
                rs1,
                rs2,
                imm,
                known,
            ),
            Op::Addi { rd, rs1, imm } => self.op_imm_near(pc, ImmKind::Addi, rd, rs1, imm),
            Op::Slti { rd, rs1, imm } => self.op_imm_near(pc, ImmKind::Slti, rd, rs1, imm),
            Op::Sltiu { rd, rs1, imm } => self.op_imm_near(pc, ImmKind::Sltiu, rd, rs1, imm),
            Op::Xori { rd, rs1, imm } => self.op_imm_near(pc, ImmKind::Xori, rd, rs1, imm),
            Op::Ori { rd, rs1, imm } => self.op_imm_near(pc, ImmKind::Ori, rd, rs1, imm),
            Op::Andi { rd, rs1, imm } => self.op_imm_near(pc, ImmKind::Andi, rd, rs1, imm),
            Op::Slli { rd, rs1, imm } => self.op_imm_near(pc, ImmKind::Slli, rd, rs1, imm),
            Op::Srli { rd, rs1, imm } => self.op_imm_near(pc, ImmKind::Srli, rd, rs1, imm),
            Op::Srai { rd, rs1, imm } => self.op_imm_near(pc, ImmKind::Srai, rd, rs1, imm),
            Op::Add { rd, rs1, rs2 } => self.op_reg_near(pc, RegKind::Add, rd, rs1, rs2),
            Op::Sub { rd, rs1, rs2 } => self.op_reg_near(pc, RegKind::Sub, rd, rs1, rs2),
            Op::Sll { rd, rs1, rs2 } => self.op_reg_near(pc, RegKind::Sll, rd, rs1, rs2),
            Op::Slt { rd, rs1, rs2 } => self.op_reg_near(pc, RegKind::Slt, rd, rs1, rs2),
            Op::Sltu { rd, rs1, rs2 } => self.op_reg_near(pc, RegKind::Sltu, rd, rs1, rs2),
            Op::Xor { rd, rs1, rs2 } => self.op_reg_near(pc, RegKind::Xor, rd, rs1, rs2),
            Op::Srl { rd, rs1, rs2 } => self.op_reg_near(pc, RegKind::Srl, rd, rs1, rs2),
            Op::Sra { rd, rs1, rs2 } => self.op_reg_near(pc, RegKind::Sra, rd, rs1, rs2),
            Op::Or { rd, rs1, rs2 } => self.op_reg_near(pc, RegKind::Or, rd, rs1, rs2),
            Op::And { rd, rs1, rs2 } => self.op_reg_near(pc, RegKind::And, rd, rs1, rs2),
            Op::Mul { rd, rs1, rs2 } => self.op_reg_near(pc, RegKind::Mul, rd, rs1, rs2),
            Op::OpReg { kind, rd, rs1, rs2 } => self.op_reg_near(pc, kind, rd, rs1, rs2),
        }
        true
    }

    /// LUI.
    #[inline(always)]
    pub(super) fn lui_near(&mut self, pc: &mut u32, rd: u8, imm: u32)
        requires rd { rd < 32 }
        requires imm { imm < 1048576 }
        ensures { state_at S.byte_at self.new pc.new ≡ performed (state_at S.byte_at self.old pc.old) (Instr.Lui rd imm) }
    {
        self.write_near(pc, rd, imm << 12);
    }

    /// AUIPC.
    #[inline(always)]
    pub(super) fn auipc_near(&mut self, pc: &mut u32, rd: u8, imm: u32)
        requires rd { rd < 32 }
        requires imm { imm < 1048576 }
        ensures { state_at S.byte_at self.new pc.new ≡ performed (state_at S.byte_at self.old pc.old) (Instr.Auipc rd imm) }
    {
        let value = pc.wrapping_add(imm << 12);
        self.write_near(pc, rd, value);
    }

    /// JAL.
    #[inline(always)]
    pub(super) fn jal_near(&mut self, pc: &mut u32, rd: u8, off: i32)
        requires { rd < 32 }
        ensures { state_at S.byte_at self.new pc.new ≡ performed (state_at S.byte_at self.old pc.old) (Instr.Jal rd off) }
    {
        let target = pc.wrapping_add_signed(off);
        self.jump_near(pc, rd, target);
    }

    /// JALR: the target is taken before the return address is written.
    #[inline(always)]
    pub(super) fn jalr_near(&mut self, pc: &mut u32, rd: u8, rs1: u8, imm: i32)
        requires rd { rd < 32 }
        requires rs1 { rs1 < 32 }
        ensures { state_at S.byte_at self.new pc.new ≡ performed (state_at S.byte_at self.old pc.old) (Instr.Jalr rd rs1 imm) }
    {
        let target = self.register(rs1).wrapping_add_signed(imm) & !1;
        self.jump_near(pc, rd, target);
    }

    /// An operation on a register and an immediate.
    #[inline(always)]
    pub(super) fn op_imm_near(&mut self, pc: &mut u32, kind: ImmKind, rd: u8, rs1: u8, imm: i32)
        requires rd { rd < 32 }
        requires rs1 { rs1 < 32 }
        ensures { state_at S.byte_at self.new pc.new ≡ performed (state_at S.byte_at self.old pc.old) (Instr.OpImm kind rd rs1 imm) }
    {
        let value = imm_result(kind, self.register(rs1), imm);
        self.write_near(pc, rd, value);
    }

    /// An operation on two registers.
    #[inline(always)]
    pub(super) fn op_reg_near(&mut self, pc: &mut u32, kind: RegKind, rd: u8, rs1: u8, rs2: u8)
        requires rd { rd < 32 }
        requires rs1 { rs1 < 32 }
        requires rs2 { rs2 < 32 }
        ensures { state_at S.byte_at self.new pc.new ≡ performed (state_at S.byte_at self.old pc.old) (Instr.OpReg kind rd rs1 rs2) }
    {
        let value = reg_result(kind, self.register(rs1), self.register(rs2));
        self.write_near(pc, rd, value);
    }

    /// A conditional branch. Where it is taken, its target is looked up at once.
    // So the host branches here, too, as it would not for a choice between two numbers: where it guesses
    // wrong, it learns so as soon as it has compared, and not only at the jump to what comes next.
    #[inline(always)]
    fn branch_near<const SLOTS: usize>(
        &mut self,
        pc: &mut u32,
        kind: BranchKind,
        rs1: u8,
        rs2: u8,
        off: i32,
        known: &mut [Known],
    )
        requires rs1 { rs1 < 32 }
        requires rs2 { rs2 < 32 }
        requires some { 0 < SLOTS }
        requires len { length known.old ≡ SLOTS }
        requires known { let s = state_of S.byte_at self.old in AreKnown s.map s.hart.mem known.old }
        ensures state { state_at S.byte_at self.new pc.new ≡ performed (state_at S.byte_at self.old pc.old) (Instr.Branch kind rs1 rs2 off) }
        ensures outcome { (state_of S.byte_at self.new).outcome ≡ (state_of S.byte_at self.old).outcome }
        ensures known { let t = state_of S.byte_at self.new in AreKnown t.map t.hart.mem known.new }
    {
        if !takes(kind, self.register(rs1), self.register(rs2)) {
            *pc = pc.wrapping_add(4);
            return;
        }
        let target = pc.wrapping_add_signed(off);
        if !is_known::<SLOTS>(known, target) {
            self.learn_at::<SLOTS>(target, known);
        }
        *pc = target;
    }

    /// A load near the last ones. Tells whether it is.
    #[inline(always)]
    fn load_near(&mut self, pc: &mut u32, kind: LoadKind, rd: u8, rs1: u8, imm: i32) -> bool
        requires rd { rd < 32 }
        requires rs1 { rs1 < 32 }
        ensures state { MatchBool result
            (state_at S.byte_at self.new pc.new ≡ performed (state_at S.byte_at self.old pc.old) (Instr.Load kind rd rs1 imm))
            (state_at S.byte_at self.new pc.new ≡ state_at S.byte_at self.old pc.old) }
        ensures outcome { (state_of S.byte_at self.new).outcome ≡ (state_of S.byte_at self.old).outcome }
    {
        let at = self.register(rs1).wrapping_add_signed(imm);
        if !self.is_near(at, load_bytes(kind)) {
            return false;
        }
        let value = loaded_value(&self.store, kind, at);
        self.write_near(pc, rd, value);
        true
    }

    /// A store near the last ones, where no memory has to be made. Tells whether it is. The table forgets the instruction
    /// that it wrote over.
    #[inline(always)]
    fn store_near<const SLOTS: usize>(
        &mut self,
        pc: &mut u32,
        kind: StoreKind,
        rs1: u8,
        rs2: u8,
        imm: i32,
        known: &mut [Known],
    ) -> bool
        requires rs1 { rs1 < 32 }
        requires rs2 { rs2 < 32 }
        requires some { 0 < SLOTS }
        requires len { length known.old ≡ SLOTS }
        requires known { let s = state_of S.byte_at self.old in AreKnown s.map s.hart.mem known.old }
        ensures state { MatchBool result
            (state_at S.byte_at self.new pc.new ≡ performed (state_at S.byte_at self.old pc.old) (Instr.Store kind rs1 rs2 imm))
            (state_at S.byte_at self.new pc.new ≡ state_at S.byte_at self.old pc.old) }
        ensures outcome { (state_of S.byte_at self.new).outcome ≡ (state_of S.byte_at self.old).outcome }
        ensures known { let t = state_of S.byte_at self.new in AreKnown t.map t.hart.mem known.new }
    {
        let at = self.register(rs1).wrapping_add_signed(imm);
        if !self.is_near(at, store_bytes(kind)) {
            return false;
        }
        let value = self.register(rs2);
        if set_value(&mut self.store, kind, at, value).is_err() {
            return false;
        }
        forget::<SLOTS>(known, at);
        *pc = pc.wrapping_add(4);
        true
    }

    /// The access of an instruction: that of a load or a store that does not trap.
    #[inline(always)]
    pub(super) fn access_of_op(&self, op: Op) -> Option<FlatAccess>
        requires { IsInRange (instr_of op) }
        ensures { result ≡ accessed (state_of S.byte_at self.now) (instr_of op) }
    {
        match op {
            Op::Lb { rs1, imm, .. } => self.load_access(LoadKind::Lb, rs1, imm),
            Op::Lh { rs1, imm, .. } => self.load_access(LoadKind::Lh, rs1, imm),
            Op::Lw { rs1, imm, .. } => self.load_access(LoadKind::Lw, rs1, imm),
            Op::Lbu { rs1, imm, .. } => self.load_access(LoadKind::Lbu, rs1, imm),
            Op::Lhu { rs1, imm, .. } => self.load_access(LoadKind::Lhu, rs1, imm),
            Op::Sb { rs1, imm, .. } => self.store_access(StoreKind::Sb, rs1, imm),
            Op::Sh { rs1, imm, .. } => self.store_access(StoreKind::Sh, rs1, imm),
            Op::Sw { rs1, imm, .. } => self.store_access(StoreKind::Sw, rs1, imm),
            Op::Lui { .. }
            | Op::Auipc { .. }
            | Op::Jal { .. }
            | Op::Jalr { .. }
            | Op::Beq { .. }
            | Op::Bne { .. }
            | Op::Blt { .. }
            | Op::Bge { .. }
            | Op::Bltu { .. }
            | Op::Bgeu { .. }
            | Op::Addi { .. }
            | Op::Slti { .. }
            | Op::Sltiu { .. }
            | Op::Xori { .. }
            | Op::Ori { .. }
            | Op::Andi { .. }
            | Op::Slli { .. }
            | Op::Srli { .. }
            | Op::Srai { .. }
            | Op::Add { .. }
            | Op::Sub { .. }
            | Op::Sll { .. }
            | Op::Slt { .. }
            | Op::Sltu { .. }
            | Op::Xor { .. }
            | Op::Srl { .. }
            | Op::Sra { .. }
            | Op::Or { .. }
            | Op::And { .. }
            | Op::Mul { .. }
            | Op::OpReg { .. } => None,
        }
    }

    /// Whether an access of `width` bytes is aligned, and is where the last loads and stores were.
    #[inline(always)]
    #[tactic(auto, using(crate::proofs::Spans::near_access))]
    pub(super) fn is_near(&self, at: u32, width: u32) -> bool
        requires some { 1 ≤ width }
        requires few { width ≤ 4 }
        ensures { IsTrue result → IsTrue (can_access (state_of S.byte_at self.now).map at width) }
    {
        at % width == 0 && (is_near(&self.near, at) || is_near(&self.other, at))
    }
}
