// What few steps of a run do: all that a step may do, beginning with the fetch of its word.
ghost use Rattle.std.specs.Prelude.{◌≡◌, ◌<◌, List, length};
ghost use Rattle.board_config.specs.declared.board.Range.{Range};
ghost use Rattle.rv32im.specs.Memory.{Memory};
ghost use Rattle.flat_machine.specs.Known.{IsKnown, AreKnown};

use crate::accesses::{load_bytes, set_value, store_bytes};
use crate::events::FlatAccess;
use crate::known::Known;
use crate::known_table::{forget, forget_all, learn};
use crate::machine::Flat;
use crate::mapping::{has_access, range_around, reach_of};
use crate::naming::op_of;
use paged_store::ByteStore;
use rv32im::{A7, CALL_READ, Instr, LoadKind, StoreKind, decode};
use std::alloc::AllocError;

impl<S: ByteStore> Flat<S> {
    ghost use Rattle.std.specs.Prelude.{◌≡◌, ◌<◌, ◌≤◌, ℕ, List, length, IfOk, OnOk, OnErr};
    ghost use Rattle.rv32im.specs.{declared.instructions.Instr.{Instr}, Table.{IsInRange}};
    ghost use Rattle.flat_machine.specs.{declared.events.FlatOutcome.{FlatOutcome}, declared.known.Known.{Known}, Mapping.{can_access}, Calls.{call}, Step.{performed, accessed}, Known.{AreKnown, TellsStep, Fetched}, Machine.{state_of}};

    /// Takes one step, and keeps its instruction. Tells of its access.
    #[cold]
    #[inline(never)]
    pub(super) fn step_far<const SLOTS: usize>(
        &mut self,
        known: &mut [Known],
    ) -> Result<Option<FlatAccess>, AllocError>
        requires some { 0 < SLOTS }
        requires len { length known.old ≡ SLOTS }
        requires known { let s = state_of S.byte_at self.old in AreKnown s.map s.hart.mem known.old }
        requires going { (state_of S.byte_at self.old).outcome ≡ FlatOutcome.GoesOn }
        ensures step { IfOk result (λ access. TellsStep (state_of S.byte_at self.old) access
            (state_of S.byte_at self.new)) }
        ensures known { OnOk result (let t = state_of S.byte_at self.new in
            AreKnown t.map t.hart.mem known.new) }
        ensures err { OnErr result (state_of S.byte_at self.new ≡ state_of S.byte_at self.old) }
    {
        match self.fetch::<SLOTS>(known) {
            Some(i) => {
                let access = self.access_of(i);
                self.perform_far::<SLOTS>(i, known)?;
                Ok(access)
            }
            None => {
                self.trap();
                Ok(None)
            }
        }
    }

    /// Fetches and decodes the word at the pc, and keeps what it means.
    fn fetch<const SLOTS: usize>(&mut self, known: &mut [Known]) -> Option<Instr>
        requires some { 0 < SLOTS }
        requires len { length known.old ≡ SLOTS }
        requires known { let s = state_of S.byte_at self.old in AreKnown s.map s.hart.mem known.old }
        requires going { (state_of S.byte_at self.old).outcome ≡ FlatOutcome.GoesOn }
        ensures told { Fetched (state_of S.byte_at self.old) result }
        ensures known { let s = state_of S.byte_at self.old in AreKnown s.map s.hart.mem known.new }
        ensures state { state_of S.byte_at self.new ≡ state_of S.byte_at self.old }
    {
        if !self.can_fetch() {
            return None;
        }
        match decode(self.store.get_word(self.pc)) {
            Some(i) => {
                keep::<SLOTS>(known, self.pc, i);
                Some(i)
            }
            None => None,
        }
    }

    /// Keeps the instruction at an address, if there is one.
    #[cold]
    #[inline(never)]
    pub(super) fn learn_at<const SLOTS: usize>(&self, at: u32, known: &mut [Known])
        requires some { 0 < SLOTS }
        requires len { length known.old ≡ SLOTS }
        requires known { let s = state_of S.byte_at self.now in AreKnown s.map s.hart.mem known.old }
        ensures { let s = state_of S.byte_at self.now in AreKnown s.map s.hart.mem known.new }
    {
        if !has_access(&self.map, at, 4) {
            return;
        }
        if let Some(i) = decode(self.store.get_word(at)) {
            keep::<SLOTS>(known, at, i);
        }
    }

    /// Performs an instruction, and keeps the table right.
    #[tactic(auto, using(crate::proofs::Tables::quiet_kept))]
    fn perform_far<const SLOTS: usize>(
        &mut self,
        i: Instr,
        known: &mut [Known],
    ) -> Result<(), AllocError>
        requires some { 0 < SLOTS }
        requires len { length known.old ≡ SLOTS }
        requires known { let s = state_of S.byte_at self.old in AreKnown s.map s.hart.mem known.old }
        requires going { (state_of S.byte_at self.old).outcome ≡ FlatOutcome.GoesOn }
        requires in_range { IsInRange i }
        ensures state { OnOk result (state_of S.byte_at self.new ≡ performed (state_of S.byte_at self.old) i) }
        ensures known { OnOk result (let t = state_of S.byte_at self.new in
            AreKnown t.map t.hart.mem known.new) }
        ensures err { OnErr result (state_of S.byte_at self.new ≡ state_of S.byte_at self.old) }
    {
        match i {
            Instr::Lui { rd, imm } => self.lui(rd, imm),
            Instr::Auipc { rd, imm } => self.auipc(rd, imm),
            Instr::Jal { rd, off } => self.jal(rd, off),
            Instr::Jalr { rd, rs1, imm } => self.jalr(rd, rs1, imm),
            Instr::Branch {
                kind,
                rs1,
                rs2,
                off,
            } => self.branch(kind, rs1, rs2, off),
            Instr::Load { kind, rd, rs1, imm } => self.load_far(kind, rd, rs1, imm),
            Instr::Store {
                kind,
                rs1,
                rs2,
                imm,
            } => return self.store_far::<SLOTS>(kind, rs1, rs2, imm, known),
            Instr::OpImm { kind, rd, rs1, imm } => self.op_imm(kind, rd, rs1, imm),
            Instr::OpReg { kind, rd, rs1, rs2 } => self.op_reg(kind, rd, rs1, rs2),
            Instr::Fence { .. } | Instr::FenceI { .. } => self.pc = self.pc.wrapping_add(4),
            Instr::Ecall => return self.call_knowing(known),
            Instr::Ebreak => self.trap(),
        }
        Ok(())
    }

    /// Does the call that the registers name, and keeps the table right.
    // A call of its own, since few steps are calls.
    #[cold]
    #[inline(never)]
    fn call_knowing(&mut self, known: &mut [Known]) -> Result<(), AllocError>
        requires known { let s = state_of S.byte_at self.old in AreKnown s.map s.hart.mem known.old }
        ensures state { OnOk result (state_of S.byte_at self.new
            ≡ call (state_of S.byte_at self.old)) }
        ensures known { OnOk result (let t = state_of S.byte_at self.new in
            AreKnown t.map t.hart.mem known.new) }
        ensures err { OnErr result (state_of S.byte_at self.new ≡ state_of S.byte_at self.old) }
    {
        if self.register(A7) == CALL_READ {
            self.call()?;
            forget_all(known);
            return Ok(());
        }
        self.call()
    }

    /// A load from any address.
    #[cold]
    #[inline(never)]
    fn load_far(&mut self, kind: LoadKind, rd: u8, rs1: u8, imm: i32)
        requires rd { rd < 32 }
        requires rs1 { rs1 < 32 }
        ensures { state_of S.byte_at self.new ≡ performed (state_of S.byte_at self.old) (Instr.Load kind rd rs1 imm) }
    {
        let at = self.register(rs1).wrapping_add_signed(imm);
        let _ = self.load(kind, rd, rs1, imm);
        self.go_near(at);
    }

    /// A store at any address.
    #[cold]
    #[inline(never)]
    fn store_far<const SLOTS: usize>(
        &mut self,
        kind: StoreKind,
        rs1: u8,
        rs2: u8,
        imm: i32,
        known: &mut [Known],
    ) -> Result<(), AllocError>
        requires rs1 { rs1 < 32 }
        requires rs2 { rs2 < 32 }
        requires some { 0 < SLOTS }
        requires len { length known.old ≡ SLOTS }
        requires known { let s = state_of S.byte_at self.old in AreKnown s.map s.hart.mem known.old }
        ensures state { OnOk result (state_of S.byte_at self.new ≡ performed (state_of S.byte_at self.old) (Instr.Store kind rs1 rs2 imm)) }
        ensures known { OnOk result (let t = state_of S.byte_at self.new in
            AreKnown t.map t.hart.mem known.new) }
        ensures err { OnErr result (state_of S.byte_at self.new ≡ state_of S.byte_at self.old) }
    {
        let at = self.register(rs1).wrapping_add_signed(imm);
        self.store_anywhere::<SLOTS>(kind, rs1, rs2, imm, known)?;
        self.go_near(at);
        Ok(())
    }

    /// A store at any address, whose range is not kept.
    fn store_anywhere<const SLOTS: usize>(
        &mut self,
        kind: StoreKind,
        rs1: u8,
        rs2: u8,
        imm: i32,
        known: &mut [Known],
    ) -> Result<(), AllocError>
        requires rs1 { rs1 < 32 }
        requires rs2 { rs2 < 32 }
        requires some { 0 < SLOTS }
        requires len { length known.old ≡ SLOTS }
        requires known { let s = state_of S.byte_at self.old in AreKnown s.map s.hart.mem known.old }
        ensures state { OnOk result (state_of S.byte_at self.new ≡ performed (state_of S.byte_at self.old) (Instr.Store kind rs1 rs2 imm)) }
        ensures known { OnOk result (let t = state_of S.byte_at self.new in
            AreKnown t.map t.hart.mem known.new) }
        ensures err { OnErr result (state_of S.byte_at self.new ≡ state_of S.byte_at self.old) }
    {
        let at = self.register(rs1).wrapping_add_signed(imm);
        if !has_access(&self.map, at, store_bytes(kind)) {
            self.trap();
            return Ok(());
        }
        let value = self.register(rs2);
        set_value(&mut self.store, kind, at, value)?;
        forget::<SLOTS>(known, at);
        self.pc = self.pc.wrapping_add(4);
        Ok(())
    }

    /// The access of an instruction: that of a load or a store that does not trap.
    fn access_of(&self, i: Instr) -> Option<FlatAccess>
        requires { IsInRange i }
        ensures { result ≡ accessed (state_of S.byte_at self.now) i }
    {
        match i {
            Instr::Load { kind, rs1, imm, .. } => self.load_access(kind, rs1, imm),
            Instr::Store { kind, rs1, imm, .. } => self.store_access(kind, rs1, imm),
            Instr::Lui { .. }
            | Instr::Auipc { .. }
            | Instr::Jal { .. }
            | Instr::Jalr { .. }
            | Instr::Branch { .. }
            | Instr::OpImm { .. }
            | Instr::OpReg { .. }
            | Instr::Fence { .. }
            | Instr::FenceI { .. }
            | Instr::Ecall
            | Instr::Ebreak => None,
        }
    }

    /// That of a load.
    #[inline(always)]
    pub(super) fn load_access(&self, kind: LoadKind, rs1: u8, imm: i32) -> Option<FlatAccess>
        requires { rs1 < 32 }
        ensures { (rd : ℕ) → result
            ≡ accessed (state_of S.byte_at self.now) (Instr.Load kind rd rs1 imm) }
    {
        let at = self.register(rs1).wrapping_add_signed(imm);
        if !self.is_mapped(at, load_bytes(kind)) {
            return None;
        }
        Some(FlatAccess { at, write: false })
    }

    /// That of a store.
    #[inline(always)]
    pub(super) fn store_access(&self, kind: StoreKind, rs1: u8, imm: i32) -> Option<FlatAccess>
        requires { rs1 < 32 }
        ensures { (rs2 : ℕ) → result
            ≡ accessed (state_of S.byte_at self.now) (Instr.Store kind rs1 rs2 imm) }
    {
        let at = self.register(rs1).wrapping_add_signed(imm);
        if !self.is_mapped(at, store_bytes(kind)) {
            return None;
        }
        Some(FlatAccess { at, write: true })
    }

    /// Whether an access of `width` bytes is aligned and mapped. Most are near the last one.
    #[inline(always)]
    fn is_mapped(&self, at: u32, width: u32) -> bool
        requires some { 1 ≤ width }
        requires few { width ≤ 4 }
        ensures { result ≡ can_access (state_of S.byte_at self.now).map at width }
    {
        self.is_near(at, width) || has_access(&self.map, at, width)
    }

    /// Keeps the range that a far address is in, if there is one.
    fn go_near(&mut self, at: u32)
        ensures state { state_of S.byte_at self.new ≡ state_of S.byte_at self.old }
        ensures known { (known : List Known) → let s = state_of S.byte_at self.old in
            let t = state_of S.byte_at self.new in
            AreKnown s.map s.hart.mem known → AreKnown t.map t.hart.mem known }
    {
        if let Some(range) = range_around(&self.map, at, 4) {
            self.other = self.near;
            self.near = reach_of(&range);
        }
    }
}

/// Keeps an instruction, if it has a name.
fn keep<const SLOTS: usize>(known: &mut [Known], at: u32, i: Instr)
    requires some { 0 < SLOTS }
    requires len { length known.old ≡ SLOTS }
    ensures { (map : List Range) (mem : Memory) → IsKnown map mem at i
        → AreKnown map mem known.old → AreKnown map mem known.new }
{
    if let Some(op) = op_of(i) {
        learn::<SLOTS>(known, at, op);
    }
}
