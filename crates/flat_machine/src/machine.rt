ghost use Rattle.std.specs.Prelude.{◌≡◌, ◌≤◌, length, slice_index};
ghost use Rattle.flat_machine.specs.{Mapping.{IsPart}, Reach.{IsMappedReach}};

mod calling;
mod far;
mod knowing;
mod near;
mod performing;
mod registers;

use crate::events::{FlatAccess, FlatEvent, FlatOutcome};
use crate::known::Known;
use crate::known_table::nothing_known;
use crate::loading::{lay_segments, mapped};
use crate::mapping::{has_access, is_inside, no_reach, range_around};
use crate::reach::Reach;
use board_config::{Board, Range};
use elf_reader::ElfView;
use paged_store::ByteStore;
use rv32im::decode;
use std::alloc::{AllocError, Global};

/// How many decoded instructions a run keeps: those of 256 KiB of code.
const RUN_SLOTS: usize = 65536;

/// An RV32IM machine with one hart, a flat memory and calls to read, write and exit.
///
/// Mapped are the ranges of its board. Its bytes are in a store of any kind.
#[derive(Drop)]
pub struct Flat<S> {
    map: Vec<Range>,
    store: S,
    pc: u32,
    regs: [u32; 32],
    input: Vec<u8>,
    // how many bytes of the input were read
    consumed: usize,
    output: Vec<u8>,
    outcome: FlatOutcome,
    // a range of the map, which the last fetch was inside: the next one mostly is, too
    code: Range,
    // where the last loads and stores were: the next one mostly is there, too. There are two, for a
    // program whose data stand in two ranges.
    near: Reach,
    other: Reach,
    ghost code_is_part: { IsPart code map.items },
    ghost near_is_mapped: { IsMappedReach near map.items },
    ghost other_is_mapped: { IsMappedReach other map.items },
    ghost consumed_of_input: { consumed ≤ length input.items },
    // so that x0 is read as the others are
    ghost zero: { slice_index regs 0 ≡ 0 },
}

impl<S: ByteStore + Drop> Flat<S> {
    ghost use Rattle.std.specs.Prelude.{IfOk};
    ghost use Rattle.rv32im.specs.Memory.{zeros};
    ghost use Rattle.elf_reader.specs.{File.{segments_of}, Loadable.{AreLoadable}};
    ghost use Rattle.board_config.specs.Board.{mapped_ranges};
    ghost use Rattle.flat_machine.specs.{Start.{start_of}, Machine.{state_of}};

    /// A machine on a board, at the entry of a file whose segments are loaded into an empty store.
    ///
    /// Its program reads `input`.
    pub fn new(
        alloc: Global,
        view: &ElfView,
        board: &Board,
        input: &[u8],
        mut store: S,
    ) -> Result<Flat<S>, AllocError>
        requires empty { S.byte_at store ≡ zeros }
        requires loadable { AreLoadable (segments_of view.now) }
        ensures { IfOk result (λ machine. state_of S.byte_at machine
            ≡ start_of view.now.entry (segments_of view.now) (mapped_ranges board.now) input.now) }
    {
        lay_segments(&mut store, &view.segments)?;
        Ok(Flat {
            map: mapped(alloc, board)?,
            store,
            pc: view.entry,
            regs: [0; 32],
            input: Vec::from_slice(alloc, input)?,
            consumed: 0,
            output: Vec::new(alloc),
            outcome: FlatOutcome::GoesOn,
            code: board.main,
            near: no_reach(),
            other: no_reach(),
        })
    }
}

impl<S: ByteStore> Flat<S> {
    ghost use Rattle.std.specs.Prelude.{ℕ, ◌<◌, vec_len, MatchBool, IfOk, OnOk, OnErr};
    ghost use Rattle.flat_machine.specs.{Mapping.{can_access}, Step.{Step}, Runs.{HasEnded, Steps}, Known.{AreKnown}, Machine.{state_of}};

    /// Takes one step. A machine that has ended stays as it is, and tells the same outcome again.
    ///
    /// On an error the step was not taken.
    // Inlined, so that `run` makes no event.
    #[inline(always)]
    pub fn step(&mut self) -> Result<FlatEvent, AllocError>
        ensures step { IfOk result (λ event. Step (state_of S.byte_at self.old) event
            (state_of S.byte_at self.new)) }
        ensures err { OnErr result (state_of S.byte_at self.new ≡ state_of S.byte_at self.old) }
    {
        let at = self.pc;
        if self.has_ended() {
            return Ok(self.event(at, 0, None));
        }
        if !self.can_fetch() {
            self.trap();
            return Ok(self.event(at, 0, None));
        }
        let word = self.store.get_word(at);
        let access = self.perform_read(decode(word))?;
        Ok(self.event(at, word, access))
    }

    /// Takes `n` steps and tells what has become of the machine. Once it has ended, the steps that
    /// are left take no time, since they change nothing.
    ///
    /// On an error fewer steps were taken, each of them whole.
    pub fn run(&mut self, n: u64) -> Result<FlatOutcome, AllocError>
        ensures steps { OnOk result (Steps n (state_of S.byte_at self.old)
            (state_of S.byte_at self.new)) }
        ensures outcome { IfOk result (λ outcome. outcome ≡ (state_of S.byte_at self.new).outcome) }
        ensures err { OnErr result ((k : ℕ) × ((k < n)
            × Steps k (state_of S.byte_at self.old) (state_of S.byte_at self.new))) }
    {
        // without a step no table is made, so that there is nothing to fail
        if n == 0 {
            return Ok(self.outcome);
        }
        let mut known = nothing_known(*self.output.allocator(), RUN_SLOTS)?;
        self.run_knowing::<RUN_SLOTS>(n, &mut known)?;
        Ok(self.outcome)
    }

    /// A table for steps of this machine, in which no decoded instruction is kept so far.
    pub fn nothing_known(&self) -> Result<Vec<Known>, AllocError>
        ensures len { IfOk result (λ known. vec_len known ≡ 4096) }
        ensures known { IfOk result (λ known. let s = state_of S.byte_at self.now in
            AreKnown s.map s.hart.mem known.items) }
    {
        nothing_known(*self.output.allocator(), 4096)
    }

    /// The bytes that the program wrote so far.
    pub fn output(&self) -> &[u8]
        ensures { result.now ≡ (state_of S.byte_at self.now).output }
    {
        &self.output
    }

    /// The address of the next instruction (pc).
    pub fn at(&self) -> u32
        ensures { result ≡ (state_of S.byte_at self.now).hart.pc }
    {
        self.pc
    }

    /// Whether the word at the pc is aligned and mapped.
    fn can_fetch(&mut self) -> bool
        ensures state { state_of S.byte_at self.new ≡ state_of S.byte_at self.old }
        ensures can { let s = state_of S.byte_at self.old in
            result ≡ can_access s.map s.hart.pc 4 }
    {
        if self.pc % 4 == 0 && is_inside(&self.code, self.pc, 4) {
            return true;
        }
        self.seek_code()
    }

    /// Whether the word at the pc is aligned and mapped, from all ranges. Keeps the one that it is in.
    #[cold]
    #[inline(never)]
    fn seek_code(&mut self) -> bool
        ensures state { state_of S.byte_at self.new ≡ state_of S.byte_at self.old }
        ensures can { let s = state_of S.byte_at self.old in
            result ≡ can_access s.map s.hart.pc 4 }
    {
        if let Some(range) = range_around(&self.map, self.pc, 4) {
            self.code = range;
        }
        has_access(&self.map, self.pc, 4)
    }

    /// What has become of the machine.
    #[inline(always)]
    pub fn outcome(&self) -> FlatOutcome
        ensures { result ≡ (state_of S.byte_at self.now).outcome }
    {
        self.outcome
    }

    /// Whether the machine goes on no more.
    // Inlined, since each step asks it, and `step` and `run` both do.
    #[inline(always)]
    pub fn has_ended(&self) -> bool
        ensures { MatchBool result (HasEnded (state_of S.byte_at self.now).outcome)
            ((state_of S.byte_at self.now).outcome ≡ FlatOutcome.GoesOn) }
    {
        match self.outcome {
            FlatOutcome::GoesOn => false,
            FlatOutcome::Exited(_) | FlatOutcome::Trapped { .. } => true,
        }
    }

    /// What a step that began at `at` tells.
    fn event(&self, at: u32, word: u32, access: Option<FlatAccess>) -> FlatEvent
        ensures { result
            ≡ record {
              at = at;
              outcome = (state_of S.byte_at self.now).outcome;
              word = word;
              access = access;
            } }
    {
        FlatEvent {
            at,
            outcome: self.outcome,
            word,
            access,
        }
    }
}
