ghost use Rattle.std.specs.Prelude.{◌≡◌, ◌+◌, ◌<◌, ◌≤◌, ℕ, length};
ghost use Rattle.cell_values.specs.{Objects.{IsOfGraph}, Cells.{IsCellOfGraph}, Stored.{cells_of}};
ghost use Rattle.object_machine.specs.{Units.{unit_in}, Registers.{registers_of}, OfGraph.{values_prop, cells_prop}};

mod calling;
mod loading;
mod moving;
mod named;
mod performing;
mod places;
mod registers;
mod storing;

use crate::events::{Access, Event, Outcome};
use crate::footprints::Footprint;
use crate::register_file::RegisterFile;
use crate::starting::first_memory;
use crate::tables::Tables;
use crate::tabling::tables_of;
use crate::units::Prepared;
use board_config::Board;
use cell_values::CellStore;
use code_blocks::Code;
use elf_reader::ElfView;
use object_graph::Graph;
use std::alloc::{AllocError, Global};

/// A machine that runs a program unit by unit, and whose objects that may move have no addresses.
#[derive(Drop)]
pub struct Source {
    pub(crate) tables: Tables,
    // the cells of fixed memory and of objects, these where their homes are
    pub(crate) memory: CellStore,
    // the place of the next unit
    pub(crate) place: usize,
    pub(crate) pc: u32,
    pub(crate) regs: RegisterFile,
    pub(crate) input: Vec<u8>,
    // how many bytes of the input were read
    pub(crate) consumed: usize,
    pub(crate) output: Vec<u8>,
    pub(crate) outcome: Outcome,
    // the access of the last step of a unit without a name
    pub(crate) other_access: Option<Access>,
    ghost inside: { place < length tables.units.items },
    ghost at: { (unit_in tables.units.items place).at ≡ pc },
    ghost below: { pc + 4 < 4294967296 },
    ghost values: { (k : ℕ) → IsOfGraph tables.graph (registers_of regs k) } by { values_prop tables.graph (registers_of regs) },
    ghost cells: { (a : ℕ) → IsCellOfGraph tables.graph (cells_of memory a) } by { cells_prop tables.graph (cells_of memory) },
    ghost consumed_of_input: { consumed ≤ length input.items },
}

impl Source {
    ghost use Rattle.std.specs.Prelude.{IfOk, true};
    ghost use Rattle.elf_reader.specs.File.{plain_view};
    ghost use Rattle.board_config.specs.Board.{IsLawful};
    ghost use Rattle.loaded_file.specs.Read.{IsRead};
    ghost use Rattle.object_graph.specs.Graphs.{IsGraph};
    ghost use Rattle.code_blocks.specs.{Leaders.{is_leader}, Blocks.{IsCode}};
    ghost use Rattle.cell_values.specs.Objects.{IsGrain};
    ghost use Rattle.object_machine.specs.{Program.{program_of}, Start.{start_of}, Machine.{state_of, IsProgram}};

    /// A machine at the entry of a file, on a board. Its program reads `input`.
    ///
    /// It fails only where no memory was left.
    pub fn new(
        alloc: Global,
        view: &ElfView,
        graph: &Graph,
        code: &Code,
        board: &Board,
        input: &[u8],
    ) -> Result<Source, AllocError>
        requires read { IsRead view.now }
        requires graph { IsGraph (plain_view view.now) board.now graph.now }
        requires code { IsCode (plain_view view.now) code.now }
        requires lawful { IsLawful board.now }
        requires grain { IsGrain graph.now.grain }
        requires entry { is_leader (plain_view view.now) view.now.entry ≡ true }
        ensures program { IfOk result (IsProgram (program_of (plain_view view.now) board.now graph.now)) }
        ensures start { let p = program_of (plain_view view.now) board.now graph.now in
            IfOk result (λ m. state_of p m ≡ start_of (plain_view view.now) p graph.now input.now) }
    {
        let tables = tables_of(alloc, view, board, graph, code)?;
        let memory = first_memory(alloc, &view.segments, &graph.data_words)?;
        let place = tables.place_of_block(u64::from(view.entry));
        Ok(Source {
            tables,
            memory,
            place,
            pc: view.entry,
            regs: RegisterFile::new(),
            input: Vec::from_slice(alloc, input)?,
            consumed: 0,
            output: Vec::new(alloc),
            outcome: Outcome::GoesOn,
            other_access: None,
        })
    }
}

impl Source {
    ghost use Rattle.std.specs.Prelude.{List, Option, MatchBool, IfOk, OnOk, OnErr};
    ghost use Rattle.std.specs.List.Sorted.{IsStrictlyIncreasing};
    ghost use Rattle.code_blocks.specs.Early.{has};
    ghost use Rattle.rv32im.specs.declared.instructions.Instr.{Instr};
    ghost use Rattle.object_machine.specs.{Program.{Program}, Step.{Step, Reads}, Footprints.{footprint_of}, Numbering.{IsNumberIn}, Runs.{Steps, HasEnded}, Machine.{state_of, seen_state, here, IsProgram, StepsFrom, Becomes, when_going}};

    // All that a step does is inlined in the loops that take steps, since it has several callers by now, and a call passes
    // values and events by way of the stack; what is rare stays in cold functions.

    /// Takes one step. A machine that has ended stays as it is, and tells the same outcome again.
    ///
    /// On an error, which comes only where no memory was left, the step was not taken.
    #[inline(always)]
    pub fn step(&mut self) -> Result<Event, AllocError>
        ensures step { IfOk result (λ event. (p : Program) → IsProgram p self.old → IsProgram p self.new × Step p (state_of p self.old) event (state_of p self.new)) }
        ensures err { OnErr result ((p : Program) → IsProgram p self.old → IsProgram p self.new × (state_of p self.new ≡ state_of p self.old)) }
    {
        match self.step_in::<0>() {
            Ok(event) => Ok(event),
            Err(error) => Err(error),
        }
    }

    /// Takes one step, as `step` does. What it does is large, so it is inlined only where nothing else calls it: a loop that
    /// names a number of its own has a copy for itself.
    #[inline(always)]
    pub fn step_in<const LOOP: u8>(&mut self) -> Result<Event, AllocError>
        ensures step { IfOk result (λ event. (p : Program) → IsProgram p self.old → IsProgram p self.new × Step p (state_of p self.old) event (state_of p self.new)) }
        ensures err { OnErr result ((p : Program) → IsProgram p self.old → IsProgram p self.new × (state_of p self.new ≡ state_of p self.old)) }
    {
        match self.step_seen::<LOOP>() {
            Ok(event) => Ok(event),
            Err(error) => Err(error),
        }
    }

    /// Takes one step of a machine that goes on, as `step_in` does.
    #[inline(always)]
    pub fn step_going<const LOOP: u8>(&mut self) -> Result<Event, AllocError>
        requires going { self.old.outcome ≡ Outcome.GoesOn }
        ensures step { IfOk result (λ event. (p : Program) → IsProgram p self.old → IsProgram p self.new × Step p (state_of p self.old) event (state_of p self.new)) }
        ensures err { OnErr result ((p : Program) → IsProgram p self.old → IsProgram p self.new × (state_of p self.new ≡ state_of p self.old)) }
    {
        match self.step_on::<LOOP>() {
            Ok(event) => Ok(event),
            Err(error) => Err(error),
        }
    }

    /// Takes one step, as the tables tell it.
    #[inline(always)]
    fn step_seen<const LOOP: u8>(&mut self) -> Result<Event, AllocError>
        ensures step { IfOk result (λ event. StepsFrom self.old.outcome self.old event (seen_state self.new)) }
        ensures tables { self.new.tables ≡ self.old.tables }
        ensures err { OnErr result (seen_state self.new ≡ seen_state self.old) }
    {
        if self.has_ended() {
            return Ok(self.event(self.pc, None));
        }
        match self.step_on::<LOOP>() {
            Ok(event) => Ok(event),
            Err(error) => Err(error),
        }
    }

    /// Takes one step of a machine that goes on, as the tables tell it.
    #[inline(always)]
    #[tactic(auto, using(crate::proofs::NamedLemmas::steps_by_name, crate::proofs::NamedLemmas::steps_still, crate::proofs::NamedLemmas::goes_still))]
    fn step_on<const LOOP: u8>(&mut self) -> Result<Event, AllocError>
        requires going { self.old.outcome ≡ Outcome.GoesOn }
        ensures step { IfOk result (λ event. StepsFrom self.old.outcome self.old event (seen_state self.new)) }
        ensures tables { self.new.tables ≡ self.old.tables }
        ensures err { OnErr result (seen_state self.new ≡ seen_state self.old) }
    {
        let at = self.pc;
        let op = self.op();
        match self.perform_named::<LOOP>(op) {
            Some(access) => Ok(Event {
                at,
                outcome: Outcome::GoesOn,
                access,
            }),
            None => match self.step_unnamed() {
                Ok(event) => Ok(event),
                Err(error) => Err(error),
            },
        }
    }

    /// Takes a step of any unit.
    #[inline(always)]
    fn step_unnamed(&mut self) -> Result<Event, AllocError>
        requires going { self.old.outcome ≡ Outcome.GoesOn }
        ensures step { IfOk result (λ event. StepsFrom self.old.outcome self.old event (seen_state self.new)) }
        ensures tables { self.new.tables ≡ self.old.tables }
        ensures err { OnErr result (seen_state self.new ≡ seen_state self.old) }
    {
        let at = self.pc;
        match self.step_other() {
            Ok(()) => Ok(Event {
                at,
                outcome: self.outcome,
                access: self.other_access,
            }),
            Err(error) => Err(error),
        }
    }

    /// The same. It leaves the access in the machine, since a caller would make room for one that is returned in each step.
    #[cold]
    #[inline(never)]
    fn step_other(&mut self) -> Result<(), AllocError>
        requires going { self.old.outcome ≡ Outcome.GoesOn }
        ensures step { OnOk result (StepsFrom self.old.outcome self.old (record { at = self.old.pc; outcome = self.new.outcome; access = self.new.other_access }) (seen_state self.new)) }
        ensures tables { self.new.tables ≡ self.old.tables }
        ensures err { OnErr result (seen_state self.new ≡ seen_state self.old) }
    {
        let unit = self.tables.units[self.place];
        let access = self.perform(&unit)?;
        self.other_access = self.told(access);
        Ok(())
    }

    /// Takes `n` steps and tells what has become of the machine. Once it has ended, the steps that are left take
    /// no time, since they change nothing.
    ///
    /// On an error, which comes only where no memory was left, fewer steps were taken, each of them whole.
    pub fn run(&mut self, n: u64) -> Result<Outcome, AllocError>
        ensures steps { OnOk result ((p : Program) → IsProgram p self.old → IsProgram p self.new × Steps p n (state_of p self.old) (state_of p self.new)) }
        ensures outcome { IfOk result (λ outcome. outcome ≡ self.new.outcome) }
        ensures err { OnErr result ((p : Program) → IsProgram p self.old → IsProgram p self.new × ((k : ℕ) × ((k < n) × Steps p k (state_of p self.old) (state_of p self.new)))) }
    {
        for _ in 0..n {
            if self.has_ended() {
                break;
            }
            self.step()?;
        }
        Ok(self.outcome)
    }

    /// The bytes that the program wrote so far.
    pub fn output(&self) -> &[u8]
        ensures { (p : Program) → result.now ≡ (state_of p self.now).output }
    {
        &self.output
    }

    /// The address of the next unit (pc).
    #[inline(always)]
    pub fn at(&self) -> u32
        ensures { (p : Program) → result ≡ (state_of p self.now).pc }
    {
        self.pc
    }

    /// The number of the block that begins with the next unit, if one does: block 0 has the lowest address, and so on.
    #[inline(always)]
    pub fn block(&self) -> Option<u32>
        ensures { (p : Program) (starts : List ℕ) → IsProgram p self.now → IsStrictlyIncreasing starts → ((a : ℕ) → p.is_block a ≡ has starts a) → IsNumberIn starts (state_of p self.now).pc result }
    {
        self.tables.numbers[self.place]
    }

    /// What the next unit asks of memory: the words that are fetched, and whether it is a load or a store. A
    /// machine that has ended tells it of the unit that it ended at.
    pub fn footprint(&self) -> Footprint
        ensures { (p : Program) → IsProgram p self.now → (read : Option Instr) × (Reads (p.word (state_of p self.now).pc) read × (result ≡ footprint_of p (state_of p self.now).pc read)) }
    {
        self.present().footprint()
    }

    /// The next unit.
    fn present(&self) -> Prepared
        ensures { result ≡ here self.now }
    {
        self.tables.units[self.place]
    }

    /// What has become of the machine.
    #[inline(always)]
    pub fn outcome(&self) -> Outcome
        ensures { (p : Program) → result ≡ (state_of p self.now).outcome }
    {
        self.outcome
    }

    /// Whether the machine goes on no more.
    #[inline(always)]
    fn has_ended(&self) -> bool
        ensures { MatchBool result (HasEnded self.now.outcome) (self.now.outcome ≡ Outcome.GoesOn) }
    {
        match self.outcome {
            Outcome::GoesOn => false,
            Outcome::Exited(_) | Outcome::Trapped { .. } | Outcome::AddressFault { .. } => true,
        }
    }

    /// What a step that began at `at` tells.
    #[inline(always)]
    fn event(&self, at: u32, access: Option<Access>) -> Event
        ensures { result ≡ record { at = at; outcome = self.now.outcome; access = when_going self.now.outcome access } }
    {
        Event {
            at,
            outcome: self.outcome,
            access: self.told(access),
        }
    }

    /// The access that a step tells of.
    #[inline(always)]
    fn told(&self, access: Option<Access>) -> Option<Access>
        ensures { result ≡ when_going self.now.outcome access }
    {
        match self.outcome {
            Outcome::GoesOn => access,
            _ => None,
        }
    }
}
