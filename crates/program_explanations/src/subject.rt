ghost use Rattle.std.specs.Prelude.{ℕ, List};
ghost use Rattle.relink_core.specs.Choices.{IsAnalysisOf};

use board_config::Board;
use explanation_texts::{RawSegment, UncheckedFile};
use object_machine::{Outcome, Source};
use profile_runner::{Parts, Profile, ProfileFault, profile};
use relink_core::Analysis;
use shelf_io::NoProgress;
use std::alloc::{AllocError, Global};

/// How the run ended by which a command measured a program.
#[derive(Clone, Copy)]
pub struct RunEnd {
    /// How many steps it took.
    pub steps: u64,
    /// How the machine stood behind the last.
    pub outcome: Outcome,
    /// The address of the unit at which it stood then.
    pub at: u32,
}

/// What a command read, and what came of it.
#[derive(Clone, Copy)]
pub struct Inputs<'a> {
    pub alloc: Global,
    pub file: &'a [u8],
    /// The text of the board, where the command has one.
    pub board: Option<&'a [u8]>,
    /// Whether the command analyses the file for the board.
    pub analyses: bool,
    /// The input of the program, where the command measures it on one.
    pub input: Option<&'a [u8]>,
    /// The certificate of a choice, where the command makes or checks it for one run.
    pub certificate: Option<&'a [u8]>,
    /// The text that lists the inputs, where the command has one.
    pub mix: Option<&'a [u8]>,
    /// The inputs that it lists.
    pub listed: &'a [Vec<u8>],
    /// Whether something of the file moved, where it was relinked.
    pub moved: Option<bool>,
    /// The segment that was added, where something moved.
    pub added: Option<RawSegment>,
    /// A further ELF file that the command read.
    pub beside: Option<&'a [u8]>,
    /// Whether the command tells where the program's run is not paired.
    pub tells_pairing: bool,
    /// Whether it compared a result with the program, and the program went on.
    pub goes_on: bool,
    /// The status that the command has where its result is written.
    pub status: u8,
    /// How the run ended by which the command measured the program.
    pub end: Option<RunEnd>,
}

impl<'a> Inputs<'a> {
    /// The file, as it stands.
    pub fn unchecked(&self) -> UncheckedFile<'a> {
        UncheckedFile { bytes: self.file }
    }

    /// The text of the board; empty where the command has none.
    pub fn board_text(&self) -> &'a [u8] {
        self.board.unwrap_or_default()
    }

    /// An input of the program by its place, and the number of the line that lists it in a mix; `None` behind the last.
    pub(crate) fn input_at(&self, place: usize) -> Option<(&'a [u8], Option<u64>)> {
        match self.input {
            Some(input) if place == 0 => Some((input, None)),
            Some(_) => None,
            None => Some((self.listed.get(place)?.as_slice(), Some(place as u64 + 1))),
        }
    }
}

/// The program of a file that was analysed for a board, with what a command read and made.
#[derive(Drop)]
pub struct Subject<'a, 'b> {
    pub inputs: Inputs<'a>,
    pub board: &'b Board,
    pub analysis: &'b Analysis<'a>,
    pub ghost analysed: { ∥ ((file : List ℕ) × IsAnalysisOf file board.now analysis.now) ∥₁ },
}

impl Subject<'_, '_> {
    ghost use Rattle.std.specs.Prelude.{IfOk};
    ghost use Rattle.profile_runner.specs.Running.{HasStarted};

    /// A machine at the entry of the program, with an input.
    pub(crate) fn machine(&self, input: &[u8]) -> Result<Source, AllocError>
        ensures { IfOk result (HasStarted self.now.analysis.now.graph self.now.analysis.now.code) }
    {
        match Source::new(
            self.inputs.alloc,
            &self.analysis.view,
            &self.analysis.graph,
            &self.analysis.code,
            self.board,
            input,
        ) {
            Ok(source) => Ok(source),
            Err(error) => Err(error),
        }
    }

    /// What the program's run on an input does, counted. The error is the address fault of the run; `Memory` comes only where no
    /// memory was left.
    pub fn profile(&self, input: &[u8]) -> Result<Profile, ProfileFault> {
        let mut source = self.machine(input)?;
        let parts = Parts {
            code: &self.analysis.code,
            graph: &self.analysis.graph,
            regions: &self.analysis.regions,
        };
        profile(
            self.inputs.alloc,
            &mut source,
            &parts,
            self.board.steps,
            &NoProgress,
        )
    }
}
