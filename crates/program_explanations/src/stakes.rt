ghost use Rattle.std.specs.Prelude.{◌≡◌, length};
ghost use Rattle.flat_machine.specs.{Known.{AreKnown}, Machine.{state_of}};

use crate::choice::Chosen;
use crate::comparing::flat_machine;
use crate::energies::product;
use crate::subject::{RunEnd, Subject};
use board_config::Prices;
use elf_reader::ElfView;
use explanation_texts::Stake;
use flat_machine::{Flat, Known};
use object_machine::Outcome;
use paged_store::ByteStore;
use std::alloc::{AllocError, Global};

/// The most steps that are taken to tell what is at stake: that of a longer run is reckoned from so many.
const MOST_STEPS: u64 = 0x40_0000;

/// A section, and the accesses of a run to its bytes.
#[derive(Clone, Copy)]
struct CountedSection {
    number: usize,
    addr: u32,
    size: u32,
    reads: u64,
    writes: u64,
}

/// What is at stake in a section.
#[derive(Clone, Copy)]
pub(crate) struct SectionStake {
    /// The number of the section.
    pub(crate) section: usize,
    /// What its reads and writes would save.
    pub(crate) stake: Stake,
}

/// What the reads and writes in each of some sections would save in the scratchpad; nothing where no run was measured. The file
/// is run as it is, once for all of them, and not at all where there are none.
pub(crate) fn stakes_in(
    subject: &Subject,
    chosen: Option<&Chosen>,
    sections: &[usize],
) -> Result<Vec<SectionStake>, AllocError> {
    let inputs = &subject.inputs;
    let alloc = inputs.alloc;
    let (Some(chosen), Some(input), Some(end)) = (chosen, inputs.input, inputs.end) else {
        return Ok(Vec::new(alloc));
    };
    let mut counted = uncounted(alloc, &subject.analysis.view, sections)?;
    if counted.is_empty() {
        return Ok(Vec::new(alloc));
    }
    let Some(mut machine) = flat_machine(alloc, inputs.file, subject.board, input)? else {
        return Ok(Vec::new(alloc));
    };
    let first_steps = count_accesses(&mut machine, &mut counted, &end)?;
    stakes_of(
        alloc,
        chosen,
        &subject.board.prices,
        &counted,
        Reckoned {
            first_steps,
            steps: end.steps,
        },
    )
}

/// From what part of a run it is reckoned what is at stake.
#[derive(Clone, Copy)]
struct Reckoned {
    /// How many of its first steps were taken, if not all.
    first_steps: Option<u64>,
    /// How many it has.
    steps: u64,
}

impl Reckoned {
    /// The energy of the whole run, if what was taken of it has this one.
    fn whole(&self, energy: u128) -> u128 {
        let Some(first) = self.first_steps else {
            return energy;
        };
        let all = energy.saturating_mul(u128::from(self.steps.max(first)));
        all.checked_div(u128::from(first)).unwrap_or(energy)
    }
}

/// What is at stake in sections of which accesses were counted.
fn stakes_of(
    alloc: Global,
    chosen: &Chosen,
    prices: &Prices,
    counted: &[CountedSection],
    reckoned: Reckoned,
) -> Result<Vec<SectionStake>, AllocError> {
    let mut stakes = Vec::new(alloc);
    for section in counted {
        let energy = reckoned.whole(section.saved(prices));
        stakes.push(SectionStake {
            section: section.number,
            stake: Stake {
                thousandths: chosen.thousandths(energy),
                first_steps: reckoned.first_steps,
            },
        })?;
    }
    Ok(stakes)
}

/// Sections of a file, without accesses.
fn uncounted(
    alloc: Global,
    view: &ElfView,
    sections: &[usize],
) -> Result<Vec<CountedSection>, AllocError> {
    let mut counted = Vec::new(alloc);
    for number in sections {
        if let Some(section) = view.sections.get(*number) {
            counted.push(CountedSection {
                number: *number,
                addr: section.addr,
                size: section.size,
                reads: 0,
                writes: 0,
            })?;
        }
    }
    Ok(counted)
}

/// Runs a machine as far as the measured run went, or for the most steps that are taken, and counts the accesses to some sections.
/// Tells how many steps it took, if the measured run went on behind them.
fn count_accesses<S: ByteStore>(
    machine: &mut Flat<S>,
    counted: &mut Vec<CountedSection>,
    end: &RunEnd,
) -> Result<Option<u64>, AllocError> {
    // A call of two words is one step of the measured run.
    let all = match end.outcome {
        Outcome::GoesOn => end.steps,
        _ => end.steps.saturating_mul(2),
    };
    let mut known = machine.nothing_known()?;
    take_steps(machine, counted, all.min(MOST_STEPS), &mut known)?;
    Ok(if all > MOST_STEPS && !machine.has_ended() {
        Some(MOST_STEPS)
    } else {
        None
    })
}

/// Takes so many steps, or fewer where the machine ends, and counts the accesses to some sections, over a table of the
/// instructions that were decoded so far.
fn take_steps<S: ByteStore>(
    machine: &mut Flat<S>,
    counted: &mut Vec<CountedSection>,
    most: u64,
    known: &mut [Known],
) -> Result<(), AllocError>
    requires len { length known.old ≡ 4096 }
    requires known { let s = state_of S.byte_at machine.old in AreKnown s.map s.hart.mem known.old }
{
    for _ in 0..most {
        if machine.has_ended() {
            break;
        }
        if let Some(access) = machine.step_telling(known)? {
            count(counted, access.at, access.write);
        }
    }
    Ok(())
}

/// Counts an access at an address, if that lies in one of these sections.
fn count(counted: &mut Vec<CountedSection>, at: u32, write: bool) {
    for section in counted.iter_mut() {
        if at.wrapping_sub(section.addr) < section.size {
            section.add(write);
        }
    }
}

impl CountedSection {
    /// One more read or write.
    fn add(&mut self, write: bool) {
        let count = if write {
            &mut self.writes
        } else {
            &mut self.reads
        };
        *count = count.saturating_add(1);
    }

    /// What its accesses would cost less in the scratchpad, in price units.
    fn saved(&self, prices: &Prices) -> u128 {
        let read = prices.main_read.saturating_sub(prices.spm_read);
        let write = prices.main_write.saturating_sub(prices.spm_write);
        product(read, self.reads).saturating_add(product(write, self.writes))
    }
}
