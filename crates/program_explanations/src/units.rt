use code_blocks::{Code, Unit};
use explanation_texts::Origin;
use object_graph::{Graph, Site};
use rv32im::Instr;
use std::alloc::{AllocError, Global};

/// A low part of an address that is relative to the pc (PCREL_LO12).
#[derive(Clone, Copy)]
pub(crate) struct PairedLow {
    /// The address of its instruction.
    pub(crate) at: u32,
    /// The address of the AUIPC that its relocation names.
    pub(crate) auipc: u32,
}

/// A unit of code.
#[derive(Clone, Copy)]
pub(crate) struct TracedUnit {
    pub(crate) instr: Option<Instr>,
    pub(crate) words: u32,
    /// The site of its first word.
    pub(crate) site: Option<Site>,
    /// The address of the AUIPC that its relocation names, where it is relative to the pc.
    pub(crate) named: Option<u32>,
}

impl TracedUnit {
    /// The origin of its base: at a site that of the site, unless nothing is known of the base.
    pub(crate) fn origin_at_site(&self, base: Option<Origin>) -> Option<Origin> {
        let mut origin = base?;
        if let Some(site) = self.site {
            origin.object = site.object;
        }
        Some(origin)
    }

    /// The AUIPC that its relocation names, where it is the low part of an address in an object that may move.
    pub(crate) fn named_at_site(&self) -> Option<u32> {
        self.site?;
        self.named
    }
}

/// The units of a program by address.
#[derive(Drop)]
pub(crate) struct UnitTable {
    base: u32,
    units: Vec<Option<TracedUnit>>,
}

impl UnitTable {
    /// The units of a program.
    pub(crate) fn new(alloc: Global, code: &Code, graph: &Graph) -> Result<UnitTable, AllocError> {
        let (base, words) = words_of(code).unwrap_or((0, 0));
        let mut table = UnitTable {
            base,
            units: vec![in alloc; None; words]?,
        };
        for block in &code.blocks {
            table.put_units(&block.units);
        }
        table.put_sites(&graph.sites);
        Ok(table)
    }

    fn put_units(&mut self, units: &[Unit]) {
        for unit in units {
            let place = self.place(unit.at);
            if let Some(slot) = self.units.get_mut(place) {
                *slot = Some(TracedUnit {
                    instr: unit.instr,
                    words: unit.words,
                    site: None,
                    named: None,
                });
            }
        }
    }

    fn put_sites(&mut self, sites: &[Site]) {
        for site in sites {
            let place = self.place(site.at);
            if let Some(Some(unit)) = self.units.get_mut(place) {
                unit.site = Some(*site);
            }
        }
    }

    /// Notes which AUIPC each of these low parts belongs to: of several at one instruction that of the first counts.
    pub(crate) fn name_uppers(&mut self, lows: &[PairedLow]) {
        for low in lows {
            let place = self.place(low.at);
            if let Some(Some(unit)) = self.units.get_mut(place) {
                if unit.named.is_none() {
                    unit.named = Some(low.auipc);
                }
            }
        }
    }

    /// The unit at an address.
    pub(crate) fn unit_at(&self, at: u32) -> Option<TracedUnit> {
        match self.units.get(self.place(at)) {
            Some(unit) => *unit,
            None => None,
        }
    }

    fn place(&self, at: u32) -> usize {
        (at.wrapping_sub(self.base) / 4) as usize
    }
}

/// The address of the first block, and how many words there are from there to the last unit of the last block.
fn words_of(code: &Code) -> Option<(u32, usize)> {
    let base = code.blocks.first()?.start;
    let last = code.blocks.last()?.units.last()?.at;
    Some((base, (last.saturating_sub(base) / 4) as usize + 1))
}
