use crate::subject::Subject;
use code_blocks::Code;
use placement_programme::VarName;
use profile_runner::Profile;

/// What a measured run costs with everything in one memory, in price units.
#[derive(Clone, Copy)]
pub(crate) struct Energies<'a> {
    code: &'a Code,
    profile: &'a Profile,
    /// The prices of that memory.
    fetch: u32,
    read: u32,
    write: u32,
}

impl<'a> Energies<'a> {
    /// With everything at home, or with everything in the scratchpad.
    pub(crate) fn of(
        subject: &'a Subject<'_, '_>,
        profile: &'a Profile,
        in_scratchpad: bool,
    ) -> Energies<'a> {
        let prices = &subject.board.prices;
        let (fetch, read, write) = if in_scratchpad {
            (prices.spm_fetch, prices.spm_read, prices.spm_write)
        } else {
            (prices.main_fetch, prices.main_read, prices.main_write)
        };
        Energies {
            code: &subject.analysis.code,
            profile,
            fetch,
            read,
            write,
        }
    }

    /// What is paid for an item while it may stand in the scratchpad: for the fetches of its blocks, or for the reads and writes
    /// of an object.
    pub(crate) fn of_item(&self, name: VarName) -> u128 {
        match name {
            VarName::StaticCode { first, last } | VarName::OverlayCode { first, last, .. } => {
                self.of_blocks(first as usize, last as usize)
            }
            VarName::StaticData { object } => self.of_object(object as usize),
            VarName::OverlayData { region, object } => {
                self.of_object_in(object as usize, region as usize)
            }
            VarName::KeptData { pair, object } => {
                let second = (pair as usize).saturating_mul(2);
                let first = self.of_object_in(object as usize, second.saturating_sub(1));
                first.saturating_add(self.of_object_in(object as usize, second))
            }
        }
    }

    /// What the fetches of some blocks cost, from the first to the last.
    pub(crate) fn of_blocks(&self, first: usize, last: usize) -> u128 {
        let mut energy: u128 = 0;
        for block in first..last.saturating_add(1) {
            energy = energy.saturating_add(self.of_block(block));
        }
        energy
    }

    /// What the fetches of a block's words cost.
    pub(crate) fn of_block(&self, number: usize) -> u128 {
        let Some(arrivals) = self.profile.arrivals.get(number) else {
            return 0;
        };
        let (last, units) = self.profile.last;
        let all = words_of(self.code, number, usize::MAX);
        let words = if last as usize == number && *arrivals != 0 {
            let rest = words_of(self.code, number, units as usize);
            product(all, arrivals.saturating_sub(1)).saturating_add(u128::from(rest))
        } else {
            product(all, *arrivals)
        };
        words.saturating_mul(u128::from(self.fetch))
    }

    /// What the reads and writes of an object that may move cost.
    pub(crate) fn of_object(&self, object: usize) -> u128 {
        let mut energy: u128 = 0;
        for region in 0..self.profile.enters.len() {
            energy = energy.saturating_add(self.of_object_in(object, region));
        }
        energy
    }

    fn of_object_in(&self, object: usize, region: usize) -> u128 {
        let (reads, writes) = (&self.profile.reads, &self.profile.writes);
        let (Some(reads), Some(writes)) = (reads.get(object), writes.get(object)) else {
            return 0;
        };
        match (reads.get(region), writes.get(region)) {
            (Some(reads), Some(writes)) => {
                product(self.read, *reads).saturating_add(product(self.write, *writes))
            }
            _ => 0,
        }
    }
}

/// How many words the first units of a block have at home; none where there is no such block.
pub(crate) fn words_of(code: &Code, block: usize, units: usize) -> u32 {
    let Some(block) = code.blocks.get(block) else {
        return 0;
    };
    let mut words: u32 = 0;
    for unit in block.units.iter().take(units) {
        words = words.saturating_add(unit.words);
    }
    words
}

/// What so many accesses cost at the same price.
pub(crate) fn product(each: u32, times: u64) -> u128 {
    u128::from(each).saturating_mul(u128::from(times))
}
