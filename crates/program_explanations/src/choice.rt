use placement_programme::{Choice, Programme, Side, Var, VarName};
use profile_runner::Profile;
use std::alloc::{AllocError, Global};

/// A choice that a command made or checked, of the programme that the runs of the program state.
#[derive(Drop)]
pub struct Chosen<'a> {
    /// Whether it is a choice of the side with overlay.
    pub(crate) on: bool,
    /// The energy with everything at home, in price units, as all energies here.
    pub(crate) base: u128,
    pub(crate) side: &'a Side,
    /// The variables that it takes, in order.
    pub(crate) taken: Vec<&'a Var>,
    /// What it saves: what its variables gain, less the fixed cost of its side.
    pub(crate) saved: u128,
    /// What the run did, counted; `None` for a mix, which has several runs.
    pub profile: Option<&'a Profile>,
}

impl<'a> Chosen<'a> {
    /// The choice; `None` where the programme lacks its side. It fails only where no memory was left.
    pub fn new(
        alloc: Global,
        programme: &'a Programme,
        choice: &Choice,
        profile: Option<&'a Profile>,
    ) -> Result<Option<Chosen<'a>>, AllocError> {
        let sided = if choice.on {
            programme.on.as_ref()
        } else {
            Some(&programme.off)
        };
        let Some(side) = sided else {
            return Ok(None);
        };
        let mut taken = Vec::new(alloc);
        let mut gains: u128 = 0;
        for number in &choice.take {
            if let Some(variable) = side.vars.get(*number as usize) {
                gains = gains.saturating_add(variable.gain);
                taken.push(variable)?;
            }
        }
        Ok(Some(Chosen {
            on: choice.on,
            base: programme.base,
            side,
            taken,
            saved: gains.saturating_sub(side.fixed),
            profile,
        }))
    }

    /// How many thousandths of the energy with everything at home an energy is, rounded down.
    pub(crate) fn thousandths(&self, energy: u128) -> u64 {
        match energy.saturating_mul(1000).checked_div(self.base) {
            Some(share) => u64::try_from(share).unwrap_or(u64::MAX),
            None => 0,
        }
    }
}

/// What a variable is of.
#[derive(Clone, Copy)]
pub(crate) enum Item {
    /// Code, by the numbers of its first and its last block.
    Code { first: u32, last: u32 },
    /// An object that may move, by its number.
    Object(u32),
}

/// What a variable is of, by its name.
pub(crate) fn item_of(name: VarName) -> Item {
    match name {
        VarName::StaticCode { first, last } | VarName::OverlayCode { first, last, .. } => {
            Item::Code { first, last }
        }
        VarName::StaticData { object }
        | VarName::OverlayData { object, .. }
        | VarName::KeptData { object, .. } => Item::Object(object),
    }
}
