use crate::choice::Chosen;
use explanation_texts::{
    Notes, PATCH_USED, Room, SCRATCHPAD_USED, StayingReason, Used, say_overlay_room, say_room,
};
use placement_programme::Var;

impl Chosen<'_> {
    /// The row of the patch range, behind those of the scratchpad, for no region and each of these regions.
    fn patch_row(&self, regions: u32) -> u32 {
        if self.on {
            regions.saturating_add(1)
        } else {
            1
        }
    }

    /// How many bytes of a row are used, and how many there are.
    fn used(&self, row: u32) -> Used {
        let mut bytes: u64 = 0;
        for variable in &self.taken {
            bytes = bytes.saturating_add(weight_in(variable, row));
        }
        Used {
            bytes,
            of: self.side.rows.get(row as usize).copied().unwrap_or(0),
        }
    }

    /// Why a variable is not taken that saves something: there is no room for it, or not beside what saves more.
    pub(crate) fn untaken_reason(&self, regions: u32, variable: &Var) -> StayingReason {
        let patch = self.patch_row(regions);
        for row in 0..patch.saturating_add(1) {
            let used = self.used(row);
            let needed = weight_in(variable, row);
            let left = used.of.saturating_sub(used.bytes);
            if needed > left {
                return StayingReason::NoRoom {
                    room: if row == patch {
                        Room::PatchRange
                    } else {
                        Room::Scratchpad
                    },
                    needed,
                    left,
                    have: used.of,
                };
            }
        }
        StayingReason::OthersSaveMore
    }
}

/// What a variable weighs in a row: its weights ascend by row.
fn weight_in(variable: &Var, row: u32) -> u64 {
    for weight in &variable.weights {
        if weight.0 >= row {
            return if weight.0 == row { weight.1 } else { 0 };
        }
    }
    0
}

/// How full the scratchpad is, in each region, and the patch range.
pub(crate) fn explain_room(notes: &mut Notes, chosen: &Chosen, regions: u32) {
    if chosen.taken.is_empty() {
        return;
    }
    let patch = chosen.patch_row(regions);
    if chosen.on {
        let mut used = Vec::new(notes.alloc());
        for region in 0..patch {
            if used.push(chosen.used(region)).is_err() {
                notes.cut();
            }
        }
        say_overlay_room(notes, &used);
    } else {
        say_room(notes, chosen.used(0), SCRATCHPAD_USED);
    }
    say_room(notes, chosen.used(patch), PATCH_USED);
}
