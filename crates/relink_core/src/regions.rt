// The jobs of all regions, and the images of copies.
ghost use Rattle.std.specs.Prelude.{◌≡◌, ◌+◌, ◌<◌, ◌≤◌, length, map, All, IfOk};
ghost use Rattle.std.specs.List.{sum_by};
ghost use Rattle.patch_code.specs.Layout;
ghost use Rattle.patch_code.specs.StubPlans.{words_of};
ghost use Rattle.relink_core.specs.Naming;
ghost use Rattle.relink_core.specs.{Naming.{copied_words, copied_bytes, CanPlan}, Planning.{AreLists, lists_entering, lists_leaving}};

use crate::items::{Phase, PlannedItems};
use crate::jobs::{entering, leaving};
use crate::placed_copy::PlacedCopy;
use patch_code::CopyJob;
use std::alloc::{AllocError, Global};

/// The phase of what is overlaid in a region, or kept for its pair.
fn overlay_phase(kept: bool, region: u32) -> Phase
    ensures { result ≡ Naming.overlay_phase kept region }
{
    if kept {
        Phase::Kept { region }
    } else {
        Phase::Overlaid { region }
    }
}

/// For each region the jobs that copy into the scratchpad what is overlaid in it, or kept for its pair. It fails only where
/// no memory was left.
pub(crate) fn all_entering(
    alloc: Global,
    items: &PlannedItems,
    images: &[u32],
    kept: bool,
) -> Result<Vec<Vec<CopyJob>>, AllocError>
    requires can { CanPlan items.now }
    requires images { length images.now ≡ length items.now.copies.now }
    ensures { IfOk result (λ lists. AreLists (lists_entering kept items.now images.now) items.now.regions lists.items) }
{
    let mut lists = Vec::new(alloc);
    for i in 0..items.regions {
        let jobs = entering(alloc, items, images, overlay_phase(kept, i + 1))?;
        lists.push(jobs)?;
    }
    Ok(lists)
}

/// The same for those that copy home. It fails only where no memory was left.
pub(crate) fn all_leaving(
    alloc: Global,
    items: &PlannedItems,
    kept: bool,
) -> Result<Vec<Vec<CopyJob>>, AllocError>
    requires { CanPlan items.now }
    ensures { IfOk result (λ lists. AreLists (lists_leaving kept items.now) items.now.regions lists.items) }
{
    let mut lists = Vec::new(alloc);
    for i in 0..items.regions {
        let jobs = leaving(alloc, items, overlay_phase(kept, i + 1))?;
        lists.push(jobs)?;
    }
    Ok(lists)
}

/// The words of copies, for their images. It fails only where no memory was left.
pub(crate) fn images(alloc: Global, copies: &[PlacedCopy]) -> Result<Vec<Vec<u32>>, AllocError>
    ensures { IfOk result (λ images. map words_of images.items ≡ map copied_words copies.now) }
{
    let mut images = Vec::new(alloc);
    for k in 0..copies.len() {
        images.push(copies[k].code.words.to_vec(alloc)?)?;
    }
    Ok(images)
}

/// Where the images stand, if they stand one behind the other from an address on. It fails only where no memory was left.
pub(crate) fn image_places(
    alloc: Global,
    copies: &[PlacedCopy],
    first: u32,
) -> Result<Vec<u32>, AllocError>
    requires { first + sum_by copied_bytes copies.now < 4294967296 }
    ensures places { IfOk result (λ places. places.items ≡ Layout.image_places first (map copied_words copies.now)) }
    ensures many { IfOk result (λ places. length places.items ≡ length copies.now) }
{
    let mut places = Vec::new(alloc);
    let mut at = first;
    for k in 0..copies.len() {
        places.push(at)?;
        at += 4 * (copies[k].code.words.len() as u32);
    }
    Ok(places)
}
