//! The new segment of a result: the code of its patch range.
ghost use Rattle.std.specs.Prelude.{◌≡◌, ◌<◌, IfOk, All};
ghost use Rattle.elf_writer.specs.Pieces.{words_bytes};
ghost use Rattle.patch_code.specs.{Overlay.{CanHold}, StubPlans.{overlay_plan, HasLists}};
ghost use Rattle.relink_core.specs.Written.{IsPatchSegment};

use elf_writer::{SegmentBytes, push_words};
use patch_code::{StubPlan, stubs};
use std::alloc::{AllocError, Global};

/// The new segment, and where each stub of its plan stands.
#[derive(Drop)]
pub(crate) struct PatchSegment {
    pub(crate) segment: SegmentBytes,
    pub(crate) stub_at: Vec<u32>,
}

/// The bytes of words, each least byte first.
fn bytes_of(alloc: Global, words: &[u32]) -> Result<Vec<u8>, AllocError>
    ensures bytes { IfOk result (λ bytes. bytes.items ≡ words_bytes words.now) }
    ensures small { All (λ w. w < 4294967296) words.now }
{
    let mut bytes = Vec::new(alloc);
    push_words(&mut bytes, words)?;
    Ok(bytes)
}

/// The segment of a plan. It fails only where no memory was left.
pub(crate) fn patch_segment(alloc: Global, plan: &StubPlan) -> Result<PatchSegment, AllocError>
    requires lists { HasLists plan.now }
    requires can { CanHold (overlay_plan plan.now) }
    ensures { IfOk result (IsPatchSegment (overlay_plan plan.now)) }
{
    let code = stubs(alloc, plan)?;
    let bytes = bytes_of(alloc, &code.words)?;
    Ok(PatchSegment {
        segment: SegmentBytes {
            base: plan.base,
            entry: code.start,
            bytes,
        },
        stub_at: code.stub_at,
    })
}
