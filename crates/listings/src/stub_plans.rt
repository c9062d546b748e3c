ghost use Rattle.std.specs.Prelude.{◌≡◌, [], ◌∷◌, map, length, All, IfOk};
ghost use Rattle.patch_code.specs.{Layout.{CanStand}, Serving.{jumps_to}, Overlay.{CanHold}, StubPlans.{IsPlain, IsPlainPlan, HasLists, code_plan, overlay_plan, plain_stub, serving_stub, jobs_of, words_of}};

use crate::listing::Listing;
use anyhow::{Result, bail};
use patch_code::{Body, CopyJob, Stub, StubCode, StubPlan, StubSizes, plain_code, sizes, stubs};
use std::alloc::{AllocError, Global};

/// A piece of twelve words, copied for the scratchpad: a table is added, and the last jump goes home.
const PIECE: [u32; 12] = [
    0x0001_1537,
    0x0005_0513,
    0x1005_0593,
    0x0000_0613,
    0x0005_2683,
    0x00d6_0633,
    0x0045_0513,
    0xfeb5_1ae3,
    0xfff7_0713,
    0xfc07_1ee3,
    0x0001_02b7,
    0x02c2_8067,
];

/// A plan of the default board's patch range, for a program that begins at 0x00010000.
fn plan_of(
    alloc: Global,
    fence_i: bool,
    start: Vec<CopyJob>,
    stubs: Vec<Stub>,
    images: Vec<Vec<u32>>,
) -> StubPlan
    ensures parts { code_plan result ≡ record { start = record { base = 589824; entry = 65536; fence_i = fence_i; jobs = start.items }; stubs = map plain_stub stubs.items; images = map words_of images.items } }
    ensures plain { All IsPlain stubs.items → IsPlainPlan result }
{
    StubPlan {
        base: 0x0009_0000,
        entry: 0x0001_0000,
        fence_i,
        twins: false,
        start,
        stubs,
        regions: 0,
        leave: Vec::new(alloc),
        enter: Vec::new(alloc),
        kept_leave: Vec::new(alloc),
        kept_enter: Vec::new(alloc),
        images,
    }
}

/// A job that copies bytes.
pub(crate) fn job(from: u32, to: u32, bytes: u32) -> CopyJob
    ensures { result ≡ record { from = from; to = to; bytes = bytes } }
{
    CopyJob { from, to, bytes }
}

/// The words behind the plain stub, to the scratchpad.
fn piece_job() -> CopyJob
    ensures { result ≡ record { from = 589960; to = 16777216; bytes = 48 } }
{
    job(0x0009_0088, 0x0100_0000, 48)
}

/// One job of words.
#[tactic(auto, using(crate::proofs::Examples::one_stands))]
fn plan_of_words(alloc: Global) -> Result<StubPlan, AllocError>
    ensures can { IfOk result (λ plan. CanStand (code_plan plan)) }
    ensures plain { IfOk result IsPlainPlan }
{
    let start = vec![in alloc; piece_job()]?;
    Ok(plan_of(alloc, false, start, Vec::new(alloc), Vec::new(alloc)))
}

/// A job of words and one of bytes.
#[tactic(auto, using(crate::proofs::Examples::two_stand))]
fn plan_of_bytes(alloc: Global) -> Result<StubPlan, AllocError>
    ensures can { IfOk result (λ plan. CanStand (code_plan plan)) }
    ensures plain { IfOk result IsPlainPlan }
{
    let table = job(0x0001_0028, 0x0100_0000, 8);
    let pair = job(0x0001_0031, 0x0100_0011, 2);
    let start = vec![in alloc; table, pair]?;
    Ok(plan_of(alloc, true, start, Vec::new(alloc), Vec::new(alloc)))
}

/// The image of a piece, the job that copies it, and the stub of its entry.
#[tactic(auto, using(crate::proofs::Examples::piece_stands))]
fn plan_of_piece(alloc: Global) -> Result<StubPlan, AllocError>
    ensures can { IfOk result (λ plan. CanStand (code_plan plan)) }
    ensures plain { IfOk result IsPlainPlan }
{
    let entry = Stub {
        home: 0x0001_0004,
        temp: 5,
        region: 0,
        body: Body::Jump { to: 0x0100_0000 },
    };
    let start = vec![in alloc; piece_job()]?;
    let stubs = vec![in alloc; entry]?;
    let image = Vec::from_slice(alloc, &PIECE)?;
    let images = vec![in alloc; image]?;
    Ok(plan_of(alloc, false, start, stubs, images))
}

/// The plan of a name.
fn plan_named(alloc: Global, name: &str) -> Result<StubPlan>
    ensures can { IfOk result (λ plan. CanStand (code_plan plan)) }
    ensures plain { IfOk result IsPlainPlan }
{
    match name {
        "words" => Ok(plan_of_words(alloc)?),
        "bytes" => Ok(plan_of_bytes(alloc)?),
        "piece" => Ok(plan_of_piece(alloc)?),
        _ => bail!("no plan"),
    }
}

/// The stub of the entry at `home` in a region, which goes to an address.
pub(crate) fn stub(home: u32, temp: u8, region: u32, to: u32) -> Stub
    ensures { serving_stub result ≡ record { home = home; temp = temp; region = region; body = jumps_to to } }
{
    Stub {
        home,
        temp,
        region,
        body: Body::Jump { to },
    }
}

/// The stub of an entry in a region: it jumps to the copy that the region's job brings in.
fn region_stub() -> Stub
    ensures { serving_stub result ≡ record { home = 65568; temp = 5; region = 1; body = jumps_to 16777216 } }
{
    stub(0x0001_0020, 5, 1, 0x0100_0000)
}

/// The job that brings the copy in, from its image.
fn enter_job() -> CopyJob
    ensures { result ≡ record { from = 590092; to = 16777216; bytes = 8 } }
{
    job(0x0009_010c, 0x0100_0000, 8)
}

/// One region with these jobs.
fn one_region(alloc: Global, jobs: Vec<CopyJob>) -> Result<Vec<Vec<CopyJob>>, AllocError>
    ensures jobs { IfOk result (λ lists. map jobs_of lists.items ≡ jobs.items ∷ []) }
    ensures one { IfOk result (λ lists. length lists.items ≡ 1) }
{
    let lists = vec![in alloc; jobs]?;
    Ok(lists)
}

/// A plan with one region, which one job enters and none leaves.
fn plan_of_region(alloc: Global) -> Result<StubPlan, AllocError>
    ensures can { IfOk result (λ plan. CanHold (overlay_plan plan)) }
    ensures lists { IfOk result HasLists }
{
    let stubs = vec![in alloc; region_stub()]?;
    let jobs = vec![in alloc; enter_job()]?;
    let image = Vec::from_slice(alloc, &[0x00a0_0513, 0x0000_8067])?;
    let leave = one_region(alloc, Vec::new(alloc))?;
    let enter = one_region(alloc, jobs)?;
    let kept_leave = one_region(alloc, Vec::new(alloc))?;
    let kept_enter = one_region(alloc, Vec::new(alloc))?;
    let images = vec![in alloc; image]?;
    Ok(StubPlan {
        base: 0x0009_0000,
        entry: 0x0001_0000,
        fence_i: false,
        twins: false,
        start: Vec::new(alloc),
        stubs,
        regions: 1,
        leave,
        enter,
        kept_leave,
        kept_enter,
        images,
    })
}

/// Tells where the parts of the patch range stand, and how many bytes they take.
pub(crate) fn tell_places(listing: &mut Listing, text: &str, code: &StubCode, sizes: StubSizes) {
    listing.text("stub of ");
    listing.text(text);
    listing.hex(" at ", code.start);
    listing.value_line(", ", &sizes);
    listing.value("  stubs ", &code.stub_at);
    listing.value_line(", images ", &code.image_at);
}

/// Tells that, and the words.
fn tell_code(listing: &mut Listing, text: &str, code: &StubCode, sizes: StubSizes) {
    tell_places(listing, text, code, sizes);
    for word in &code.words {
        listing.address("  ", *word);
        listing.end_line();
    }
}

/// Tells of the plan with a region.
fn tell_region(listing: &mut Listing) -> Result<()> {
    let plan = plan_of_region(listing.alloc())?;
    let code = stubs(listing.alloc(), &plan)?;
    tell_code(listing, "region", &code, sizes(&plan));
    Ok(())
}

/// Tells the words of the patch range for the plan `words`, `bytes`, `piece` or `region`, and where the parts stand.
pub(crate) fn tell_stub(listing: &mut Listing, text: &str) -> Result<()> {
    if text == "region" {
        return tell_region(listing);
    }
    let plan = plan_named(listing.alloc(), text)?;
    let code = plain_code(listing.alloc(), &plan)?;
    tell_code(listing, text, &code, sizes(&plan));
    Ok(())
}
