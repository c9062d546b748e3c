use crate::job::CopyJob;

/// What a stub does: goes to the copy of an entry, or runs the words that its home was taken from.
#[derive(Drop)]
pub enum Body {
    Jump { to: u32 },
    Words(Vec<u32>),
}

/// A stub that serves the entry at `home`, with a register that is dead there. Region 0 is that of
/// a plain stub; any other is checked, and switched to.
#[derive(Drop)]
pub struct Stub {
    pub home: u32,
    pub temp: u8,
    pub region: u32,
    pub body: Body,
}

/// What the patch range is to hold, from the address `base` on: the jobs of the start stub, the
/// stubs, the jobs of each region from 1 on, and the images of copied code. Jobs of a region leave
/// and enter it. Where regions 1 and 2, 3 and 4, and so on are twins, its kept jobs are left out in
/// a switch between the two.
#[derive(Drop)]
pub struct StubPlan {
    pub base: u32,
    pub entry: u32,
    pub fence_i: bool,
    pub twins: bool,
    pub start: Vec<CopyJob>,
    pub stubs: Vec<Stub>,
    pub regions: u32,
    pub leave: Vec<Vec<CopyJob>>,
    pub enter: Vec<Vec<CopyJob>>,
    pub kept_leave: Vec<Vec<CopyJob>>,
    pub kept_enter: Vec<Vec<CopyJob>>,
    pub images: Vec<Vec<u32>>,
}

/// The words of the patch range, which begin with sixteen control words, and the addresses of the
/// start stub, of each stub in the plan's order, and of each image.
#[derive(Drop)]
pub struct StubCode {
    pub words: Vec<u32>,
    pub start: u32,
    pub stub_at: Vec<u32>,
    pub image_at: Vec<u32>,
}

/// How many bytes each part takes. The control words are in none of them.
#[derive(Clone, Copy, Debug)]
pub struct StubSizes {
    pub start: u32,
    pub stubs: u32,
    pub routine: u32,
    pub images: u32,
}
