use rv32im::Instr;

/// The instructions of the copy jobs of a region: those that leave it and enter it, and the same for what its twin keeps.
#[derive(Drop)]
pub struct RegionCode {
    pub leave: Vec<Instr>,
    pub enter: Vec<Instr>,
    pub kept_leave: Vec<Instr>,
    pub kept_enter: Vec<Instr>,
}

/// What a switch routine is made of: the address of the control words, whether a FENCE.I stands behind the jobs, whether
/// regions 1 and 2, 3 and 4, and so on are twins, and the jobs of each region from 1 on.
#[derive(Drop)]
pub struct RoutinePlan {
    pub base: u32,
    pub fence_i: bool,
    pub twins: bool,
    pub regions: Vec<RegionCode>,
}

// The two regions of a switch: the one that is left, and the one that is entered.
#[derive(Clone, Copy)]
pub(crate) enum Side {
    Leave,
    Enter,
}
