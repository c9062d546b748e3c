// Steps of a run, over a table of decoded instructions: a word that is run again is neither fetched nor
// decoded again, and no event is made.
use crate::events::FlatAccess;
use crate::known::Known;
use crate::known_table::{is_known, kept_at};
use crate::machine::Flat;
use paged_store::ByteStore;
use std::alloc::AllocError;

// Each number of slots has a copy of its own of what performs instructions: LLVM inlines what has one caller, and a run
// took two fifths more time where a copy had two.
impl<S: ByteStore> Flat<S> {
    ghost use Rattle.std.specs.Prelude.{◌≡◌, ℕ, ◌-◌, ◌<◌, ◌≤◌, length, MatchBool, IfOk, OnOk, OnErr};
    ghost use Rattle.flat_machine.specs.{declared.events.FlatOutcome.{FlatOutcome}, Runs.{HasEnded, Steps}, Known.{AreKnown, TakesStep, TellsStep}, Machine.{state_of, state_at}};

    /// Takes `n` steps, or fewer where the machine ends, over a table of so many slots.
    pub(super) fn run_knowing<const SLOTS: usize>(
        &mut self,
        n: u64,
        known: &mut [Known],
    ) -> Result<(), AllocError>
        requires some { 0 < SLOTS }
        requires len { length known.old ≡ SLOTS }
        requires known { let s = state_of S.byte_at self.old in AreKnown s.map s.hart.mem known.old }
        ensures steps { OnOk result (Steps n (state_of S.byte_at self.old)
            (state_of S.byte_at self.new)) }
        ensures err { OnErr result ((k : ℕ) × ((k < n)
            × Steps k (state_of S.byte_at self.old) (state_of S.byte_at self.new))) }
    {
        if self.has_ended() {
            return Ok(());
        }
        let mut left = n;
        while left > 0 {
            left = self.run_near::<SLOTS>(left, known);
            if left == 0 {
                break;
            }
            left -= 1;
            if !self.step_untold::<SLOTS>(known)? {
                break;
            }
        }
        Ok(())
    }

    /// Takes steps as long as each is near, at most `n`. Tells how many of them are left.
    // So nothing in its loop fails or ends the machine. A call of its own, so that the host's registers are left to the loop
    // for the pc and the steps that are left.
    #[inline(never)]
    fn run_near<const SLOTS: usize>(&mut self, n: u64, known: &mut [Known]) -> u64
        requires n { 0 < n }
        requires some { 0 < SLOTS }
        requires len { length known.old ≡ SLOTS }
        requires known { let s = state_of S.byte_at self.old in AreKnown s.map s.hart.mem known.old }
        requires going { (state_of S.byte_at self.old).outcome ≡ FlatOutcome.GoesOn }
        ensures few { result ≤ n }
        ensures steps { Steps (n - result) (state_of S.byte_at self.old) (state_of S.byte_at self.new) }
        ensures going { (state_of S.byte_at self.new).outcome ≡ FlatOutcome.GoesOn }
        ensures known { let t = state_of S.byte_at self.new in AreKnown t.map t.hart.mem known.new }
    {
        let mut left = n;
        let mut pc = self.pc;
        while self.step_near::<SLOTS>(&mut pc, known) {
            left -= 1;
            if left == 0 {
                self.pc = pc;
                return left;
            }
        }
        self.pc = pc;
        left
    }

    /// Takes one step of any kind. Tells whether the machine goes on.
    // A call of its own: what tells of an access would go by way of the stack, in each step.
    #[cold]
    #[inline(never)]
    fn step_untold<const SLOTS: usize>(&mut self, known: &mut [Known]) -> Result<bool, AllocError>
        requires some { 0 < SLOTS }
        requires len { length known.old ≡ SLOTS }
        requires known { let s = state_of S.byte_at self.old in AreKnown s.map s.hart.mem known.old }
        requires going { (state_of S.byte_at self.old).outcome ≡ FlatOutcome.GoesOn }
        ensures step { OnOk result (TakesStep (state_of S.byte_at self.old)
            (state_of S.byte_at self.new)) }
        ensures goes { IfOk result (λ goes. MatchBool goes
            ((state_of S.byte_at self.new).outcome ≡ FlatOutcome.GoesOn)
            (HasEnded (state_of S.byte_at self.new).outcome)) }
        ensures known { OnOk result (let t = state_of S.byte_at self.new in
            AreKnown t.map t.hart.mem known.new) }
        ensures err { OnErr result (state_of S.byte_at self.new ≡ state_of S.byte_at self.old) }
    {
        self.step_far::<SLOTS>(known)?;
        Ok(!self.has_ended())
    }

    /// Takes one step of a machine that goes on, over a table of the instructions that it decoded so far. Tells of the
    /// access of a load or a store that does not trap.
    ///
    /// On an error the step was not taken.
    // The access is found out beforehand: what performs instructions would grow too large to be inlined if it told of it.
    #[inline(always)]
    pub fn step_telling(&mut self, known: &mut [Known]) -> Result<Option<FlatAccess>, AllocError>
        requires len { length known.old ≡ 4096 }
        requires known { let s = state_of S.byte_at self.old in AreKnown s.map s.hart.mem known.old }
        requires going { (state_of S.byte_at self.old).outcome ≡ FlatOutcome.GoesOn }
        ensures step { IfOk result (λ access. TellsStep (state_of S.byte_at self.old) access
            (state_of S.byte_at self.new)) }
        ensures known { OnOk result (let t = state_of S.byte_at self.new in
            AreKnown t.map t.hart.mem known.new) }
        ensures err { OnErr result (state_of S.byte_at self.new ≡ state_of S.byte_at self.old) }
    {
        if is_known::<4096>(known, self.pc) {
            let op = kept_at::<4096>(known, self.pc);
            let access = self.access_of_op(op);
            if self.perform_here::<4096>(op, known) {
                return Ok(access);
            }
        }
        self.step_far::<4096>(known)
    }

    /// Takes one step, if the table has its instruction and its access is near the last ones. Tells whether it did.
    #[inline(always)]
    fn step_near<const SLOTS: usize>(&mut self, pc: &mut u32, known: &mut [Known]) -> bool
        requires some { 0 < SLOTS }
        requires len { length known.old ≡ SLOTS }
        requires known { let s = state_of S.byte_at self.old in AreKnown s.map s.hart.mem known.old }
        requires going { (state_of S.byte_at self.old).outcome ≡ FlatOutcome.GoesOn }
        ensures step { MatchBool result
            (TakesStep (state_at S.byte_at self.old pc.old) (state_at S.byte_at self.new pc.new))
            (state_at S.byte_at self.new pc.new ≡ state_at S.byte_at self.old pc.old) }
        ensures going { (state_of S.byte_at self.new).outcome ≡ FlatOutcome.GoesOn }
        ensures known { let t = state_of S.byte_at self.new in AreKnown t.map t.hart.mem known.new }
    {
        if !is_known::<SLOTS>(known, *pc) {
            return false;
        }
        let op = kept_at::<SLOTS>(known, *pc);
        self.perform_near::<SLOTS>(pc, op, known)
    }
}
