use crate::events::Outcome;
use crate::machine::Source;
use crate::units::Pair;
use cell_values::Val;

/// Reasons of an address fault: a way that leads to no block, and a branch on what isn't known.
pub(super) const NO_BLOCK: u32 = 6;

const UNKNOWN_BRANCH: u32 = 7;

impl Source {
    ghost use Rattle.std.specs.Prelude.{◌≡◌, ◌+◌, ◌<◌, true, false, length, if◌then◌else◌, MatchOption};
    ghost use Rattle.rv32im.specs.Words.{offset};
    ghost use Rattle.cell_values.specs.Objects.{IsOfGraph};
    ghost use Rattle.object_machine.specs.{State.{wrote, trapped, faulted}, Flow.{falls_on, jumps, jumps_by, branches}, Units.{unit_in, IsUnitAt}, Machine.{seen, seen_state, calls, Becomes}};

    /// The place of the unit behind the present one, if it may follow that.
    #[inline(always)]
    pub(super) fn next_place(&self) -> Option<usize>
        ensures { MatchOption result ((seen self.now).falls self.now.pc ≡ false) (λ k. ((seen self.now).falls self.now.pc ≡ true) × IsUnitAt self.now.tables.units.items k (self.now.pc + 4)) }
    {
        if self.tables.units[self.place].goes_on {
            Some(self.place + 1)
        } else {
            self.tables.block_at(u64::from(self.pc) + 4)
        }
    }

    /// Goes to a unit.
    #[inline(always)]
    pub(super) fn enter(&mut self, place: usize)
        requires { place < length self.old.tables.units.items }
        ensures { Becomes self.old self.new (record (seen_state self.old) { pc = (unit_in self.old.tables.units.items place).at }) }
    {
        let at = self.tables.units[place].at;
        self.place = place;
        self.pc = at;
    }

    /// Ends the machine at the present unit, which can't be performed for a reason.
    #[cold]
    #[inline(never)]
    pub(super) fn fault(&mut self, why: u32)
        ensures { Becomes self.old self.new (faulted (seen_state self.old) why) }
    {
        self.outcome = Outcome::AddressFault { pc: self.pc, why };
    }

    /// Ends the machine at the present unit, which means nothing or is EBREAK.
    #[cold]
    #[inline(never)]
    pub(super) fn trap(&mut self)
        ensures { Becomes self.old self.new (trapped (seen_state self.old)) }
    {
        self.outcome = Outcome::Trapped { pc: self.pc };
    }

    /// Goes to the next word.
    #[inline(always)]
    pub(super) fn fall(&mut self)
        ensures { Becomes self.old self.new (falls_on (seen self.old) (seen_state self.old) (seen_state self.old)) }
    {
        match self.next_place() {
            Some(place) => self.enter(place),
            None => self.fault(NO_BLOCK),
        }
    }

    /// Puts a value into a register, and goes to the next word.
    #[inline(always)]
    pub(super) fn write(&mut self, rd: u8, v: Val)
        requires rd { rd < 32 }
        requires of { IsOfGraph self.old.tables.graph v }
        ensures { Becomes self.old self.new (falls_on (seen self.old) (seen_state self.old) (wrote (seen_state self.old) rd v)) }
    {
        match self.next_place() {
            Some(place) => {
                self.set_register(rd, v);
                self.enter(place);
            }
            None => self.fault(NO_BLOCK),
        }
    }

    /// Jumps to a block.
    #[inline(always)]
    pub(super) fn jump(&mut self, target: u32)
        ensures { Becomes self.old self.new (jumps (seen self.old) (seen_state self.old) target (seen_state self.old)) }
    {
        match self.tables.block_at(u64::from(target)) {
            Some(place) => self.enter(place),
            None => self.fault(NO_BLOCK),
        }
    }

    /// Jumps to a block, and leaves a value in a register.
    #[inline(always)]
    pub(super) fn link(&mut self, target: u32, rd: u8, back: Val)
        requires rd { rd < 32 }
        requires of { IsOfGraph self.old.tables.graph back }
        ensures { Becomes self.old self.new (jumps (seen self.old) (seen_state self.old) target (wrote (seen_state self.old) rd back)) }
    {
        match self.tables.block_at(u64::from(target)) {
            Some(place) => {
                self.set_register(rd, back);
                self.enter(place);
            }
            None => self.fault(NO_BLOCK),
        }
    }

    /// Jumps to where a value says, if that is a block that a register may lead to, and leaves the way back in a
    /// register.
    #[inline(always)]
    pub(super) fn jump_by(&mut self, target: &Val, rd: u8)
        requires { rd < 32 }
        ensures { let s = seen_state self.old in
            Becomes self.old self.new (jumps_by (seen self.old) s target.now (wrote s rd (Val.Int (s.pc + 4)))) }
    {
        match *target {
            Val::Int(address) => self.jump_to(address / 2 * 2, rd),
            _ => self.fault(NO_BLOCK),
        }
    }

    /// The same of an address.
    #[inline(always)]
    fn jump_to(&mut self, address: u32, rd: u8)
        requires { rd < 32 }
        ensures { let s = seen_state self.old in
            Becomes self.old self.new (if (seen self.old).is_reached address then record (wrote s rd (Val.Int (s.pc + 4))) { pc = address } else faulted s 6) }
    {
        match self.tables.reached_at(u64::from(address)) {
            Some(place) => {
                let back = self.pc + 4;
                self.set_register(rd, Val::Int(back));
                self.enter(place);
            }
            None => self.fault(NO_BLOCK),
        }
    }

    /// Branches, if it is known whether.
    #[inline(always)]
    pub(super) fn branch_if(&mut self, consumed: Option<bool>, off: i32)
        ensures { Becomes self.old self.new (branches (seen self.old) (seen_state self.old) off consumed) }
    {
        match consumed {
            Some(true) => self.jump(self.pc.wrapping_add_signed(off)),
            Some(false) => self.jump(self.pc + 4),
            None => self.fault(UNKNOWN_BRANCH),
        }
    }

    /// Performs a call of two words.
    #[inline(always)]
    pub(super) fn call_pair(&mut self, pair: &Pair)
        requires register { pair.now.register < 32 }
        requires below { self.old.pc + 8 < 4294967296 }
        ensures { Becomes self.old self.new (calls (seen self.old) (seen_state self.old) pair.now) }
    {
        let back = if pair.links {
            Val::Int(self.pc + 8)
        } else {
            Val::Unknown
        };
        self.link(pair.target, pair.register, back);
    }
}
