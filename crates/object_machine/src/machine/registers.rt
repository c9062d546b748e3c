use crate::machine::Source;
use cell_values::Val;

impl Source {
    ghost use Rattle.std.specs.Prelude.{◌≡◌, ◌<◌};
    ghost use Rattle.cell_values.specs.Objects.{IsOfGraph};
    ghost use Rattle.object_machine.specs.{State.{value, wrote}, Machine.{seen_state, Becomes}};

    /// The value in a register.
    #[inline(always)]
    pub(super) fn register(&self, k: u8) -> Val
        requires { k < 32 }
        ensures value { result ≡ value (seen_state self.now).regs k }
        ensures of { IsOfGraph self.now.tables.graph result }
    {
        self.regs.get(k)
    }

    /// Puts a value into a register.
    #[inline(always)]
    pub(super) fn set_register(&mut self, rd: u8, v: Val)
        requires rd { rd < 32 }
        requires of { IsOfGraph self.old.tables.graph v }
        ensures state { Becomes self.old self.new (wrote (seen_state self.old) rd v) }
        ensures place { self.new.place ≡ self.old.place }
    {
        self.regs.set(rd, v);
    }
}
