use crate::machine::Flat;
use paged_store::ByteStore;

impl<S: ByteStore> Flat<S> {
    ghost use Rattle.std.specs.Prelude.{◌≡◌, ◌<◌};
    ghost use Rattle.rv32im.specs.Acts.{register, with_register, after_write, after_jump};
    ghost use Rattle.flat_machine.specs.Machine.{state_of, state_at};

    // These are inlined: each step goes through them, and they have several callers.

    /// The word in a register.
    #[inline(always)]
    pub(super) fn register(&self, k: u8) -> u32
        requires { k < 32 }
        ensures { result ≡ register (state_of S.byte_at self.now).hart.regs k }
    {
        self.regs[usize::from(k)]
    }

    /// Puts a value into a register.
    #[inline(always)]
    fn set_register(&mut self, rd: u8, value: u32)
        requires { rd < 32 }
        ensures { let s = state_of S.byte_at self.old in
            state_of S.byte_at self.new
            ≡ record s { hart = record s.hart { regs = with_register s.hart.regs rd value } } }
    {
        // without a test of `rd`: x0 is 0 again at once
        self.regs[usize::from(rd)] = value;
        self.regs[0] = 0;
    }

    /// Puts a value into a register and goes to the next word.
    #[inline(always)]
    pub(super) fn write(&mut self, rd: u8, value: u32)
        requires { rd < 32 }
        ensures { let s = state_of S.byte_at self.old in
            state_of S.byte_at self.new ≡ record s { hart = after_write s.hart rd value } }
    {
        let mut pc = self.pc;
        self.write_near(&mut pc, rd, value);
        self.pc = pc;
    }

    /// The same where the pc is beside the machine.
    #[inline(always)]
    pub(super) fn write_near(&mut self, pc: &mut u32, rd: u8, value: u32)
        requires { rd < 32 }
        ensures { let s = state_at S.byte_at self.old pc.old in
            state_at S.byte_at self.new pc.new ≡ record s { hart = after_write s.hart rd value } }
    {
        self.set_register(rd, value);
        *pc = pc.wrapping_add(4);
    }

    /// Jumps, and leaves the return address in a register. The pc is beside the machine.
    #[inline(always)]
    pub(super) fn jump_near(&mut self, pc: &mut u32, rd: u8, target: u32)
        requires { rd < 32 }
        ensures { let s = state_at S.byte_at self.old pc.old in
            state_at S.byte_at self.new pc.new ≡ record s { hart = after_jump s.hart rd target } }
    {
        self.set_register(rd, pc.wrapping_add(4));
        *pc = target;
    }
}
