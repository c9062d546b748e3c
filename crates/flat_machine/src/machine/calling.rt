use crate::events::FlatOutcome;
use crate::machine::Flat;
use crate::mapping::has_move;
use paged_store::{ByteStore, append_span};
use rv32im::{A0, A1, A2, A7, CALL_EXIT, CALL_READ, CALL_WRITE, NO_CALL};
use std::alloc::AllocError;

impl<S: ByteStore> Flat<S> {
    ghost use Rattle.std.specs.Prelude.{◌≡◌, OnOk, OnErr};
    ghost use Rattle.flat_machine.specs.{Calls.{call, exited, written, read}, Machine.{state_of}};

    /// Does the call that the registers name.
    // A call of its own, since few steps are calls.
    #[cold]
    #[inline(never)]
    pub(super) fn call(&mut self) -> Result<(), AllocError>
        ensures ok { OnOk result (state_of S.byte_at self.new
            ≡ call (state_of S.byte_at self.old)) }
        ensures err { OnErr result (state_of S.byte_at self.new ≡ state_of S.byte_at self.old) }
    {
        match self.register(A7) {
            CALL_EXIT => self.exit(),
            CALL_WRITE => self.write_out()?,
            CALL_READ => self.read_in()?,
            _ => self.write(A0, NO_CALL),
        }
        Ok(())
    }

    /// Exits with the low eight bits of a0.
    fn exit(&mut self)
        ensures { state_of S.byte_at self.new ≡ exited (state_of S.byte_at self.old) }
    {
        let code = self.register(A0) & 0xff;
        self.outcome = FlatOutcome::Exited(code as u8);
    }

    /// Appends the a2 bytes at a1 to the output.
    fn write_out(&mut self) -> Result<(), AllocError>
        ensures ok { OnOk result (state_of S.byte_at self.new
            ≡ written (state_of S.byte_at self.old)) }
        ensures err { OnErr result (state_of S.byte_at self.new ≡ state_of S.byte_at self.old) }
    {
        let at = self.register(A1);
        let n = self.register(A2);
        if !has_move(&self.map, at, n) {
            self.trap();
            return Ok(());
        }
        append_span(&self.store, at, n, &mut self.output)?;
        self.write(A0, n);
        Ok(())
    }

    /// Puts the next bytes of the input, at most a2, at a1.
    fn read_in(&mut self) -> Result<(), AllocError>
        ensures ok { OnOk result (state_of S.byte_at self.new
            ≡ read (state_of S.byte_at self.old)) }
        ensures err { OnErr result (state_of S.byte_at self.new ≡ state_of S.byte_at self.old) }
    {
        let at = self.register(A1);
        let asked = self.register(A2) as usize;
        let n = asked.min(self.input.len() - self.consumed);
        if !has_move(&self.map, at, n as u32) {
            self.trap();
            return Ok(());
        }
        self.store
            .set_bytes(at, &self.input[self.consumed..self.consumed + n])?;
        self.consumed += n;
        self.write(A0, n as u32);
        Ok(())
    }
}
