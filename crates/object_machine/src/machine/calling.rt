use crate::events::Outcome;
use crate::machine::Source;
use crate::machine::moving::NO_BLOCK;
use crate::spots::Spot;
use cell_values::{Cell, Val};
use std::alloc::AllocError;

// the arguments a0 to a2 of a call, and its number in a7
const A0: u8 = 10;

const A1: u8 = 11;

const A2: u8 = 12;

const A7: u8 = 17;

// the numbers of the calls, and the answer to any other: -38, "not implemented"
const READ: u32 = 63;

const WRITE: u32 = 64;

const EXIT: u32 = 93;

const NO_CALL: u32 = 0xffff_ffda;

/// The reason of an address fault where a call looks at what is no plain number.
const NO_NUMBER: u32 = 8;

impl Source {
    ghost use Rattle.std.specs.Prelude.{◌≡◌, ℕ, ◌+◌, ◌<◌, ◌≤◌, ◌++◌, take, drop, length, MatchOption, IfOk, OnOk, OnErr, Some, None};
    ghost use Rattle.list_checks.specs.First.{first_below};
    ghost use Rattle.object_machine.specs.{Flow.{falls_on}, Calls.{a1, a7, answered, exits, plain_bytes, unread, appends, writes_from, writes, unwritten, put_input, with_input, reads_into, reads, consumed_count, calls_number, calls_by, a0, a2}, Memory.{cell_at}, Places.{byte_place, read_fault, write_fault}, Machine.{byte_cells, plain_of, stored_from, HasRoom}, Machine.{seen, seen_state, Becomes}};
    ghost use Rattle.cell_values.specs.{Objects.{IsOfGraph}, Cells.{IsCellOfGraph}};
    ghost use Rattle.std.specs.List.{All};

    /// Does the call that the registers name.
    #[cold]
    #[inline(never)]
    pub(super) fn call(&mut self) -> Result<(), AllocError>
        ensures ok { OnOk result (Becomes self.old self.new (calls_by (seen self.old) (seen_state self.old) (a7 (seen_state self.old)))) }
        ensures err { OnErr result (Becomes self.old self.new (seen_state self.old)) }
    {
        match self.register(A7) {
            Val::Int(number) => self.call_number(number),
            _ => {
                self.fault(NO_NUMBER);
                Ok(())
            }
        }
    }

    /// Does the call with a number.
    fn call_number(&mut self, number: u32) -> Result<(), AllocError>
        ensures ok { OnOk result (Becomes self.old self.new (calls_number (seen self.old) (seen_state self.old) number)) }
        ensures err { OnErr result (Becomes self.old self.new (seen_state self.old)) }
    {
        match number {
            EXIT => {
                self.exit();
                Ok(())
            }
            WRITE => self.write_out(),
            READ => self.read_in(),
            _ => {
                self.write(A0, Val::Int(NO_CALL));
                Ok(())
            }
        }
    }

    /// Exits with the low eight bits of a0.
    fn exit(&mut self)
        ensures { let s = seen_state self.old in
            Becomes self.old self.new (exits s (a0 s)) }
    {
        match self.register(A0) {
            Val::Int(code) => self.outcome = Outcome::Exited((code & 0xff) as u8),
            _ => self.fault(NO_NUMBER),
        }
    }

    /// Appends the a2 bytes at a1 to the output.
    fn write_out(&mut self) -> Result<(), AllocError>
        ensures ok { let s = seen_state self.old in
            OnOk result (Becomes self.old self.new (writes (seen self.old) s (a2 s))) }
        ensures err { OnErr result (Becomes self.old self.new (seen_state self.old)) }
    {
        match self.register(A2) {
            Val::Int(n) => self.write_bytes(n),
            _ => {
                self.fault(NO_NUMBER);
                Ok(())
            }
        }
    }

    /// Appends the `n` bytes at a1.
    fn write_bytes(&mut self, n: u32) -> Result<(), AllocError>
        ensures ok { OnOk result (Becomes self.old self.new (writes_from (seen self.old) (seen_state self.old) n (first_below (unread (seen self.old) (seen_state self.old)) n))) }
        ensures err { OnErr result (Becomes self.old self.new (seen_state self.old)) }
    {
        match self.unread(n) {
            Some(why) => {
                self.fault(why);
                Ok(())
            }
            None => self.append_bytes(n),
        }
    }

    /// Appends them, if they are plain numbers.
    fn append_bytes(&mut self, n: u32) -> Result<(), AllocError>
        ensures ok { OnOk result (Becomes self.old self.new (appends (seen self.old) (seen_state self.old) n (plain_bytes (seen self.old) (seen_state self.old) n))) }
        ensures err { OnErr result (Becomes self.old self.new (seen_state self.old)) }
    {
        match self.plain_bytes(n) {
            Ok(Some(bytes)) => self.append(&bytes, n),
            Ok(None) => {
                self.fault(NO_NUMBER);
                Ok(())
            }
            Err(error) => Err(error),
        }
    }

    /// Appends these bytes, and answers their number.
    fn append(&mut self, bytes: &[u8], n: u32) -> Result<(), AllocError>
        ensures ok { OnOk result (Becomes self.old self.new (appends (seen self.old) (seen_state self.old) n (Some bytes.now))) }
        ensures err { OnErr result (Becomes self.old self.new (seen_state self.old)) }
    {
        match self.next_place() {
            Some(place) => {
                self.extend_output(bytes)?;
                self.set_register(A0, Val::Int(n));
                self.enter(place);
                Ok(())
            }
            None => {
                self.fault(NO_BLOCK);
                Ok(())
            }
        }
    }

    /// Appends bytes to the output.
    fn extend_output(&mut self, bytes: &[u8]) -> Result<(), AllocError>
        ensures ok { let s = seen_state self.old in
            OnOk result (Becomes self.old self.new (record s { output = s.output ++ bytes.now })) }
        ensures err { OnErr result (Becomes self.old self.new (seen_state self.old)) }
        ensures place { self.new.place ≡ self.old.place }
    {
        match self.output.extend_from_slice(bytes) {
            Ok(()) => Ok(()),
            Err(error) => Err(error),
        }
    }

    /// Why the first of the `n` bytes at a1 that can't be read can't be.
    #[tactic(auto, using(list_checks::proofs::FirstLemmas::first_found))]
    fn unread(&self, n: u32) -> Option<u32>
        ensures { result ≡ first_below (unread (seen self.now) (seen_state self.now)) n }
    {
        let start = self.register(A1);
        for i in 0..n {
            if let Some(why) = self.unread_byte(&start, i) {
                return Some(why);
            }
        }
        None
    }

    /// Why byte `i` behind a value can't be read.
    fn unread_byte(&self, start: &Val, i: u32) -> Option<u32>
        requires { IsOfGraph self.now.tables.graph start.now }
        ensures { result ≡ read_fault (byte_place (seen self.now) start.now i) }
    {
        match self.byte_place(start, i) {
            Spot::Nowhere(why) => Some(why),
            Spot::Fixed(_) | Spot::Object { .. } => None,
        }
    }

    /// The `n` bytes at a1, if they are plain numbers.
    fn plain_bytes(&self, n: u32) -> Result<Option<Vec<u8>>, AllocError>
        ensures { IfOk result (λ found. MatchOption found (plain_bytes (seen self.now) (seen_state self.now) n ≡ None) (λ bytes. plain_bytes (seen self.now) (seen_state self.now) n ≡ Some bytes.items)) }
    {
        let start = self.register(A1);
        let mut bytes = Vec::new(*self.output.allocator());
        for i in 0..n {
            match self.byte_behind_value(&start, i) {
                Some(byte) => bytes.push(byte)?,
                None => return Ok(None),
            }
        }
        Ok(Some(bytes))
    }

    /// Byte `i` behind a value, if it is a plain number.
    fn byte_behind_value(&self, start: &Val, i: u32) -> Option<u8>
        requires { IsOfGraph self.now.tables.graph start.now }
        ensures { result ≡ plain_of (cell_at (seen_state self.now) (byte_place (seen self.now) start.now i) 0) }
    {
        let spot = self.byte_place(start, i);
        match self.cell_at(&spot, 0) {
            Cell::Byte(byte) => Some(byte),
            Cell::Part { .. } | Cell::Mist => None,
        }
    }

    /// Puts the next bytes of the input, at most a2, at a1.
    fn read_in(&mut self) -> Result<(), AllocError>
        ensures ok { let s = seen_state self.old in
            OnOk result (Becomes self.old self.new (reads (seen self.old) s (a2 s))) }
        ensures err { OnErr result (Becomes self.old self.new (seen_state self.old)) }
    {
        match self.register(A2) {
            Val::Int(asked) => self.read_bytes(self.input_count(asked)),
            _ => {
                self.fault(NO_NUMBER);
                Ok(())
            }
        }
    }

    /// How many bytes of the input a call that asks for `asked` takes.
    fn input_count(&self, asked: u32) -> u32
        ensures count { result ≡ consumed_count (seen_state self.now) asked }
        ensures left { self.now.consumed + result ≤ length self.now.input.items }
    {
        (asked as usize).min(self.input.len() - self.consumed) as u32
    }

    /// Puts the next `n` bytes of the input at a1.
    fn read_bytes(&mut self, n: u32) -> Result<(), AllocError>
        requires { self.old.consumed + n ≤ length self.old.input.items }
        ensures ok { OnOk result (Becomes self.old self.new (reads_into (seen self.old) (seen_state self.old) n (first_below (unwritten (seen self.old) (seen_state self.old)) n))) }
        ensures err { OnErr result (Becomes self.old self.new (seen_state self.old)) }
    {
        match self.unwritten(n) {
            Some(why) => {
                self.fault(why);
                Ok(())
            }
            None => self.take_bytes(n),
        }
    }

    /// Why the first of the `n` bytes at a1 that can't be written can't be.
    #[tactic(auto, using(list_checks::proofs::FirstLemmas::first_found))]
    fn unwritten(&self, n: u32) -> Option<u32>
        ensures { result ≡ first_below (unwritten (seen self.now) (seen_state self.now)) n }
    {
        let start = self.register(A1);
        for i in 0..n {
            if let Some(why) = self.unwritten_byte(&start, i) {
                return Some(why);
            }
        }
        None
    }

    /// Why byte `i` behind a value can't be written.
    fn unwritten_byte(&self, start: &Val, i: u32) -> Option<u32>
        requires { IsOfGraph self.now.tables.graph start.now }
        ensures { result ≡ write_fault (seen self.now) (byte_place (seen self.now) start.now i) }
    {
        let spot = self.byte_place(start, i);
        self.write_fault(&spot)
    }

    /// Puts them where they can be written, and answers their number.
    fn take_bytes(&mut self, n: u32) -> Result<(), AllocError>
        requires left { self.old.consumed + n ≤ length self.old.input.items }
        requires room { first_below (unwritten (seen self.old) (seen_state self.old)) n ≡ None }
        ensures ok { OnOk result (Becomes self.old self.new (answered (seen self.old) (seen_state self.old) (with_input (seen self.old) (seen_state self.old) n) n)) }
        ensures err { OnErr result (Becomes self.old self.new (seen_state self.old)) }
    {
        match self.next_place() {
            Some(place) => {
                self.take_input(n)?;
                self.set_register(A0, Val::Int(n));
                self.enter(place);
                Ok(())
            }
            None => {
                self.fault(NO_BLOCK);
                Ok(())
            }
        }
    }

    /// Moves the next `n` bytes of the input to a1.
    fn take_input(&mut self, n: u32) -> Result<(), AllocError>
        requires left { self.old.consumed + n ≤ length self.old.input.items }
        requires room { first_below (unwritten (seen self.old) (seen_state self.old)) n ≡ None }
        ensures ok { OnOk result (Becomes self.old self.new (with_input (seen self.old) (seen_state self.old) n)) }
        ensures err { OnErr result (Becomes self.old self.new (seen_state self.old)) }
        ensures place { self.new.place ≡ self.old.place }
    {
        match self.put_input(n) {
            Ok(()) => {
                self.consumed += n as usize;
                Ok(())
            }
            Err(error) => Err(error),
        }
    }

    /// Puts the next `n` bytes of the input at a1; they stay in the input.
    fn put_input(&mut self, n: u32) -> Result<(), AllocError>
        requires left { self.old.consumed + n ≤ length self.old.input.items }
        requires room { first_below (unwritten (seen self.old) (seen_state self.old)) n ≡ None }
        ensures ok { let s = seen_state self.old in
            OnOk result (Becomes self.old self.new (put_input (seen self.old) s (a1 s) 0 (take n s.input))) }
        ensures err { OnErr result (Becomes self.old self.new (seen_state self.old)) }
        ensures place { self.new.place ≡ self.old.place }
        ensures consumed { self.new.consumed ≡ self.old.consumed }
        ensures input { self.new.input ≡ self.old.input }
    {
        if n == 0 {
            return Ok(());
        }
        let start = self.register(A1);
        match self.input_cells(n) {
            Ok(cells) => self.put_from(&start, &cells),
            Err(error) => Err(error),
        }
    }

    /// Puts cells from a value on, where they can be written.
    fn put_from(&mut self, start: &Val, cells: &[Cell]) -> Result<(), AllocError>
        requires some { 0 < length cells.now }
        requires room { HasRoom (seen self.old) start.now (length cells.now) }
        requires named { IsOfGraph self.old.tables.graph start.now }
        requires of { All (IsCellOfGraph self.old.tables.graph) cells.now }
        ensures ok { OnOk result (Becomes self.old self.new (stored_from (seen_state self.old) start.now cells.now)) }
        ensures err { OnErr result (Becomes self.old self.new (seen_state self.old)) }
        ensures place { self.new.place ≡ self.old.place }
        ensures consumed { self.new.consumed ≡ self.old.consumed }
        ensures input { self.new.input ≡ self.old.input }
    {
        match *start {
            Val::Int(at) => self.put_fixed(at, cells),
            Val::Addr { obj, off } => self.put_inside(obj, off, cells),
            _ => Ok(()),
        }
    }

    /// The next `n` bytes of the input as cells.
    fn input_cells(&self, n: u32) -> Result<Vec<Cell>, AllocError>
        requires { self.now.consumed + n ≤ length self.now.input.items }
        ensures { IfOk result (λ cells. cells.items ≡ byte_cells (take n (drop self.now.consumed self.now.input.items))) }
    {
        let from = self.consumed;
        let alloc = *self.input.allocator();
        self.input[from..from + n as usize]
            .iter()
            .map(|byte| Cell::Byte(*byte))
            .collect(alloc)
    }
}
