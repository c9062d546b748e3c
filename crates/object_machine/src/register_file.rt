ghost use Rattle.std.specs.Prelude.{◌≡◌, true, slice_index, slice_index_or};

use cell_values::Val;

/// The registers of the machine. Numbers are kept apart from other values, so that they are read and written at once.
#[derive(Drop)]
pub(crate) struct RegisterFile {
    // whether each holds a number
    numeric: [bool; 32],
    numbers: [u32; 32],
    // what the others hold
    values: [Val; 32],
    ghost zero_numeric: { slice_index_or numeric 0 true ≡ true },
    ghost zero: { slice_index numbers 0 ≡ 0 },
}

impl RegisterFile {
    ghost use Rattle.std.specs.Prelude.{◌≡◌, ◌<◌};
    ghost use Rattle.cell_values.specs.declared.values.Val.TheVariants.{Int};
    ghost use Rattle.object_machine.specs.{State.{value, with_value}, Registers.{registers_of}};

    /// Registers that all hold 0.
    pub(crate) fn new() -> RegisterFile
        ensures { registers_of result ≡ λ _. Int 0 }
    {
        RegisterFile {
            numeric: [true; 32],
            numbers: [0; 32],
            values: [Val::Int(0); 32],
        }
    }

    /// The value in a register.
    #[inline(always)]
    pub(crate) fn get(&self, k: u8) -> Val
        requires { k < 32 }
        ensures { result ≡ value (registers_of self.now) k }
    {
        let place = usize::from(k);
        if self.numeric[place] {
            Val::Int(self.numbers[place])
        } else {
            self.values[place]
        }
    }

    /// Puts a value into a register.
    #[inline(always)]
    pub(crate) fn set(&mut self, rd: u8, v: Val)
        requires { rd < 32 }
        ensures { registers_of self.new ≡ with_value (registers_of self.old) rd v }
    {
        // without a test of `rd`: x0 is 0 again at once
        let place = usize::from(rd);
        match v {
            Val::Int(n) => {
                self.numeric[place] = true;
                self.numbers[place] = n;
                self.numbers[0] = 0;
            }
            _ => {
                self.numeric[place] = false;
                self.values[place] = v;
                self.numeric[0] = true;
            }
        }
    }
}
