ghost use Rattle.std.specs.Prelude.{◌≡◌, ℕ, ◌<◌, ◌≤◌, length, slice_index, IfOk};
ghost use Rattle.std.proofs.Common.{replicate};
ghost use Rattle.placement_programme.specs.Views.{plain_side};
ghost use Rattle.certificate_checker.specs.{Fixings.{fixing_of}, declared.fixings.Fixing.TheVariants.{Zero, One, Free}, Shows.{all_free}, Tallies.{AreTallies, IsAssignmentOf, HasRoomFor, Fixes}};

use crate::columns::{gain_of_var, weights_of_var};
use crate::fixings::{Fixing, fixing_of};
use crate::loads::{add_weights, loads_of, subtract_weights};
use crate::tallying::{count_free, ones_gain, open_gains};
use placement_programme::Side;
use std::alloc::{AllocError, Global};

/// A partial assignment of a side, with the sums over it that each change keeps: so a node takes no pass over all variables.
#[derive(Drop)]
pub struct Assignment {
    /// A mark a variable.
    pub marks: Vec<Fixing>,
    /// What the variables weigh in each row that are fixed to one.
    pub loads: Vec<u64>,
    /// What these gain, in the units of the board's prices.
    pub gains: u128,
    /// What the variables gain that aren't fixed to zero: nothing below gains more.
    pub bound: u128,
    /// How many variables aren't fixed.
    pub free_count: usize,
}

fn free_all(marks: &mut [Fixing])
    ensures { marks.new ≡ replicate (length marks.old) Free }
{
    marks.fill(Fixing::Free);
}

fn unload(loads: &mut [u64])
    ensures values { (row : ℕ) → slice_index loads.new row ≡ 0 }
    ensures room { length loads.new ≡ length loads.old }
{
    loads.fill(0);
}

impl Assignment {
    /// The assignment of some marks.
    pub fn of(alloc: Global, side: &Side, marks: Vec<Fixing>) -> Result<Assignment, AllocError>
        requires { length (plain_side side.now).vars ≤ length marks.items }
        ensures tallies { IfOk result (AreTallies (plain_side side.now)) }
        ensures marks { IfOk result (λ a. a.marks.items ≡ marks.items) }
    {
        let loads = loads_of(alloc, side, &marks)?;
        let gains = ones_gain(side, &marks);
        let bound = open_gains(side, &marks);
        let free_count = count_free(side, &marks);
        Ok(Assignment {
            marks,
            loads,
            gains,
            bound,
            free_count,
        })
    }

    /// Fixes a variable to zero that is fixed to one.
    fn take_off(&mut self, side: &Side, number: usize)
        requires tallies { AreTallies (plain_side side.now) self.old }
        requires number { number < length (plain_side side.now).vars }
        requires one { fixing_of self.old.marks.items number ≡ One }
        ensures { Fixes (plain_side side.now) number Zero self.old self.new }
    {
        subtract_weights(&mut self.loads, weights_of_var(side, number));
        let gain = gain_of_var(side, number);
        self.gains -= gain;
        self.bound -= gain;
        self.marks[number] = Fixing::Zero;
    }

    /// Fixes a variable to zero.
    pub fn fix_zero(&mut self, side: &Side, number: usize)
        requires tallies { AreTallies (plain_side side.now) self.old }
        requires number { number < length (plain_side side.now).vars }
        ensures { Fixes (plain_side side.now) number Zero self.old self.new }
    {
        match fixing_of(&self.marks, number) {
            Fixing::Zero => self.marks[number] = Fixing::Zero,
            Fixing::One => self.take_off(side, number),
            Fixing::Free => {
                self.marks[number] = Fixing::Zero;
                self.bound -= gain_of_var(side, number);
                self.free_count -= 1;
            }
        }
    }

    /// Fixes a variable to one.
    pub fn fix_one(&mut self, side: &Side, number: usize)
        requires tallies { AreTallies (plain_side side.now) self.old }
        requires number { number < length (plain_side side.now).vars }
        ensures { Fixes (plain_side side.now) number One self.old self.new }
    {
        self.fix_zero(side, number);
        add_weights(&mut self.loads, weights_of_var(side, number));
        let gain = gain_of_var(side, number);
        self.gains += gain;
        self.bound += gain;
        self.marks[number] = Fixing::One;
    }

    /// Frees a variable.
    pub fn free(&mut self, side: &Side, number: usize)
        requires tallies { AreTallies (plain_side side.now) self.old }
        requires number { number < length (plain_side side.now).vars }
        ensures { Fixes (plain_side side.now) number Free self.old self.new }
    {
        self.fix_zero(side, number);
        self.bound += gain_of_var(side, number);
        self.free_count += 1;
        self.marks[number] = Fixing::Free;
    }

    /// Fixes a variable, or frees it.
    pub fn fix(&mut self, side: &Side, number: usize, fixing: Fixing)
        requires tallies { AreTallies (plain_side side.now) self.old }
        requires number { number < length (plain_side side.now).vars }
        ensures { Fixes (plain_side side.now) number fixing self.old self.new }
    {
        match fixing {
            Fixing::Zero => self.fix_zero(side, number),
            Fixing::One => self.fix_one(side, number),
            Fixing::Free => self.free(side, number),
        }
    }

    /// Frees all variables, whatever was fixed before.
    pub(crate) fn restart(&mut self, side: &Side)
        requires { HasRoomFor (plain_side side.now) self.old }
        ensures exact { IsAssignmentOf (plain_side side.now) self.new }
        ensures marks { self.new.marks.items ≡ all_free (plain_side side.now) }
    {
        free_all(&mut self.marks);
        unload(&mut self.loads);
        self.gains = 0;
        self.bound = open_gains(side, &self.marks);
        self.free_count = count_free(side, &self.marks);
    }
}
