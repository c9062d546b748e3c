ghost use Rattle.std.specs.Prelude.{◌≡◌, ◌<◌, ◌↔◌, IsTrue, length, IfOk, OnOk};
ghost use Rattle.placement_programme.specs.Views.{plain_side};
ghost use Rattle.certificate_checker.specs.{Fixings.{fixing_of}, Shows.{all_free}, declared.fixings.Fixing.TheVariants.{One, Free}};

use crate::columns::var_count;
use placement_programme::Side;
use std::alloc::{AllocError, Global};

/// How a node of the search fixes a variable.
#[derive(Clone, Copy, PartialEq, Eq)]
pub enum Fixing {
    /// It isn't taken.
    Zero,
    /// It is taken.
    One,
    /// It isn't fixed.
    Free,
}

/// How a variable is fixed.
pub fn fixing_of(marks: &[Fixing], number: usize) -> Fixing
    requires { number < length marks.now }
    ensures { result ≡ fixing_of marks.now number }
{
    marks[number]
}

/// Whether a variable is fixed to one.
pub fn is_one(marks: &[Fixing], number: usize) -> bool
    requires { number < length marks.now }
    ensures { IsTrue result ↔ (fixing_of marks.now number ≡ One) }
{
    matches!(fixing_of(marks, number), Fixing::One)
}

/// Whether a variable isn't fixed.
pub fn is_free(marks: &[Fixing], number: usize) -> bool
    requires { number < length marks.now }
    ensures { IsTrue result ↔ (fixing_of marks.now number ≡ Free) }
{
    matches!(fixing_of(marks, number), Fixing::Free)
}

/// A side's variables, all free.
pub fn free_marks(alloc: Global, side: &Side) -> Result<Vec<Fixing>, AllocError>
    ensures { IfOk result (λ marks. marks.items ≡ all_free (plain_side side.now)) }
{
    vec![in alloc; Fixing::Free; var_count(side)]
}
