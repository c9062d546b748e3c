ghost use Rattle.std.specs.Prelude.{◌≡◌, ℕ, ◌<◌, length, IsTrue, IsOk, OnOk, OnErr};
ghost use Rattle.cell_values.specs.Marks.{AreWhole, mark_of, MarksGrow};

use std::alloc::AllocError;

/// How many marks there are: words whose addresses are so many words apart share one.
const MARKS: usize = 0x1_0000;

/// Whether the word of an address has no mark.
#[inline(always)]
pub(crate) fn has_no_mark(marks: &Vec<u8>, at: u32) -> bool
    requires { AreWhole marks.now.items }
    ensures { IsTrue result → mark_of marks.now.items at ≡ 0 }
{
    marks.is_empty() || marks[at as usize / 4 % MARKS] == 0
}

/// Makes the marks, where there are none.
pub(crate) fn make_marks(marks: &mut Vec<u8>) -> Result<(), AllocError>
    requires { AreWhole marks.old.items }
    ensures whole { AreWhole marks.new.items }
    ensures same { (a : ℕ) → mark_of marks.new.items a ≡ mark_of marks.old.items a }
    ensures made { OnOk result (length marks.new.items ≡ 65536) }
    ensures fits { 0 < length marks.old.items → IsOk result }
{
    if marks.is_empty() {
        return marks.resize(MARKS, 0);
    }
    Ok(())
}

/// Marks the word of an address.
pub(crate) fn add_mark(marks: &mut Vec<u8>, at: u32)
    requires { length marks.old.items ≡ 65536 }
    ensures whole { length marks.new.items ≡ 65536 }
    ensures grow { MarksGrow marks.old.items marks.new.items }
    ensures mark { 0 < mark_of marks.new.items at }
{
    marks[at as usize / 4 % MARKS] = 1;
}
