ghost use Rattle.std.specs.Prelude.{◌≤◌, IfOk};
ghost use Rattle.placement_programme.specs.Views.{plain_programme, plain_choice};
ghost use Rattle.relinking.specs.FoundChoice.{IsFound, is_optimal};

use branch_bound::{Found, solve};
use certificate_checker::write_tree;
use placement_programme::Programme;
use shelf_io::Progress;
use std::alloc::{AllocError, Global};

/// A choice that was found of a programme, and the text of its certificate.
#[derive(Drop)]
pub struct Solution {
    pub found: Found,
    pub certificate: Vec<u8>,
}

/// Searches a programme for a choice of least energy, with a budget of so many nodes, at least 1, and writes the
/// certificate. It fails only where no memory was left.
pub fn find_choice(
    alloc: Global,
    programme: &Programme,
    nodes: u64,
    progress: &dyn Progress,
) -> Result<Solution, AllocError>
    requires { 1 ≤ nodes }
    ensures { IfOk result (λ s. IsFound (plain_programme programme.now) nodes (plain_choice s.found.choice) s.certificate.items (is_optimal s.found.status)) }
{
    let found = solve(alloc, programme, nodes, progress)?;
    let certificate = write_tree(alloc, &found.certificate)?;
    Ok(Solution { found, certificate })
}
