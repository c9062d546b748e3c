ghost use Rattle.std.specs.Prelude.{◌≡◌, ◌∷◌, [], IfOk};
ghost use Rattle.reach_graph.specs.Reaching.{plain_rows};

use reach_graph::{Edge, propagate};
use std::alloc::{AllocError, Global};
use std::test::Fail;

/// Four nodes: 0 leads to 1 and lets marks 0 and 1 pass, 1 to 2 and back to 0 and lets mark 1 pass, 3 to 0 and lets all
/// pass.
fn rows(alloc: Global) -> Result<Vec<Vec<Edge>>, AllocError>
    ensures { IfOk result (λ rows. plain_rows rows.items ≡ (record { to = 1; mask = 3 } ∷ []) ∷ (record { to = 2; mask = 2 } ∷ record { to = 0; mask = 2 } ∷ []) ∷ [] ∷ (record { to = 0; mask = 18446744073709551615 } ∷ []) ∷ []) }
{
    let first = vec![in alloc; Edge { to: 1, mask: 3 }]?;
    let second = vec![in alloc; Edge { to: 2, mask: 2 }, Edge { to: 0, mask: 2 }]?;
    let last = vec![in alloc;
        Edge {
            to: 0,
            mask: u64::MAX
        },
    ]?;
    Ok(vec![in alloc; first, second, Vec::new(alloc), last]?)
}

#[test]
fn marks_pass_where_they_may(rt: HostRuntime) -> Result<(), Fail> {
    let rows = rows(rt.alloc())?;
    let mut marks: [u64; 4] = [0b101, 0b010, 0, 0];
    propagate(rt.alloc(), &rows, &mut marks)?;
    assert_eq!(rt; marks, [0b111, 0b011, 0b010, 0]);
    let mut marks: [u64; 4] = [0, 0, 0, 1 << 63];
    propagate(rt.alloc(), &rows, &mut marks)?;
    assert_eq!(rt; marks, [1 << 63, 0, 0, 1 << 63]);
    Ok(())
}
