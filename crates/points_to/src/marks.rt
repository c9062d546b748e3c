ghost use Rattle.std.specs.Prelude.{◌≡◌, ◌+◌, ℕ, OnOk};
ghost use Rattle.points_to.specs.Tables.{AreKept};

use std::alloc::AllocError;

/// Keeps a node behind those before it, if it has a mark.
pub(crate) fn keep(
    nodes: &mut Vec<u32>,
    words: &mut Vec<u64>,
    node: u32,
    word: u64,
) -> Result<(), AllocError>
    ensures { OnOk result ((read : ℕ → ℕ) → word ≡ read node → AreKept read node nodes.old.items words.old.items → AreKept read (node + 1) nodes.new.items words.new.items) }
{
    if word == 0 {
        return Ok(());
    }
    nodes.push(node)?;
    words.push(word)?;
    Ok(())
}
