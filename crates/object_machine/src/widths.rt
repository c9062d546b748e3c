ghost use Rattle.std.specs.Prelude.{◌≡◌};
ghost use Rattle.rv32im.specs.Acts.{load_width, store_width};
ghost use Rattle.object_machine.specs.Spots.{IsWidth};

use rv32im::{LoadKind, StoreKind};

/// How many bytes a load takes.
#[inline(always)]
pub(crate) fn load_bytes(kind: LoadKind) -> u32
    ensures value { result ≡ load_width kind }
    ensures width { IsWidth result }
{
    match kind {
        LoadKind::Lb | LoadKind::Lbu => 1,
        LoadKind::Lh | LoadKind::Lhu => 2,
        LoadKind::Lw => 4,
    }
}

/// How many bytes a store puts.
#[inline(always)]
pub(crate) fn store_bytes(kind: StoreKind) -> u32
    ensures value { result ≡ store_width kind }
    ensures width { IsWidth result }
{
    match kind {
        StoreKind::Sb => 1,
        StoreKind::Sh => 2,
        StoreKind::Sw => 4,
    }
}
