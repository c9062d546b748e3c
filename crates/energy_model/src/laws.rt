// Laws of the definitions: functions that do nothing, whose contracts are what is proved.
ghost use Rattle.energy_model.specs.{Overlay.{OverlayIsCounted, ObjectIsCounted, KeptIsCounted, PieceIsCounted}, Together.{SavesAsAlone}};

/// What overlay costs with nothing taken is what the tables of a profile count.
pub fn overlay_is_counted()
    ensures { OverlayIsCounted }
{
    rv32im::one_instruction();
}

/// What an object costs that is overlaid in a region is what the tables of a profile count.
pub fn object_is_counted()
    ensures { ObjectIsCounted }
{
    rv32im::one_instruction();
}

/// What an object costs that is kept for a pair of regions is what the tables of a profile count.
pub fn kept_is_counted()
    ensures { KeptIsCounted }
{
    rv32im::one_instruction();
}

/// What a piece costs with overlay, throughout or in a region, is what the tables of a profile count.
pub fn piece_is_counted()
    ensures { PieceIsCounted }
{
    rv32im::one_instruction();
}

/// An item saves with others, with which it has nothing in common, what it saves alone.
pub fn saves_as_alone()
    ensures { SavesAsAlone }
{
    rv32im::one_instruction();
}
