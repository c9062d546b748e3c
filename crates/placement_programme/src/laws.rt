ghost use Rattle.placement_programme.specs.Laws.{NothingIsFeasible, NothingFits, NumbersAscend, MoreLoad, FewerFit, WeightsAreInRows, ExampleRows, ExampleWeights, RegionRows, RegionWeights, TwinRows, TwinWeights};

/// The empty choice is feasible and gains 0.
pub fn nothing_is_feasible()
    ensures { NothingIsFeasible }
{}

/// To take nothing fits every side.
pub fn nothing_fits()
    ensures { NothingFits }
{}

/// Numbers that ascend within bounds are those that increase strictly, each below the bound.
pub fn numbers_ascend()
    ensures { NumbersAscend }
{}

/// What takes more variables loads each row at least as much.
pub fn more_load()
    ensures { MoreLoad }
{}

/// Where taken variables fit, so do fewer of them.
pub fn fewer_fit()
    ensures { FewerFit }
{}

/// The weights of a candidate stand in rows of its side, at most one a row.
pub fn weights_are_in_rows()
    ensures { WeightsAreInRows }
{}

/// The capacities of a file of six blocks and one object, on a scratchpad of 256 bytes.
pub fn example_rows()
    ensures { ExampleRows }
{}

/// What a table of 256 bytes weighs there.
pub fn example_weights()
    ensures { ExampleWeights }
{}

/// The capacities of a file of three blocks, two objects and two regions, on a scratchpad of 1,024 bytes.
pub fn region_rows()
    ensures { RegionRows }
{}

/// What a static table, an overlaid one that is written, and a piece on each side weigh there.
pub fn region_weights()
    ensures { RegionWeights }
{}

/// The capacities there where the board asks for twins.
pub fn twin_rows()
    ensures { TwinRows }
{}

/// What a table weighs there that both regions keep, and one that is written.
pub fn twin_weights()
    ensures { TwinWeights }
{}
