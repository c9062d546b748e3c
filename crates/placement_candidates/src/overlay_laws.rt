// Laws of the definitions: functions that do nothing, whose contracts are what is proved.
ghost use Rattle.placement_candidates.specs.{Overlaid.{OffSideStays}, Whole.{OverlayAddsUp, WholeEnergyIsOfTheRun}};

/// The programme with overlay says of the side without it what the programme of static items says.
pub fn off_side_stays()
    ensures { OffSideStays }
{}

/// With overlay, what items save together that have nothing in common is what each saves alone.
pub fn overlay_adds_up()
    ensures { OverlayAddsUp }
{
    rv32im::one_instruction();
}

/// The energy of a feasible choice of either side of the programme with overlay is that of the run with what it takes.
pub fn whole_energy_is_of_the_run()
    ensures { WholeEnergyIsOfTheRun }
{
    rv32im::one_instruction();
}
