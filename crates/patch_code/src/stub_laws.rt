// Laws of the definitions: functions that do nothing, whose contracts are what is proved.
ghost use Rattle.patch_code.specs.{StubLaws.{StartRuns, PlainStubRuns, PartsStand}, Served.{OverlayStands, PadsLead}};

/// Where the words of a start stub stand, with any words behind them, the flat machine copies each job's bytes in order, clears
/// x5, x7, x28 and x31 and is at the entry after just `start_run` steps, which fetch the stub's words and make the accesses of
/// the jobs. All else is as it was.
pub fn start_runs()
    ensures { StartRuns }
{}

/// Where the two words of a plain stub stand, the flat machine runs them without an access and is
/// where the stub goes. All registers but the stub's own are as they were.
pub fn plain_stub_runs()
    ensures { PlainStubRuns }
{}

/// Where the words of a plan's code stand in memory, each stub and each image stands at its place.
pub fn parts_stand()
    ensures { PartsStand }
{}

/// The same for the code of a plan with regions: each stub, the routine and each image stand at their places.
pub fn overlay_stands()
    ensures { OverlayStands }
{}

/// From the pad of a stub with a region control comes to the stub's body, whatever the registers hold. Behind the pad run
/// words of the stub before its body, and of the routine, alone. Where the stub's region is current, nothing else changes
/// but the stub's own register. Where another is, the routine has made the switch from that one to the stub's: memory is as
/// the jobs of that switch leave it, but for the control words, and the code is as it was.
pub fn pads_lead()
    ensures { PadsLead }
{}
