ghost use Rattle.std.specs.Prelude.{◌≡◌};

use crate::chosen::ChosenPlacement;
use crate::opened::Opened;
use printed_lines::Text;
use profile_runner::Profile;
use relinking::{MeasuredEnd, Relinked};

/// A relinked file with its certificate and the report on it, before any of it is written.
#[derive(Drop)]
pub struct RelinkedFile<'a> {
    /// Which choice was made, and why it is one of the best where that was shown.
    pub certificate: Vec<u8>,
    /// The file in which what was chosen has moved.
    pub file: Vec<u8>,
    /// How the choice was found, what it saves, and where stands what has moved, in lines.
    pub report: Text<'a>,
    /// How the measured run ended, where one alone was.
    pub end: Option<MeasuredEnd>,
    /// What was chosen.
    pub chosen: ChosenPlacement,
    pub opened: Opened<'a>,
}

/// The parts of a file that was relinked, with the report on it, and the profile and end of the measured run where one alone was.
pub fn relinked_file<'a>(
    opened: Opened<'a>,
    relinked: Relinked,
    report: Text<'a>,
    profile: Option<Profile>,
    end: Option<MeasuredEnd>,
) -> RelinkedFile<'a>
    ensures certificate { result.certificate ≡ relinked.certificate }
    ensures file { result.file ≡ relinked.result.bytes }
    ensures report { result.report ≡ report.entry }
    ensures end { result.end ≡ end }
{
    let result = relinked.result;
    let found = relinked.found;
    RelinkedFile {
        certificate: relinked.certificate,
        file: result.bytes,
        report,
        end,
        chosen: ChosenPlacement {
            programme: relinked.programme,
            choice: found.choice,
            profile,
        },
        opened,
    }
}
