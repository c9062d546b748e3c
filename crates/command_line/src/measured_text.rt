use crate::opened::Opened;
use printed_lines::Text;
use relinking::MeasuredEnd;

/// What a command that measures a program prints, before it is printed.
#[derive(Drop)]
pub struct MeasuredText<'a> {
    pub text: Text<'a>,
    /// How the measured run ended.
    pub end: MeasuredEnd,
    pub opened: Opened<'a>,
}
