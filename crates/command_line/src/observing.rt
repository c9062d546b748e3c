use crate::delivery::PreparedResult;
use crate::input_texts::InputTexts;
use command_language::CommandFault;

/// Who is shown what a command read and made.
pub trait Observer {
    /// Looks at what stands under the names that a command read, and at its result, or why it has none, before any of it is
    /// written. Each command is shown once.
    fn observe(
        &mut self,
        inputs: &InputTexts<'_>,
        made: Result<&PreparedResult<'_>, &CommandFault>,
    );
}

/// One who looks at nothing.
#[derive(Clone, Copy)]
pub struct NoObserver;

impl Observer for NoObserver {
    fn observe(
        &mut self,
        _inputs: &InputTexts<'_>,
        _made: Result<&PreparedResult<'_>, &CommandFault>,
    ) {}
}
