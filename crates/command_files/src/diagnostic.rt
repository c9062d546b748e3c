use crate::printing::put_piece;
use command_language::CommandFault;
use shelf_io::Sink;
use std::alloc::{AllocError, Global};

/// A fault whose fault line is ready, so that telling it takes no memory.
#[derive(Drop)]
pub enum Diagnostic {
    Ready { status: u8, line: String },
    Memory,
}

impl Diagnostic {
    ghost use Rattle.std.specs.Prelude.{◌≡◌, ◌⊎◌, IfOk};
    ghost use Rattle.command_files.specs.Diagnostic.{PutsLine, IsDiagnosticOf, IsDiagnosticOrMemory, rejected_status, rejected_line};

    /// Makes the fault line.
    pub fn try_new(alloc: Global, fault: &CommandFault) -> Result<Diagnostic, AllocError>
        ensures { IfOk result (IsDiagnosticOf fault.now) }
    {
        let line = fault.line(alloc)?;
        Ok(Diagnostic::Ready {
            status: fault.status(),
            line,
        })
    }

    /// Makes the fault line, or that of want of memory where it can't be made.
    pub fn new(alloc: Global, fault: &CommandFault) -> Diagnostic
        ensures { IsDiagnosticOrMemory fault.now result }
    {
        match Diagnostic::try_new(alloc, fault) {
            Ok(diagnostic) => diagnostic,
            Err(_) => Diagnostic::Memory,
        }
    }

    /// Puts the fault line, and gives the status. A fault of the sink changes no status.
    pub fn tell<K: Sink>(&self, out: &mut K) -> u8
        ensures status { result ≡ rejected_status self.now }
        ensures line { PutsLine (rejected_line self.now) (K.view out.old) (K.view out.new) }
    {
        let _ = put_piece(out, self.line().as_bytes());
        self.status()
    }

    fn status(&self) -> u8
        ensures { result ≡ rejected_status self.now }
    {
        match self {
            Diagnostic::Ready { status, .. } => *status,
            Diagnostic::Memory => 9,
        }
    }

    fn line(&self) -> &str
        ensures { result.now ≡ rejected_line self.now }
    {
        match self {
            Diagnostic::Ready { line, .. } => line.as_str(),
            Diagnostic::Memory => "error 9 memory 0 0\n",
        }
    }
}
