//! A sink over a writer: standard output, or one in memory.
ghost use Rattle.std.specs.Prelude.{◌≡◌};
ghost use Rattle.shelf_io.specs.OutSink.{Writes};

use crate::sinks::{Sink, SinkFault};
use std::io::{ErrorKind, Write};

/// A writer that holds nothing back, as `rt.stdout()`, as a sink. It tells the bytes that the writer
/// tells: those of standard output aren't told, and that they arrive there is trusted.
#[derive(Drop)]
pub struct OutSink<W> {
    out: W,
    faults: u64,
}

impl<W: Write> OutSink<W> {
    ghost use Rattle.shelf_io.specs.OutSink.{sink_writer, sink_faults};

    /// A sink over a writer, with no fault so far.
    pub fn new(out: W) -> OutSink<W>
        ensures writer { sink_writer result ≡ out }
        ensures faults { sink_faults result ≡ 0 }
    {
        OutSink { out, faults: 0 }
    }
}

/// Writes a piece, in as many turns as the writer takes it. A write that takes nothing is a fault.
fn put_all<W: Write>(out: &mut W, piece: &[u8]) -> Result<(), SinkFault>
    ensures { Writes piece.now result (W.contents out.old) (W.contents out.new) }
{
    let mut done = 0;
    for _ in 0..u64::MAX {
        if done >= piece.len() {
            return Ok(());
        }
        match out.write(&piece[done..]) {
            Ok(0) => return Err(SinkFault::Failed),
            Ok(taken) => done += taken,
            Err(error) if error.kind() == ErrorKind::Interrupted => {}
            Err(_) => return Err(SinkFault::Failed),
        }
    }
    Err(SinkFault::Failed)
}

impl<W: Write> Sink for OutSink<W> {
    ghost use Rattle.shelf_io.specs.OutSink.{sink_view};

    ghost view = { λ sink. sink_view W.contents sink };

    fn put(&mut self, bytes: &[u8]) -> Result<(), SinkFault> {
        match put_all(&mut self.out, bytes) {
            Ok(()) => Ok(()),
            Err(fault) => {
                self.faults = self.faults.saturating_add(1);
                Err(fault)
            }
        }
    }
}
