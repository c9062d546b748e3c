//! A sink takes bytes in pieces, as a terminal does.
ghost use Rattle.shelf_io.specs.Sink.{SinkView, Puts};

use thiserror::Error;

/// Why a piece wasn't put.
#[derive(Clone, Copy, Debug, Error)]
pub enum SinkFault {
    /// The outside failed.
    #[error("the put failed")]
    Failed,
}

/// A stream of bytes that only grows.
pub trait Sink {
    /// What is to be seen of the sink: the bytes so far, where it tells them, and how many puts
    /// failed. At 2^64 - 1 that count stays.
    ghost view: { Self → SinkView };

    /// Appends a piece. A fault comes only where the count of faults rose, and after it some prefix
    /// of the piece was appended.
    fn put(&mut self, bytes: &[u8]) -> Result<(), SinkFault>
        ensures { Puts bytes.now result (view self.old) (view self.new) };
}
