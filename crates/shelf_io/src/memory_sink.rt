//! A sink in memory, whose failing puts are chosen beforehand.
ghost use Rattle.std.specs.Prelude.{◌≡◌, [], ◌≤◌, vec_len, vec_capacity, is_err, OnErr};

use crate::sinks::{Sink, SinkFault};

/// A sink in memory. A put fails where its number, counted from 0, was listed beforehand, or where
/// its bytes don't fit.
#[derive(Drop)]
pub struct MemSink {
    bytes: Vec<u8>,
    limit: usize,
    failing: Vec<u64>,
    puts: u64,
    faults: u64,
    ghost kept: { vec_len bytes ≤ limit },
    ghost room: { limit ≤ vec_capacity bytes },
}

impl MemSink {
    ghost use Rattle.shelf_io.specs.MemSink.{sink_bytes, refuses, IsMade};

    /// A sink that keeps at most the capacity of an empty vector, in bytes, and fails at the listed
    /// puts.
    pub fn new(capacity: Vec<u8>, failing: Vec<u64>) -> MemSink
        requires { capacity.items ≡ [] }
        ensures { IsMade result (vec_capacity capacity) failing.items }
    {
        MemSink {
            limit: capacity.capacity(),
            bytes: capacity,
            failing,
            puts: 0,
            faults: 0,
        }
    }

    /// Whether the next put fails with this piece.
    fn refuses(&self, piece: &[u8]) -> bool
        ensures { result ≡ refuses self.now piece.now }
    {
        self.failing.contains(&self.puts) || self.limit - self.bytes.len() < piece.len()
    }

    /// The bytes so far.
    pub fn bytes(&self) -> &[u8]
        ensures { result.now ≡ sink_bytes self.now }
    {
        &self.bytes
    }
}

impl Sink for MemSink {
    ghost use Rattle.shelf_io.specs.{Sink.{Puts}, MemSink.{sink_bytes, sink_view, refuses, CountsPut}};

    ghost view = { λ sink. sink_view sink };

    fn put(&mut self, bytes: &[u8]) -> Result<(), SinkFault>
        ensures answer { is_err result ≡ refuses self.old bytes.now }
        ensures puts { Puts bytes.now result (sink_view self.old) (sink_view self.new) }
        ensures err { OnErr result (sink_bytes self.new ≡ sink_bytes self.old) }
        ensures count { CountsPut self.old self.new }
    {
        let is_refused = self.refuses(bytes);
        self.puts = self.puts.saturating_add(1);
        if is_refused {
            self.faults = self.faults.saturating_add(1);
            return Err(SinkFault::Failed);
        }
        self.bytes.extend_from_slice(bytes).unwrap();
        Ok(())
    }
}
