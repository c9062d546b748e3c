//! The failed calls of a shelf. The memory of an entry is taken before the call is tried.
ghost use Rattle.std.specs.Prelude.{◌≡◌, [], ◌∷◌, ◌++◌, IfOk, OnOk, string_bytes};

use crate::shelves::CallKind;
use std::alloc::{AllocError, Global};

/// A call that failed.
#[derive(Drop)]
pub(crate) struct FailedCall {
    kind: CallKind,
    name: String,
}

/// The failed calls of a shelf, oldest first, and its count of wants.
#[derive(Drop)]
pub(crate) struct FaultLog {
    alloc: Global,
    calls: Vec<FailedCall>,
    wants: u64,
}

impl FaultLog {
    ghost use Rattle.shelf_io.specs.{Counts.{Rose}, FaultLog.{call_of, failed_calls, HasRoom, SameLog}};

    /// A log of no call.
    pub(crate) fn new(alloc: Global) -> FaultLog
        ensures calls { failed_calls result ≡ [] }
        ensures wants { result.wants ≡ 0 }
    {
        FaultLog {
            alloc,
            calls: Vec::new(alloc),
            wants: 0,
        }
    }

    /// The allocator that the log was made with.
    pub(crate) fn alloc(&self) -> Global {
        self.alloc
    }

    /// Makes the entry of a call, and room for it, so that `push` needs no memory.
    pub(crate) fn entry(&mut self, kind: CallKind, name: &str) -> Result<FailedCall, AllocError>
        ensures entry { IfOk result (λ call. call_of call ≡ (kind, name.now)) }
        ensures room { OnOk result (HasRoom self.new) }
        ensures same { SameLog self.old self.new }
    {
        let name = String::from_str(self.alloc, name)?;
        self.calls.reserve(1)?;
        Ok(FailedCall { kind, name })
    }

    /// Appends the entry of a call that failed.
    pub(crate) fn push(&mut self, call: FailedCall)
        requires { HasRoom self.old }
        ensures calls { failed_calls self.new ≡ failed_calls self.old ++ call_of call ∷ [] }
        ensures wants { self.new.wants ≡ self.old.wants }
    {
        self.calls.push(call).unwrap();
    }

    /// Counts a write that wanted memory.
    pub(crate) fn count_want(&mut self)
        ensures calls { failed_calls self.new ≡ failed_calls self.old }
        ensures wants { Rose self.old.wants self.new.wants }
    {
        self.wants = self.wants.saturating_add(1);
    }
}
