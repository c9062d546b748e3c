use crate::origins::{Trace, UNKNOWN, combined, made_at, number, of_object, upper, with_immediate};
use crate::units::TracedUnit;
use explanation_texts::Way;
use object_graph::Graph;
use object_machine::Access;
use rv32im::{A0, A1, A2, A7, Instr, LoadKind, StoreKind};
use std::alloc::{AllocError, Global};

/// How many stored words are remembered at most, a power of 2.
const SLOTS: u32 = 262_144;

/// The number of the call that reads the input.
const READ: u32 = 63;

/// Where the values of a run come from. It may forget, and then knows less.
#[derive(Drop)]
pub(crate) struct Trail<'a> {
    registers: [Trace; 32],
    slots: Vec<Slot>,
    /// The objects that may move.
    graph: &'a Graph,
}

/// A stored word.
#[derive(Clone, Copy)]
struct Slot {
    address: u32,
    trace: Trace,
}

impl<'a> Trail<'a> {
    /// Nothing is known but the words of data that hold addresses.
    pub(crate) fn new(alloc: Global, graph: &'a Graph) -> Result<Trail<'a>, AllocError> {
        let empty = Slot {
            address: 1,
            trace: UNKNOWN,
        };
        let mut trail = Trail {
            registers: [number(0); 32],
            slots: vec![in alloc; empty; SLOTS as usize]?,
            graph,
        };
        for word in &graph.data_words {
            let trace = Trace {
                number: trail.address_in(word.object, word.offset),
                origin: Some(of_object(word.object, Way::Address)),
            };
            trail.store(word.at, trace);
        }
        Ok(trail)
    }

    /// The address of a byte of an object.
    fn address_in(&self, object: u32, offset: u32) -> Option<u32> {
        let object = self.graph.objects.get(object as usize)?;
        Some(object.home.wrapping_add(offset))
    }

    /// What is known of a register.
    pub(crate) fn register(&self, k: u8) -> Trace {
        if k == 0 {
            return number(0);
        }
        match self.registers.get(usize::from(k)) {
            Some(trace) => *trace,
            None => UNKNOWN,
        }
    }

    fn set(&mut self, k: u8, trace: Trace) {
        if let Some(register) = self.registers.get_mut(usize::from(k)) {
            *register = trace;
        }
    }

    /// The address that a load or a store of `rs1 + imm` has.
    pub(crate) fn address(&self, rs1: u8, imm: i32) -> Option<u32> {
        let base = self.register(rs1).number?;
        Some(base.wrapping_add_signed(imm))
    }

    fn slot(address: u32) -> usize {
        (address / 4 % SLOTS) as usize
    }

    fn store(&mut self, address: u32, trace: Trace) {
        if let Some(slot) = self.slots.get_mut(Trail::slot(address)) {
            *slot = Slot { address, trace };
        }
    }

    fn loaded(&self, address: u32) -> Trace {
        match self.slots.get(Trail::slot(address)) {
            Some(slot) if slot.address == address => slot.trace,
            _ => UNKNOWN,
        }
    }

    /// Follows a unit at an address that the machine performed, with its access to an object, if it made one. The JALR of a call of
    /// two words writes the register of its AUIPC again.
    pub(crate) fn follow(&mut self, at: u32, unit: &TracedUnit, access: Option<Access>) {
        match unit.instr {
            Some(Instr::Auipc { rd, .. }) if unit.words == 2 => {
                self.set(rd, number(at.wrapping_add(8)));
            }
            Some(Instr::Lui { rd, imm }) => self.set(rd, upper(imm << 12, None, unit.site)),
            Some(Instr::Auipc { rd, imm }) => {
                self.set(rd, upper(at.wrapping_add(imm << 12), Some(at), unit.site));
            }
            Some(Instr::Jal { rd, .. } | Instr::Jalr { rd, .. }) => {
                self.set(rd, number(at.wrapping_add(4)));
            }
            Some(Instr::Ecall) => self.follow_ecall(),
            Some(Instr::Load { kind, rd, rs1, imm }) => {
                let trace = self.load_trace(kind, self.accessed(access, rs1, imm));
                self.set(rd, trace);
            }
            Some(
                Instr::Store {
                    kind,
                    rs1,
                    rs2,
                    imm,
                },
            ) => self.follow_store(kind, self.accessed(access, rs1, imm), rs2),
            Some(Instr::OpImm { kind, rd, rs1, imm }) => {
                let trace = with_immediate(kind, self.register(rs1), imm, unit.site);
                self.set(rd, made_at(trace, at));
            }
            Some(Instr::OpReg { kind, rd, rs1, rs2 }) => {
                let trace = combined(kind, self.register(rs1), self.register(rs2));
                self.set(rd, made_at(trace, at));
            }
            _ => {}
        }
    }

    /// A call: what it reads takes the place of what was stored there.
    fn follow_ecall(&mut self) {
        let arguments = (
            self.register(A7).number,
            self.register(A1).number,
            self.register(A2).number,
        );
        if let (Some(READ), Some(start), Some(count)) = arguments {
            self.forget(start, count);
        }
        self.set(A0, UNKNOWN);
    }

    /// Forgets the words that have some bytes from an address on.
    fn forget(&mut self, start: u32, count: u32) {
        let words = count.min(SLOTS * 4) / 4 + 2;
        for k in 0..words {
            let address = (start & !3).wrapping_add(k.wrapping_mul(4));
            if let Some(slot) = self.slots.get_mut(Trail::slot(address)) {
                if slot.address == address {
                    slot.trace = UNKNOWN;
                }
            }
        }
    }

    /// Where an access to an object was, which the machine knows, or else one elsewhere.
    fn accessed(&self, access: Option<Access>, rs1: u8, imm: i32) -> Option<u32> {
        match access {
            Some(access) => self.address_in(access.object, access.offset),
            None => self.address(rs1, imm),
        }
    }

    fn load_trace(&self, kind: LoadKind, address: Option<u32>) -> Trace {
        match (kind, address) {
            (LoadKind::Lw, Some(address)) => self.loaded(address),
            (_, Some(address)) => part_of(self.loaded(address & !3)),
            (_, None) => UNKNOWN,
        }
    }

    fn follow_store(&mut self, kind: StoreKind, address: Option<u32>, rs2: u8) {
        let Some(address) = address else {
            return;
        };
        match kind {
            StoreKind::Sw => self.store(address, self.register(rs2)),
            StoreKind::Sb | StoreKind::Sh => {
                self.store(address & !3, part_of(self.register(rs2)));
            }
        }
    }
}

/// What is known of a part of a value.
fn part_of(trace: Trace) -> Trace {
    Trace {
        number: None,
        origin: trace.origin,
    }
}
