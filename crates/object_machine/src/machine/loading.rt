use crate::events::Access;
use crate::extending::{half_of, plain_byte, signed_byte, signed_half_of};
use crate::machine::Source;
use crate::spots::Spot;
use crate::widths::load_bytes;
use cell_values::{Cell, Val};
use rv32im::LoadKind;

impl Source {
    ghost use Rattle.std.specs.Prelude.{◌≡◌, ℕ, ◌+◌, ◌<◌};
    ghost use Rattle.rv32im.specs.{Acts.{load_width}, declared.instructions.Instr.{Instr}};
    ghost use Rattle.cell_values.specs.{Objects.{IsOfGraph}, Cells.{IsCellOfGraph}, Marks.{half_of_cells}};
    ghost use Rattle.object_machine.specs.{Memory.{cell_at, loaded_value}, Places.{read_fault}, Step.{loads_from, acts, access_by}, Spots.{where_of, HasByte, Spans}, Machine.{seen, seen_state, Becomes}};

    /// A load. Tells of its access.
    #[inline(always)]
    pub(super) fn load(&mut self, kind: LoadKind, rd: u8, rs1: u8, imm: i32) -> Option<Access>
        requires rd { rd < 32 }
        requires rs1 { rs1 < 32 }
        ensures state { let p = seen self.old in
            let s = seen_state self.old in
            Becomes self.old self.new (acts p s (Instr.Load kind rd rs1 imm) (p.site s.pc)) }
        ensures access { result ≡ access_by (seen self.old) (seen_state self.old) (Some (Instr.Load kind rd rs1 imm)) }
    {
        let spot = self.spot_of(load_bytes(kind), rs1, imm);
        let access = spot.access(false);
        self.load_from(kind, rd, &spot);
        access
    }

    /// A load from a place.
    #[inline(always)]
    fn load_from(&mut self, kind: LoadKind, rd: u8, spot: &Spot)
        requires rd { rd < 32 }
        requires spans { Spans self.old.tables (load_width kind) spot.now }
        ensures { Becomes self.old self.new (loads_from (seen self.old) (seen_state self.old) kind rd (where_of spot.now) (read_fault (where_of spot.now))) }
    {
        match *spot {
            Spot::Nowhere(why) => self.fault(why),
            Spot::Fixed(_) | Spot::Object { .. } => {
                let value = self.loaded(kind, spot);
                self.write(rd, value);
            }
        }
    }

    /// The value that a load takes from a place.
    #[inline(always)]
    pub(super) fn loaded(&self, kind: LoadKind, spot: &Spot) -> Val
        requires { Spans self.now.tables (load_width kind) spot.now }
        ensures value { result ≡ loaded_value kind (seen_state self.now) (where_of spot.now) }
        ensures of { IsOfGraph self.now.tables.graph result }
    {
        match kind {
            LoadKind::Lb => signed_byte(&self.cell_at(spot, 0)),
            LoadKind::Lbu => plain_byte(&self.cell_at(spot, 0)),
            LoadKind::Lh => signed_half_of(self.half_at(spot)),
            LoadKind::Lhu => half_of(self.half_at(spot)),
            LoadKind::Lw => self.word_at(spot),
        }
    }

    /// The value of the four cells from a place.
    #[inline(always)]
    fn word_at(&self, spot: &Spot) -> Val
        requires { Spans self.now.tables 4 spot.now }
        ensures value { result ≡ loaded_value LoadKind.Lw (seen_state self.now) (where_of spot.now) }
        ensures of { IsOfGraph self.now.tables.graph result }
    {
        match *spot {
            Spot::Fixed(at) => self.memory.word(at),
            Spot::Object { object, offset } => self.memory.word(self.home_of(object) + offset),
            Spot::Nowhere(_) => Val::Unknown,
        }
    }

    /// The halfword of the two cells from a place, if they are plain bytes.
    #[inline(always)]
    fn half_at(&self, spot: &Spot) -> Option<u16>
        requires { Spans self.now.tables 2 spot.now }
        ensures { let s = seen_state self.now in
            result ≡ half_of_cells (cell_at s (where_of spot.now) 0) (cell_at s (where_of spot.now) 1) }
    {
        match *spot {
            Spot::Fixed(at) => self.memory.half(at),
            Spot::Object { object, offset } => self.memory.half(self.home_of(object) + offset),
            Spot::Nowhere(_) => None,
        }
    }

    /// The cell `i` bytes behind a place.
    #[inline(always)]
    pub(super) fn cell_at(&self, spot: &Spot, i: u32) -> Cell
        requires { HasByte self.now.tables spot.now i }
        ensures value { result ≡ cell_at (seen_state self.now) (where_of spot.now) i }
        ensures of { IsCellOfGraph self.now.tables.graph result }
    {
        match *spot {
            Spot::Fixed(at) => self.memory.get(at + i),
            Spot::Object { object, offset } => {
                let home = self.tables.graph.objects[object as usize].home;
                self.memory.get(home + offset + i)
            }
            Spot::Nowhere(_) => Cell::Mist,
        }
    }
}
