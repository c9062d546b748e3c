use crate::events::Access;
use crate::machine::Source;
use crate::machine::moving::NO_BLOCK;
use crate::spots::Spot;
use crate::widths::store_bytes;
use cell_values::{Cell, Val};
use rv32im::StoreKind;
use std::alloc::AllocError;

impl Source {
    ghost use Rattle.std.specs.Prelude.{◌≡◌, ℕ, ◌+◌, ◌<◌, take, length, IfOk, OnOk, OnErr};
    ghost use Rattle.std.specs.List.{All};
    ghost use Rattle.rv32im.specs.{Acts.{store_width}, declared.instructions.Instr.{Instr}};
    ghost use Rattle.cell_values.specs.{Objects.{IsOfGraph, object_of}, Cells.{IsCellOfGraph, split}};
    ghost use Rattle.object_machine.specs.{Memory.{stored_at, stored_cells}, Flow.{falls_on}, Places.{InFixed, InObject, write_fault}, Step.{stores_to, acts, access_by}, Spots.{where_of, IsWidth, HasByte, Spans}, Machine.{seen, seen_state, Becomes}};

    /// A store. Tells of its access.
    #[inline(always)]
    pub(super) fn store(
        &mut self,
        kind: StoreKind,
        rs1: u8,
        rs2: u8,
        imm: i32,
    ) -> Result<Option<Access>, AllocError>
        requires rs1 { rs1 < 32 }
        requires rs2 { rs2 < 32 }
        ensures state { let p = seen self.old in
            let s = seen_state self.old in
            OnOk result (Becomes self.old self.new (acts p s (Instr.Store kind rs1 rs2 imm) (p.site s.pc))) }
        ensures access { IfOk result (λ access. access ≡ access_by (seen self.old) (seen_state self.old) (Some (Instr.Store kind rs1 rs2 imm))) }
        ensures err { OnErr result (Becomes self.old self.new (seen_state self.old)) }
    {
        let value = self.register(rs2);
        let spot = self.spot_of(store_bytes(kind), rs1, imm);
        let access = spot.access(true);
        match self.store_to(kind, &value, &spot) {
            Ok(()) => Ok(access),
            Err(error) => Err(error),
        }
    }

    /// A store to a place.
    #[inline(always)]
    fn store_to(&mut self, kind: StoreKind, value: &Val, spot: &Spot) -> Result<(), AllocError>
        requires spans { Spans self.old.tables (store_width kind) spot.now }
        requires of { IsOfGraph self.old.tables.graph value.now }
        ensures state { OnOk result (Becomes self.old self.new (stores_to (seen self.old) (seen_state self.old) kind value.now (where_of spot.now) (write_fault (seen self.old) (where_of spot.now)))) }
        ensures err { OnErr result (Becomes self.old self.new (seen_state self.old)) }
    {
        match self.write_fault(spot) {
            Some(why) => {
                self.fault(why);
                Ok(())
            }
            None => self.store_here(kind, value, spot),
        }
    }

    /// A store to a place that may be written.
    #[inline(always)]
    fn store_here(&mut self, kind: StoreKind, value: &Val, spot: &Spot) -> Result<(), AllocError>
        requires spans { Spans self.old.tables (store_width kind) spot.now }
        requires of { IsOfGraph self.old.tables.graph value.now }
        ensures state { OnOk result (Becomes self.old self.new (falls_on (seen self.old) (seen_state self.old) (stored_at (seen_state self.old) (where_of spot.now) (stored_cells kind value.now)))) }
        ensures err { OnErr result (Becomes self.old self.new (seen_state self.old)) }
    {
        match self.next_place() {
            Some(place) => {
                self.put_value(kind, value, spot)?;
                self.enter(place);
                Ok(())
            }
            None => {
                self.fault(NO_BLOCK);
                Ok(())
            }
        }
    }

    /// Puts the first cells of a value at a place.
    #[inline(always)]
    pub(super) fn put_value(
        &mut self,
        kind: StoreKind,
        value: &Val,
        spot: &Spot,
    ) -> Result<(), AllocError>
        requires spans { Spans self.old.tables (store_width kind) spot.now }
        requires of { IsOfGraph self.old.tables.graph value.now }
        ensures state { OnOk result (Becomes self.old self.new (stored_at (seen_state self.old) (where_of spot.now) (stored_cells kind value.now))) }
        ensures err { OnErr result (Becomes self.old self.new (seen_state self.old)) }
        ensures place { self.new.place ≡ self.old.place }
    {
        match *spot {
            Spot::Fixed(at) => self.put_value_fixed(at, value, store_bytes(kind)),
            Spot::Object { object, offset } => {
                self.put_value_inside(object, offset, value, store_bytes(kind))
            }
            Spot::Nowhere(_) => Ok(()),
        }
    }

    /// Puts the first cells of a value into fixed memory.
    #[inline(always)]
    fn put_value_fixed(&mut self, at: u32, value: &Val, width: u32) -> Result<(), AllocError>
        requires width { IsWidth width }
        requires spans { Spans self.old.tables width (Spot.Fixed at) }
        requires of { IsOfGraph self.old.tables.graph value.now }
        ensures state { OnOk result (Becomes self.old self.new (stored_at (seen_state self.old) (InFixed at) (take width (split value.now)))) }
        ensures err { OnErr result (Becomes self.old self.new (seen_state self.old)) }
        ensures place { self.new.place ≡ self.old.place }
    {
        match self.memory.set_value(at, value, width) {
            Ok(()) => Ok(()),
            Err(error) => Err(error),
        }
    }

    /// Puts the first cells of a value into an object.
    #[inline(always)]
    fn put_value_inside(
        &mut self,
        object: u32,
        offset: u32,
        value: &Val,
        width: u32,
    ) -> Result<(), AllocError>
        requires width { IsWidth width }
        requires spans { Spans self.old.tables width (Spot.Object object offset) }
        requires of { IsOfGraph self.old.tables.graph value.now }
        ensures state { OnOk result (Becomes self.old self.new (stored_at (seen_state self.old) (InObject object offset) (take width (split value.now)))) }
        ensures err { OnErr result (Becomes self.old self.new (seen_state self.old)) }
        ensures place { self.new.place ≡ self.old.place }
    {
        let at = self.home_of(object) + offset;
        match self.memory.set_value(at, value, width) {
            Ok(()) => Ok(()),
            Err(error) => Err(error),
        }
    }

    /// Puts cells into fixed memory.
    pub(super) fn put_fixed(&mut self, at: u32, cells: &[Cell]) -> Result<(), AllocError>
        requires some { 0 < length cells.now }
        requires spans { Spans self.old.tables (length cells.now) (Spot.Fixed at) }
        requires of { All (IsCellOfGraph self.old.tables.graph) cells.now }
        ensures state { OnOk result (Becomes self.old self.new (stored_at (seen_state self.old) (InFixed at) cells.now)) }
        ensures err { OnErr result (Becomes self.old self.new (seen_state self.old)) }
        ensures place { self.new.place ≡ self.old.place }
        ensures consumed { self.new.consumed ≡ self.old.consumed }
        ensures input { self.new.input ≡ self.old.input }
    {
        match self.memory.set_all(at, cells) {
            Ok(()) => Ok(()),
            Err(error) => Err(error),
        }
    }

    /// Puts cells into an object.
    pub(super) fn put_inside(
        &mut self,
        object: u32,
        offset: u32,
        cells: &[Cell],
    ) -> Result<(), AllocError>
        requires some { 0 < length cells.now }
        requires spans { Spans self.old.tables (length cells.now) (Spot.Object object offset) }
        requires of { All (IsCellOfGraph self.old.tables.graph) cells.now }
        ensures state { OnOk result (Becomes self.old self.new (stored_at (seen_state self.old) (InObject object offset) cells.now)) }
        ensures err { OnErr result (Becomes self.old self.new (seen_state self.old)) }
        ensures place { self.new.place ≡ self.old.place }
        ensures consumed { self.new.consumed ≡ self.old.consumed }
        ensures input { self.new.input ≡ self.old.input }
    {
        let at = self.home_of(object) + offset;
        match self.memory.set_all(at, cells) {
            Ok(()) => Ok(()),
            Err(error) => Err(error),
        }
    }

    /// The home of an object.
    #[inline(always)]
    pub(super) fn home_of(&self, object: u32) -> u32
        requires { object < length self.now.tables.graph.objects.items }
        ensures { result ≡ (object_of self.now.tables.graph object).home }
    {
        self.tables.graph.objects[object as usize].home
    }
}
