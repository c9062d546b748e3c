ghost use Rattle.std.specs.Prelude.{◌≡◌, ◌⊎◌, suc, ◌<◌, ◌≤◌, List, [], length, slice_set, IfOk};
ghost use Rattle.placement_programme.specs.{Plain.{PlainSide}, Views.{plain_side}};
ghost use Rattle.certificate_checker.specs.{Prices.{AreFrom}, Reading.{dual_at}, RowWise.{rows_of, IsOfSide}, LastDuals.{IsLast, IsBehindSame, LoadsDual}, declared.fixings.Fixing.{Fixing}};

use crate::columns::scaled_gain;
use crate::crediting::{Pricing, credit_of};
use crate::fault::CertFault;
use crate::fields::{Part, number_in, small_number};
use crate::fixings::{Fixing, fixing_of};
use crate::loading::{Loaded, load_entries, nothing_loaded};
use crate::prices::{Priced, price_now};
use crate::tasks::Task;
use placement_programme::Side;
use std::alloc::{AllocError, Global};

/// How many bytes of a dual node are kept, at most.
const KEPT_BYTES: usize = 4096;

/// The prices of the dual node that was read last, and what they credit, which follows each variable that is fixed or freed: so
/// a node that says the same again takes no pass over its rows.
#[derive(Drop)]
pub struct DualPrices {
    /// A price for each variable of the longer side.
    pub list: Vec<Priced>,
    /// The stamp of the prices that count.
    pub(crate) stamp: usize,
    /// The node's scale.
    pub(crate) scale: u32,
    /// What its rows make, with the credits under the marks of now.
    pub(crate) loaded: Loaded,
    /// The node's bytes behind its tag; none where they are too many to be kept.
    pub(crate) text: Vec<u8>,
}

impl DualPrices {
    /// Room for the prices of so many variables.
    pub(crate) fn new(alloc: Global, count: usize) -> Result<DualPrices, AllocError>
        ensures { IfOk result (λ p. length p.list.items ≡ count) }
    {
        let list = vec![in alloc; Priced { stamp: 0, price: 0 }; count]?;
        let text = Vec::with_capacity(alloc, KEPT_BYTES)?;
        Ok(DualPrices {
            list,
            stamp: 0,
            scale: 1,
            loaded: nothing_loaded(),
            text,
        })
    }

    /// Forgets the last node: no price counts any more for a stamp below this.
    pub(crate) fn forget(&mut self, stamp: usize)
        ensures fresh { AreFrom stamp self.new.list.items }
        ensures same { length self.new.list.items ≡ length self.old.list.items }
        ensures last { (side : PlainSide) (marks : List Fixing) → IsLast side marks self.new }
    {
        self.list.fill(Priced { stamp, price: 0 });
        self.stamp = stamp;
        self.scale = 1;
        self.loaded = nothing_loaded();
        self.text.clear();
    }

    /// The bytes behind a node that says what the last one said.
    fn behind_same<'a>(&self, bytes: &'a [u8]) -> Option<&'a [u8]>
        ensures { IsBehindSame self.now.text.items bytes.now result }
    {
        if self.text.is_empty() {
            return None;
        }
        bytes.strip_prefix(&self.text)
    }

    /// Lets the credits follow, before a variable is fixed or freed.
    pub(crate) fn follow(&mut self, side: &Side, marks: &[Fixing], number: usize, fixing: Fixing)
        requires number { number < length (plain_side side.now).vars }
        requires marked { length (plain_side side.now).vars ≤ length marks.now }
        requires room { length (plain_side side.now).vars ≤ length self.old.list.items }
        requires last { IsLast (plain_side side.now) marks.now self.old }
        ensures last { IsLast (plain_side side.now) (slice_set marks.now number fixing) self.new }
        ensures list { self.new.list ≡ self.old.list }
    {
        let price = price_now(&self.list, self.stamp, number);
        let gain = scaled_gain(side, self.scale, number);
        let more = credit_of(fixing, gain, price);
        let less = credit_of(fixing_of(marks, number), gain, price);
        self.loaded.credit = self.loaded.credit + more - less;
    }
}

/// Keeps a node's bytes, or none where there is no room for them.
fn keep_text(kept: &mut Vec<u8>, text: &[u8])
    ensures { (kept.new.items ≡ []) ⊎ (kept.new.items ≡ text.now) }
{
    kept.clear();
    if text.len() <= kept.capacity() {
        let _ = kept.extend_from_slice(text);
    }
}

/// Reads a dual node behind its tag, and adds up what its rows make.
#[tactic(auto, unfolding(crate::specs::Reading::dual_at))]
fn read_dual<'a>(
    task: &Task,
    marks: &[Fixing],
    prices: &mut DualPrices,
    bytes: &'a [u8],
) -> Result<&'a [u8], CertFault>
    requires by_row { IsOfSide (plain_side task.now.side.now) (rows_of task.now.by_row.now) }
    requires marked { length (plain_side task.now.side.now).vars ≤ length marks.now }
    requires room { length (plain_side task.now.side.now).vars ≤ length prices.old.list.items }
    requires fresh { AreFrom (suc (length bytes.now)) prices.old.list.items }
    ensures same { length prices.new.list.items ≡ length prices.old.list.items }
    ensures fresh { AreFrom (length bytes.now) prices.new.list.items }
    ensures loads { LoadsDual (plain_side task.now.side.now) marks.now prices.new result (dual_at task.now.total bytes.now) }
{
    let stamp = bytes.len();
    let (scale, rest) = number_in(Part::Node, 1, 65536, task.total, bytes)?;
    let (count, rest) = small_number(Part::Node, 0, task.total, rest)?;
    let scale = scale as u32;
    let pricing = Pricing {
        side: task.side,
        by_row: task.by_row,
        marks,
        scale,
        stamp,
    };
    let (loaded, rest) = load_entries(&pricing, &mut prices.list, task.total, count, rest)?;
    prices.stamp = stamp;
    prices.scale = scale;
    prices.loaded = loaded;
    keep_text(&mut prices.text, &bytes[..stamp - rest.len()]);
    Ok(rest)
}

/// Has the prices of a dual node: those of the last one where it says the same, else it is read.
pub(crate) fn load_dual<'a>(
    task: &Task,
    marks: &[Fixing],
    prices: &mut DualPrices,
    bytes: &'a [u8],
) -> Result<&'a [u8], CertFault>
    requires by_row { IsOfSide (plain_side task.now.side.now) (rows_of task.now.by_row.now) }
    requires marked { length (plain_side task.now.side.now).vars ≤ length marks.now }
    requires room { length (plain_side task.now.side.now).vars ≤ length prices.old.list.items }
    requires fresh { AreFrom (suc (length bytes.now)) prices.old.list.items }
    requires last { IsLast (plain_side task.now.side.now) marks.now prices.old }
    ensures same { length prices.new.list.items ≡ length prices.old.list.items }
    ensures fresh { AreFrom (length bytes.now) prices.new.list.items }
    ensures loads { LoadsDual (plain_side task.now.side.now) marks.now prices.new result (dual_at task.now.total bytes.now) }
{
    match prices.behind_same(bytes) {
        Some(rest) => Ok(rest),
        None => read_dual(task, marks, prices, bytes),
    }
}
