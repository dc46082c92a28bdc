//! The writer: it scans the slots for one that no reader holds, and publishes the next
//! version in it.
ghost use Rattle.std.specs.Prelude.{◌≡◌, ◌≢◌, ◌⊎◌, All, ℕ, ◌+◌, ◌-◌, ◌*◌, ◌<◌, ◌≤◌, ◌↔◌, [], ◌∷◌, ◌++◌, true, false, Some, IsNone, IsSome, IfSome, length, slice_index_or, replicate};
ghost use Rattle.ft_segments.specs.Walk.{IsSound, walk};
ghost use Rattle.ft_shared.specs.History.{placed_at, HasVersion};
ghost use Rattle.ft_shared.specs.Account.{account_of, new_slot, slot_at, no_slot, next_slot, IsWhole, AreAllSettled, IsHeldSlot, IsBorne, after_begin, after_scan, answer_of};
ghost use Rattle.ft_shared.specs.Segments.{KeepsHeld};
ghost use Rattle.ft_shared.specs.Pass.{Publishes, writer_at};
ghost use Rattle.ft_shared.specs.declared.law.View.TheVariants.{Writer};

use crate::law::{Place, Slot};
use crate::plays::{BeginScan, Clear, Publish, ScanSlot};
use crate::reader::KeptPass;
use crate::shared::Shared;
use std::marker::Model;

/// The writer. There is one, and it needs no lock.
#[derive(Drop)]
pub struct WriterPass {
    pub(crate) place: Place,
    readers: u8,
    pub(crate) version: u32,
    slot: u8,
    slots: [Slot; 10],
    /// What is kept of the settled passes, the one that was settled first first.
    pub(crate) settled: [KeptPass; 8],
    /// How many passes are settled, 0 to 8.
    pub(crate) many: u8,
}

impl Model for WriterPass {
    ghost use Rattle.ft_shared.specs.Pass.{WriterState};

    ghost Value = { WriterState };

    ghost use Rattle.ft_shared.specs.Inner.{writer_state, IsWriterPass};

    ghost view = { writer_state };

    ghost invariant = { IsWriterPass };
}

impl WriterPass {
    pub(crate) fn first(place: Place, readers: u8, version: u32) -> WriterPass
        requires role { place.me ≡ (Writer (account_of place.me.0), []) }
        requires readers { (readers ≤ 8) × ((account_of place.me.0).sizes.readers ≡ readers) }
        requires version { ((account_of place.me.0).version ≡ version)
            × ((account_of place.me.0).slot ≡ 0) }
        requires slots { (account_of place.me.0).slots ≡ replicate 10 (new_slot version) }
        requires none { ((account_of place.me.0).begun ≡ false)
            × ((account_of place.me.0).settled ≡ []) }
        ensures { result ≡ writer_at place.table_id (account_of place.me.0) }
    {
        let unused = Slot {
            version,
            start: 0,
            free: false,
        };
        WriterPass {
            place,
            readers,
            version,
            slot: 0,
            slots: [unused; 10],
            settled: [KeptPass { slot: 0, number: 0 }; 8],
            many: 0,
        }
    }
}

impl Shared {
    /// Begins a scan by one load of CURRENT. Nothing that is known to be held was written since
    /// its version was placed: the segments of the current version, those of each version that
    /// the scan before this one answered, and what the settled passes hold.
    pub fn begin_scan(&self, pass: &mut WriterPass)
        requires { pass.old.register ≡ self.now }
        ensures noted { pass.new ≡ record pass.old { account = after_begin pass.old.account } }
        ensures kept { KeepsHeld pass.old.account }
        ensures bears { (slot_at pass.old.account pass.old.account.slot).version
            ≡ pass.old.account.version }
        ensures long { length pass.old.account.pool ≡ 256 * self.now.sizes.segments }
    {
        self.words.scan_load::<BeginScan>(&mut pass.place, 0);
    }

    /// The version of the slot `slot` where it is current or was found held, and `None` where
    /// it was found free. Slots come in ascending order. One load.
    ///
    /// A slot once found free is found free by each later scan, until a publish chooses it.
    /// While every reader's pass is settled, the answer is a version exactly for the current
    /// slot and for those of the versions that these passes hold. What is known to be held then
    /// was not written since, the segments of the answered version among it.
    pub fn scan_slot(&self, pass: &mut WriterPass, slot: u8) -> Option<u32>
        requires same { pass.old.register ≡ self.now }
        requires begun { pass.old.account.begun ≡ true }
        requires next { next_slot pass.old.account ≡ slot }
        requires slot { slot < self.now.sizes.readers + 2 }
        ensures none { IsNone result ↔ ((slot ≢ pass.old.account.slot)
            × ((slot_at pass.old.account slot).start ≡ pass.new.account.gone)) }
        ensures some { IfSome result (λ version.
            version ≡ (slot_at pass.old.account slot).version) }
        ensures known { HasVersion pass.new.account.history
            (slot_at pass.old.account slot).version }
        ensures free { (slot_at pass.old.account slot).free ≡ true → IsNone result }
        ensures noted { pass.new ≡ record pass.old {
          account = after_scan pass.old.account pass.new.account.gone;
        } }
        ensures answer { result ≡ answer_of pass.old.account slot pass.new.account.gone }
        ensures borne { All (IsBorne pass.old.account) pass.old.account.settled }
        ensures exact { AreAllSettled pass.old.account → IsSome result
            ↔ ((slot ≡ pass.old.account.slot) ⊎ IsHeldSlot pass.old.account slot) }
        ensures kept { KeepsHeld pass.new.account }
    {
        let index = slot as usize;
        let gone = self.words.scan_load::<ScanSlot>(&mut pass.place, index + 1);
        let Slot { version, start, .. } = pass.slots[index];
        let is_free = slot != pass.slot && start as u64 == gone;
        pass.slots[index].free = is_free;
        if is_free { None } else { Some(version) }
    }

    /// Makes what was written the next version, with the root segment `root`, and gives its
    /// number. One store and one swap.
    ///
    /// The walk from the root must stay among the segments of the pool, and name each once. A
    /// whole scan always leaves a free slot, so there is no answer for its want.
    pub fn publish(&self, pass: &mut WriterPass, root: u16) -> u32
        requires same { pass.old.register ≡ self.now }
        requires whole { IsWhole self.now.sizes pass.old.account }
        requires room { pass.old.account.version < 4294967295 }
        requires sound { IsSound self.now.sizes.segments (walk pass.old.account.pool root) }
        ensures next { result ≡ pass.old.account.version + 1 }
        ensures register { pass.new.register ≡ pass.old.register }
        ensures published { Publishes self.now.sizes pass.old.account pass.new.account root }
        ensures history { pass.new.account.history ≡ pass.old.account.history
            ++ record { version = result; root = root; pool = pass.old.account.pool } ∷ [] }
        ensures placed { placed_at pass.new.account.history result
            ≡ Some (record { version = result; root = root; pool = pass.old.account.pool }) }
    {
        let chosen = first_free(&pass.slots, pass.readers + 2);
        let index = chosen as usize;
        self.words.store::<Clear>(&mut pass.place, index + 1, 0);
        let version = pass.version + 1;
        let word = (version as u64) * 4_294_967_296
            + (chosen as u64) * 16_777_216
            + (root as u64) * 256;
        let found = self.words.swap::<Publish>(&mut pass.place, 0, word);
        pass.slots[pass.slot as usize].start = (found % 256) as u8;
        pass.slots[index] = Slot {
            version,
            start: 0,
            free: false,
        };
        pass.slot = chosen;
        pass.version = version;
        version
    }
}

/// The first free slot below `count`, of which there is one.
fn first_free(slots: &[Slot; 10], count: u8) -> u8
    requires some { (slot : ℕ) × (slot < count)
        × ((slice_index_or slots.now slot no_slot).free ≡ true) }
    requires few { count ≤ 10 }
    ensures free { (result < count) × ((slice_index_or slots.now result no_slot).free ≡ true) }
    ensures first { (slot : ℕ) → slot < result
        → (slice_index_or slots.now slot no_slot).free ≡ false }
{
    for slot in 0..count {
        if slots[slot as usize].free {
            return slot;
        }
    }
    unreachable!()
}
