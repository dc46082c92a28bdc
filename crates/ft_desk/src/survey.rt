//! Which segments of the pool a scan finds, as marks.

ghost use Rattle.std.specs.Prelude.{◌≡◌, ◌+◌, ◌*◌, ◌<◌, ◌≤◌, ◌↔◌, ℕ, true, [], length};
ghost use Rattle.ft_shared.specs.Account.{slot_at, next_slot, Found, IsAnswered, IsPinMet, SlotsAreMet, IsWhole};
ghost use Rattle.ft_shared.specs.Free.{free_in_pool};
ghost use Rattle.ft_shared.specs.Segments.{KeepsHeld};
ghost use Rattle.ft_retire.specs.Marks.{unmarked_in};
ghost use Rattle.ft_desk.specs.Survey.{AreBirthsFit, AreMarksOf, IsMarked, HasScanned, HasSeenPins};

use crate::pinned::keep_root;
use ft_retire::{Births, marks_law};
use ft_shared::{Shared, WriterPass, a_scan_counts_what_it_found};

/// Looks at the next slot, and marks the segments of the version that it answers.
fn survey_slot(shared: &Shared, pass: &mut WriterPass, births: &mut Births, slot: u8)
    requires same { pass.old.register ≡ shared.now }
    requires begun { pass.old.account.begun ≡ true }
    requires next { next_slot pass.old.account ≡ slot }
    requires slot { slot < shared.now.sizes.readers + 2 }
    requires fit { AreBirthsFit shared.now.sizes.segments pass.old.account births.old }
    requires marks { AreMarksOf shared.now.sizes.segments pass.old.account births.old }
    ensures scanned { HasScanned pass.old pass.new }
    ensures begun { pass.new.account.begun ≡ true }
    ensures next { next_slot pass.new.account ≡ slot + 1 }
    ensures pins { pass.new.account.pin_scan ≡ pass.old.account.pin_scan }
    ensures kept { KeepsHeld pass.new.account }
    ensures answered { (version : ℕ) → IsAnswered pass.old.account version
        → IsAnswered pass.new.account version }
    ensures current { slot ≡ pass.old.account.slot
        → IsAnswered pass.new.account (slot_at pass.old.account slot).version }
    ensures lives { births.new.lives ≡ births.old.lives }
    ensures looked { births.new.looked ≡ births.old.looked }
    ensures marks { AreMarksOf shared.now.sizes.segments pass.new.account births.new }
{
    births.sizes_law();
    marks_law();
    if let Some(version) = shared.scan_slot(pass, slot) {
        births.keep_version(version);
    }
}

/// Begins a scan and looks at each slot: what was marked is forgotten, and the segments of each
/// version that is answered are marked.
fn survey_slots(shared: &Shared, pass: &mut WriterPass, births: &mut Births, readers: u8)
    requires same { pass.old.register ≡ shared.now }
    requires readers { shared.now.sizes.readers ≡ readers }
    requires few { readers ≤ 8 }
    requires inside { pass.old.account.slot < readers + 2 }
    requires fit { AreBirthsFit shared.now.sizes.segments pass.old.account births.old }
    requires many { length births.old.marks ≡ shared.now.sizes.segments }
    ensures scanned { HasScanned pass.old pass.new }
    ensures met { SlotsAreMet shared.now.sizes pass.new.account }
    ensures pins { pass.new.account.pin_scan ≡ [] }
    ensures kept { KeepsHeld pass.new.account }
    ensures current { IsAnswered pass.new.account pass.new.account.version }
    ensures long { length pass.new.account.pool ≡ 256 * shared.now.sizes.segments }
    ensures lives { births.new.lives ≡ births.old.lives }
    ensures looked { births.new.looked ≡ 0 }
    ensures marks { AreMarksOf shared.now.sizes.segments pass.new.account births.new }
{
    marks_law();
    shared.begin_scan(pass);
    births.begin();
    for slot in 0..readers + 2 {
        survey_slot(shared, pass, births, slot);
    }
}

/// Looks at a pin, and marks what the root that it answers names.
fn survey_pin(shared: &Shared, pass: &mut WriterPass, births: &mut Births, reader: u8, channel: u8)
    requires same { pass.old.register ≡ shared.now }
    requires reader { reader < shared.now.sizes.readers }
    requires channel { channel < shared.now.sizes.channels }
    requires met { SlotsAreMet shared.now.sizes pass.old.account }
    requires long { length pass.old.account.pool ≡ 256 * shared.now.sizes.segments }
    requires marks { AreMarksOf shared.now.sizes.segments pass.old.account births.old }
    ensures seen { HasSeenPins pass.old pass.new }
    ensures before { (r c : ℕ) → IsPinMet pass.old.account r c → IsPinMet pass.new.account r c }
    ensures this { IsPinMet pass.new.account reader channel }
    ensures lives { births.new.lives ≡ births.old.lives }
    ensures looked { births.new.looked ≡ births.old.looked }
    ensures marks { AreMarksOf shared.now.sizes.segments pass.new.account births.new }
{
    if let Some(root) = shared.scan_pin(pass, reader, channel) {
        keep_root(shared, pass, births, root);
    }
}

/// Looks at the pins of a reader, and marks what the roots that they answer name.
fn survey_reader(
    shared: &Shared,
    pass: &mut WriterPass,
    births: &mut Births,
    reader: u8,
    channels: u8,
)
    requires same { pass.old.register ≡ shared.now }
    requires reader { reader < shared.now.sizes.readers }
    requires channels { shared.now.sizes.channels ≡ channels }
    requires met { SlotsAreMet shared.now.sizes pass.old.account }
    requires long { length pass.old.account.pool ≡ 256 * shared.now.sizes.segments }
    requires marks { AreMarksOf shared.now.sizes.segments pass.old.account births.old }
    ensures seen { HasSeenPins pass.old pass.new }
    ensures before { (r c : ℕ) → IsPinMet pass.old.account r c → IsPinMet pass.new.account r c }
    ensures all { (c : ℕ) → c < channels → IsPinMet pass.new.account reader c }
    ensures lives { births.new.lives ≡ births.old.lives }
    ensures looked { births.new.looked ≡ births.old.looked }
    ensures marks { AreMarksOf shared.now.sizes.segments pass.new.account births.new }
{
    for channel in 0..channels {
        survey_pin(shared, pass, births, reader, channel);
    }
}

/// Looks at each pin, after the slots, and marks what the roots that they answer name.
fn survey_pins(
    shared: &Shared,
    pass: &mut WriterPass,
    births: &mut Births,
    readers: u8,
    channels: u8,
)
    requires same { pass.old.register ≡ shared.now }
    requires readers { shared.now.sizes.readers ≡ readers }
    requires channels { shared.now.sizes.channels ≡ channels }
    requires met { SlotsAreMet shared.now.sizes pass.old.account }
    requires long { length pass.old.account.pool ≡ 256 * shared.now.sizes.segments }
    requires marks { AreMarksOf shared.now.sizes.segments pass.old.account births.old }
    ensures seen { HasSeenPins pass.old pass.new }
    ensures whole { IsWhole shared.now.sizes pass.new.account }
    ensures lives { births.new.lives ≡ births.old.lives }
    ensures looked { births.new.looked ≡ births.old.looked }
    ensures marks { AreMarksOf shared.now.sizes.segments pass.new.account births.new }
{
    for reader in 0..readers {
        survey_reader(shared, pass, births, reader, channels);
    }
}

/// Begins a scan, looks at every slot and then at every pin, and marks each segment of the pool
/// that the scan found, and no other: so `births.free()` is how many segments it left free. What was
/// marked before is forgotten. Births must fit each version that was not written since.
///
/// Pins may name any segment. What a root names is read by the words last written, whatever they
/// are: for a sample of n bodies at most `n / 4 + 12` steps. A slot and a pin are a step each.
pub fn survey(
    shared: &Shared,
    pass: &mut WriterPass,
    births: &mut Births,
    readers: u8,
    channels: u8,
)
    requires same { pass.old.register ≡ shared.now }
    requires sizes { pass.old.account.sizes ≡ shared.now.sizes }
    requires readers { shared.now.sizes.readers ≡ readers }
    requires few { readers ≤ 8 }
    requires channels { shared.now.sizes.channels ≡ channels }
    requires inside { pass.old.account.slot < readers + 2 }
    requires fit { AreBirthsFit shared.now.sizes.segments pass.old.account births.old }
    requires many { length births.old.marks ≡ shared.now.sizes.segments }
    ensures scanned { HasScanned pass.old pass.new }
    ensures whole { IsWhole shared.now.sizes pass.new.account }
    ensures kept { KeepsHeld pass.new.account }
    ensures lives { births.new.lives ≡ births.old.lives }
    ensures looked { births.new.looked ≡ 0 }
    ensures many { length births.new.marks ≡ shared.now.sizes.segments }
    ensures marked { (segment : ℕ) → segment < shared.now.sizes.segments
        → IsMarked births.new segment ↔ Found pass.new.account segment }
    ensures free { unmarked_in births.new.marks ≡ free_in_pool pass.new.account }
{
    a_scan_counts_what_it_found();
    survey_slots(shared, pass, births, readers);
    survey_pins(shared, pass, births, readers, channels);
}
