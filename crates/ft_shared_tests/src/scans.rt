//! Whole scans: every slot, and then every pin.
ghost use Rattle.std.specs.Prelude.{◌≡◌, ℕ, ◌+◌, ◌<◌, ◌≤◌, [], Some, true, length, Contains};
ghost use Rattle.ft_shared.specs.Account.{SlotsAreMet, IsWhole, IsPinMet, IsPinAnswer};
ghost use Rattle.ft_shared_tests.specs.Scans.{IsLeft};

use arrayvec::ArrayVec;
use ft_shared::{Shared, WriterPass};

/// Looks at every slot, and gives what was answered of each.
pub fn scan_slots(shared: &Shared, writer: &mut WriterPass, slots: u8) -> ArrayVec<Option<u32>, 10>
    requires same { writer.old.register ≡ shared.now }
    requires slots { (slots ≡ shared.now.sizes.readers + 2) × (slots ≤ 10) }
    ensures left { IsLeft writer.old writer.new }
    ensures met { SlotsAreMet shared.now.sizes writer.new.account }
    ensures scan { writer.new.account.scan ≡ result.items }
    ensures none { writer.new.account.pin_scan ≡ [] }
{
    let mut answers = ArrayVec::<Option<u32>, 10>::new();
    shared.begin_scan(writer);
    for slot in 0..slots {
        answers.push(shared.scan_slot(writer, slot));
    }
    answers
}

/// Looks at the pins of a reader, and adds the roots of those that are set.
fn scan_reader(
    shared: &Shared,
    writer: &mut WriterPass,
    reader: u8,
    channels: u8,
    roots: &mut ArrayVec<u16, 16>,
)
    requires same { writer.old.register ≡ shared.now }
    requires met { SlotsAreMet shared.now.sizes writer.old.account }
    requires reader { reader < shared.now.sizes.readers }
    requires channels { channels ≡ shared.now.sizes.channels }
    requires room { length roots.old.items + channels ≤ 16 }
    requires known { (r c root : ℕ) → IsPinAnswer writer.old.account r c (Some root)
        → Contains roots.old.items root }
    ensures left { IsLeft writer.old writer.new }
    ensures met { SlotsAreMet shared.now.sizes writer.new.account }
    ensures scan { writer.new.account.scan ≡ writer.old.account.scan }
    ensures room { length roots.new.items ≤ length roots.old.items + channels }
    ensures known { (r c root : ℕ) → IsPinAnswer writer.new.account r c (Some root)
        → Contains roots.new.items root }
    ensures before { (r c : ℕ) → IsPinMet writer.old.account r c
        → IsPinMet writer.new.account r c }
    ensures all { (c : ℕ) → c < channels → IsPinMet writer.new.account reader c }
{
    for channel in 0..channels {
        scan_one(shared, writer, reader, channel, roots);
    }
}

/// Looks at one pin, and adds its root if it is set.
fn scan_one(
    shared: &Shared,
    writer: &mut WriterPass,
    reader: u8,
    channel: u8,
    roots: &mut ArrayVec<u16, 16>,
)
    requires same { writer.old.register ≡ shared.now }
    requires met { SlotsAreMet shared.now.sizes writer.old.account }
    requires reader { reader < shared.now.sizes.readers }
    requires channel { channel < shared.now.sizes.channels }
    requires room { length roots.old.items < 16 }
    requires known { (r c root : ℕ) → IsPinAnswer writer.old.account r c (Some root)
        → Contains roots.old.items root }
    ensures left { IsLeft writer.old writer.new }
    ensures met { SlotsAreMet shared.now.sizes writer.new.account }
    ensures scan { writer.new.account.scan ≡ writer.old.account.scan }
    ensures room { length roots.new.items ≤ length roots.old.items + 1 }
    ensures known { (r c root : ℕ) → IsPinAnswer writer.new.account r c (Some root)
        → Contains roots.new.items root }
    ensures before { (r c : ℕ) → IsPinMet writer.old.account r c
        → IsPinMet writer.new.account r c }
    ensures this { IsPinMet writer.new.account reader channel }
{
    if let Some(root) = shared.scan_pin(writer, reader, channel) {
        roots.push(root);
    }
}

/// Looks at every slot and then at every pin, and gives what was answered of each slot, and the
/// roots of the pins that are set.
pub fn scan_all(
    shared: &Shared,
    writer: &mut WriterPass,
    readers: u8,
    channels: u8,
) -> (ArrayVec<Option<u32>, 10>, ArrayVec<u16, 16>)
    requires same { writer.old.register ≡ shared.now }
    requires readers { (readers ≡ shared.now.sizes.readers) × (readers ≤ 8) }
    requires channels { (channels ≡ shared.now.sizes.channels) × (channels ≤ 2) }
    ensures left { IsLeft writer.old writer.new }
    ensures whole { IsWhole shared.now.sizes writer.new.account }
    ensures scan { writer.new.account.scan ≡ result.0.items }
    ensures roots { (r c root : ℕ) → IsPinAnswer writer.new.account r c (Some root)
        → Contains result.1.items root }
{
    let answers = scan_slots(shared, writer, readers + 2);
    let mut roots = ArrayVec::<u16, 16>::new();
    for reader in 0..readers {
        scan_reader(shared, writer, reader, channels, &mut roots);
    }
    (answers, roots)
}
