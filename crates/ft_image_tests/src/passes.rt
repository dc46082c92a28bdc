//! A pass reads the song that it holds, and a pinned sample of it when it has left that version.

ghost use Rattle.std.specs.Prelude.{◌≡◌, ◌<◌, ℕ, None, IfSome, IsSome, IsSomeAnd, IsTrue};
ghost use Rattle.ft_segments.specs.Walk.{IsSound, walk};
ghost use Rattle.ft_shared.specs.Account.{SlotsAreMet, IsWhole};
ghost use Rattle.ft_shared.specs.Counts.{pin_of};
ghost use Rattle.ft_image_tests.specs.Opened.{IsTestRegister};

use crate::placed::song_of;
use crate::views::{held_cell, held_frame, held_rows, held_word, pinned_frame, written_cell};
use ft_image::place;
use ft_shared::{ReaderPass, Shared, WriterPass};
use ft_songs::{EMPTY, NOTE};
use ft_types::{Module, Steps, blocks, valid};
use std::alloc::Global;
use std::marker::Brand;
use std::sync::ledger::{Blank, Ledger};
use std::test::Fail;

/// A register that has the image of a song and no more, with its writer and its one reader.
fn opened(alloc: Global, song: &Module) -> Option<(Shared, WriterPass, ReaderPass)>
    ensures { IfSome result (λ made. IsTestRegister made.0 made.1 made.2) }
{
    if !valid(song) || blocks(song) > 65_534 {
        return None;
    }
    let segments = blocks(song) as u16;
    let Ok(image) = place(alloc, song) else {
        return None;
    };
    let Ok((shared, writer, mut passes)) = Shared::open(
        alloc,
        segments,
        1,
        1,
        0,
        image.root(),
        image.words(),
    ) else {
        return None;
    };
    let Some(reader) = passes.next() else {
        return None;
    };
    Some((shared, writer, reader))
}

/// Looks at the slots of a register of one reader.
fn scan_slots(shared: &Shared, writer: &mut WriterPass)
    requires same { writer.old.register ≡ shared.now }
    requires sizes { shared.now.sizes.readers ≡ 1 }
    ensures same { writer.new.register ≡ writer.old.register }
    ensures met { SlotsAreMet shared.now.sizes writer.new.account }
    ensures left { (writer.new.account.version ≡ writer.old.account.version)
        × (writer.new.account.pool ≡ writer.old.account.pool) }
{
    shared.begin_scan(writer);
    shared.scan_slot(writer, 0);
    shared.scan_slot(writer, 1);
    shared.scan_slot(writer, 2);
}

/// Looks at the one pin of such a register.
fn scan_pin(shared: &Shared, writer: &mut WriterPass)
    requires same { writer.old.register ≡ shared.now }
    requires sizes { (shared.now.sizes.readers ≡ 1) × (shared.now.sizes.channels ≡ 1) }
    requires met { SlotsAreMet shared.now.sizes writer.old.account }
    ensures same { writer.new.register ≡ writer.old.register }
    ensures whole { IsWhole shared.now.sizes writer.new.account }
    ensures left { (writer.new.account.version ≡ writer.old.account.version)
        × (writer.new.account.pool ≡ writer.old.account.pool) }
{
    shared.scan_pin(writer, 0, 0);
}

/// Publishes the same words once more.
fn publish_again(shared: &Shared, writer: &mut WriterPass) -> u32
    requires same { writer.old.register ≡ shared.now }
    requires sizes { (shared.now.sizes.readers ≡ 1) × (shared.now.sizes.channels ≡ 1) }
    requires first { writer.old.account.version ≡ 0 }
    requires sound { IsSound shared.now.sizes.segments (walk writer.old.account.pool 0) }
    ensures same { writer.new.register ≡ writer.old.register }
{
    scan_slots(shared, writer);
    scan_pin(shared, writer);
    shared.publish(writer, 0)
}

/// Whether rows, words, cells and frames are those of the small song of seven segments, by the
/// version that a pass holds. There is no segment 7, whose words are 0.
fn holds_song<L: Ledger>(
    shared: &Shared,
    reader: &mut ReaderPass,
    root: u16,
    steps: &mut Steps<L>,
) -> bool
    requires same { reader.old.register ≡ shared.now }
    requires held { IsSome reader.old.notes.held }
    ensures same { reader.new.register ≡ reader.old.register }
    ensures held { reader.new.notes.held ≡ reader.old.notes.held }
{
    let stored = held_rows(shared, reader, root, 0, steps);
    let here = held_word(shared, reader, root, 1, steps);
    let beyond = held_word(shared, reader, 7, 1, steps);
    let note = held_cell(shared, reader, root, 0, steps);
    let empty = held_cell(shared, reader, root, 64, steps);
    let low = held_frame(shared, reader, 4, 397, steps);
    let last = held_frame(shared, reader, 4, 399, steps);
    (stored == 64 && here == 0x1_0001 && beyond == 0)
        && (note == NOTE && empty == EMPTY)
        && (low == -64 && last == 64)
}

/// Whether the frames are those of the small song, by the pin of channel 0.
fn pins_sample<L: Ledger>(shared: &Shared, reader: &mut ReaderPass, steps: &mut Steps<L>) -> bool
    requires same { reader.old.register ≡ shared.now }
    requires pin { IsSome (pin_of reader.old.notes 0) }
{
    let low = pinned_frame(shared, reader, 0, 4, 397, steps);
    let last = pinned_frame(shared, reader, 0, 4, 399, steps);
    low == -64 && last == 64
}

/// Looks, and leaves the held version if there is a newer one.
fn left<L: Ledger>(
    shared: &Shared,
    reader: &mut ReaderPass,
    held: u32,
    steps: &mut Steps<L>,
) -> bool
    requires same { reader.old.register ≡ shared.now }
    requires held { IsSomeAnd reader.old.notes.held (λ taken. taken.version ≡ held) }
    ensures same { reader.new.register ≡ reader.old.register }
    ensures none { IsTrue result → reader.new.notes.held ≡ None }
    ensures pins { reader.new.notes.pins ≡ reader.old.notes.pins }
{
    if shared.look(reader, steps) <= held {
        return false;
    }
    shared.leave(reader, steps);
    true
}

/// A reader takes the song and reads it, pins its sample, and reads that when the next version is
/// published and it holds none; the writer reads the words that it wrote.
fn read_song<L: Ledger>(
    blank: Blank,
    shared: &Shared,
    writer: &mut WriterPass,
    reader: &mut ReaderPass,
) -> bool
    requires blank { (blank.name ≡ L.name) × (blank.parts ≡ L.parts) × (0 < L.parts) }
    requires opened { IsTestRegister shared.now writer.old reader.old }
{
    if shared.segments() < 7 {
        return false;
    }
    let mut steps = Steps::<L>::open(blank);
    let held = shared.take(reader, &mut steps);
    let shown = holds_song(shared, reader, held.root, &mut steps);
    shared.pin(reader, 0, 4, &mut steps);
    let next = publish_again(shared, writer);
    if !left(shared, reader, held.version, &mut steps) {
        return false;
    }
    let pinned = pins_sample(shared, reader, &mut steps);
    let written = written_cell(shared, writer, 0, 0);
    shown && pinned && held.version == 0 && next == 1 && written == NOTE
}

/// The song has seven segments, and its sample 400 frames, which go 64, -64, 64, 64 again and
/// again.
fn reads_a_song(alloc: Global) -> Result<bool, Fail> {
    let mut frames = Vec::new(alloc);
    for _ in 0..100 {
        frames.extend_from_slice(&[64, -64, 64, 64])?;
    }
    let song = song_of(alloc, &frames)?;
    let Some((shared, mut writer, mut reader)) = opened(alloc, &song) else {
        return Ok(false);
    };
    Ok(read_song::<Brand>(Blank::new(1), &shared, &mut writer, &mut reader))
}

#[test]
fn a_pass_reads_what_it_holds_and_then_what_it_pinned(rt: HostRuntime) -> Result<(), Fail> {
    let right = reads_a_song(rt.alloc())?;
    assert!(rt; right);
    Ok(())
}
