//! The same calls of a player's view and of the view over the song.

ghost use Rattle.std.specs.Prelude.{◌≡◌, ◌<◌, [], None, Some, IfSome, replicate, length};
ghost use Rattle.ft_types.specs.Valid.{IsValid};
ghost use Rattle.ft_shared.specs.Pass.{fresh_pass};

use arrayvec::ArrayVec;
use ft_image::place;
use ft_player::{PlayerView, Seat};
use ft_shared::{ReaderPass, Shared};
use ft_songs::{NOTE, instrument_of, pattern_of, sample_of, silent_module};
use ft_types::{
    Cell, Envelope, Items, Module, ModuleView, SampleHead, Shape, SongHead, SongView, Steps,
    blocks, valid,
};
use std::alloc::{AllocError, Global};
use std::marker::Brand;
use std::sync::ledger::{Blank, Ledger};

/// What a view of a song answers.
#[derive(Drop, PartialEq)]
struct Answers {
    head: SongHead,
    rows: [u16; 2],
    cells: [Cell; 4],
    envelopes: [Option<Envelope>; 3],
    shapes: [Option<Shape>; 2],
    sample: Option<SampleHead>,
    missing: Option<SampleHead>,
    frames: [i16; 9],
}

/// A frame that channel 1 keeps; 0 past its end.
fn frame_at<V: SongView>(view: &mut V, head: SampleHead, at: u32) -> i16
    requires two { length (V.holds view.old) ≡ 2 }
    requires keeps { V.keeps view.old 1 head }
    ensures two { length (V.holds view.new) ≡ 2 }
    ensures keeps { V.keeps view.new 1 head }
{
    if at >= head.frames {
        return 0;
    }
    view.frame(1, at)
}

/// Frames of the sample that channel 1 begins: again in a word, in the word before, in other bodies
/// and back, the last one, and past the end.
fn frames_of<V: SongView>(view: &mut V, head: SampleHead) -> [i16; 9]
    requires two { length (V.holds view.old) ≡ 2 }
    requires keeps { V.keeps view.old 1 head }
    ensures two { length (V.holds view.new) ≡ 2 }
{
    let first = frame_at(view, head, 0);
    let again = frame_at(view, head, 3);
    let behind = frame_at(view, head, 4);
    let back = frame_at(view, head, 2);
    let near = frame_at(view, head, 1021);
    let far = frame_at(view, head, 2050);
    let home = frame_at(view, head, 1022);
    let last = frame_at(view, head, 2999);
    let past = frame_at(view, head, 3000);
    [first, again, behind, back, near, far, home, last, past]
}

/// What a view of a song of two channels answers.
fn ask_all<V: SongView>(view: &mut V) -> Answers
    requires two { length (V.holds view.old) ≡ 2 }
{
    let head = view.head();
    let rows = [view.rows(0), view.rows(1)];
    let cells = [
        view.cell(0, 0, 0),
        view.cell(0, 63, 1),
        view.cell(0, 64, 0),
        view.cell(9, 0, 1),
    ];
    let envelopes = [
        view.envelope(1, 0),
        view.envelope(1, 1),
        view.envelope(2, 0),
    ];
    let shapes = [view.shape(1), view.shape(0)];
    let missing = view.start(0, 2, 0);
    let sample = view.start(1, 1, 95);
    let frames = match sample {
        Some(found) => frames_of(view, found),
        None => [0; 9],
    };
    Answers {
        head,
        rows,
        cells,
        envelopes,
        shapes,
        sample,
        missing,
        frames,
    }
}

/// What a player's view answers that begins with a fresh pass.
fn player_answers<L: Ledger>(blank: Blank, shared: &Shared, pass: &mut ReaderPass) -> Answers
    requires blank { (blank.name ≡ L.name) × (blank.parts ≡ L.parts) × (0 < L.parts) }
    requires fresh { pass.old ≡ fresh_pass shared.now 0 }
    requires two { shared.now.sizes.channels ≡ 2 }
{
    let mut steps = Steps::<L>::open(blank);
    let held = shared.take(pass, &mut steps);
    let mut seats: ArrayVec<Option<Seat>, 32> = ArrayVec::new();
    seats.push(None);
    seats.push(None);
    let mut view = PlayerView {
        shared,
        pass,
        seats: &mut seats,
        steps: &mut steps,
        version: held.version,
        root: held.root,
    };
    ask_all(&mut view)
}

/// A register of a song that has the image of it and no more, with its one reader.
fn opened(alloc: Global, song: &Module) -> Option<(Shared, ReaderPass)>
    ensures { IfSome result (λ made. (made.1 ≡ fresh_pass made.0 0)
        × (made.0.sizes.channels ≡ 2)) }
{
    if !valid(song) || blocks(song) > 65_534 {
        return None;
    }
    let segments = blocks(song) as u16;
    let Ok(image) = place(alloc, song) else {
        return None;
    };
    let Ok((shared, _writer, mut passes)) = Shared::open(
        alloc,
        segments,
        1,
        2,
        0,
        image.root(),
        image.words(),
    ) else {
        return None;
    };
    let Some(reader) = passes.next() else {
        return None;
    };
    Some((shared, reader))
}

/// Whether both views of a song of two channels answer the same, and a frame that isn't 0.
fn views_agree(alloc: Global, song: &Module) -> bool {
    if !valid(song) || song.channels != 2 {
        return false;
    }
    let mut plain = ModuleView::new(song);
    let right = ask_all(&mut plain);
    let Some((shared, mut pass)) = opened(alloc, song) else {
        return false;
    };
    let played = player_answers::<Brand>(Blank::new(1), &shared, &mut pass);
    played == right && right.frames == [-60, -57, -56, -58, -7, 54, -6, 35, 0]
}

/// A song of a note, and of a sample of 3,000 frames in three bodies, which rise by 1 from -60 to 60
/// again and again.
fn long_song(alloc: Global) -> Result<Module, AllocError> {
    let mut frames = Vec::new(alloc);
    for k in 0..3000u16 {
        frames.push((k % 121) as i16 - 60)?;
    }
    let pattern = pattern_of(alloc, 64, NOTE)?;
    let instrument = instrument_of(alloc, sample_of(alloc, frames.as_slice())?)?;
    let mut song = silent_module(alloc)?;
    song.patterns = Items::from_vec(vec![in alloc; pattern]?);
    song.instruments = Items::from_vec(vec![in alloc; instrument]?);
    Ok(song)
}

/// Whether both views of the long song answer the same.
fn long_song_agrees(alloc: Global) -> bool {
    let Ok(song) = long_song(alloc) else {
        return false;
    };
    views_agree(alloc, &song)
}

#[test]
fn a_player_answers_what_the_song_says(rt: HostRuntime) {
    assert!(rt; long_song_agrees(rt.alloc()));
}
