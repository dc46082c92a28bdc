use ft_types::{
    Cell, Envelope, Instrument, Items, Module, Orders, Pattern, Point, Sample, Vibrato, blocks,
    valid,
};
use std::alloc::Global;
use std::test::Fail;

#[test]
fn a_list_keeps_its_elements_in_order(rt: HostRuntime) -> Result<(), Fail> {
    let mut orders = Orders::new(rt.alloc());
    assert!(rt; orders.push(7) == Ok(()));
    assert!(rt; orders.push(3) == Ok(()));
    assert_eq!(rt; orders.len(), 2);
    assert_eq!(rt; orders.get(1).copied(), Some(3));
    assert_eq!(rt; orders.get(2).copied(), None);
    assert_eq!(rt; orders.as_slice(), [7, 3].as_slice());
    assert_eq!(rt; orders.into_vec().as_slice(), [7, 3].as_slice());
    Ok(())
}

/// A song of one order, without patterns and instruments.
fn silent_song(alloc: Global) -> Result<Module, Fail> {
    Ok(Module {
        name: [0x20; 20],
        tracker: [0x20; 20],
        restart: 0,
        channels: 2,
        linear: false,
        tempo: 6,
        bpm: 125,
        orders: Items::from_vec(vec![in alloc; 0]?),
        patterns: Items::new(alloc),
        instruments: Items::new(alloc),
    })
}

/// An instrument whose one sample has no loop and that many frames.
fn instrument_of(alloc: Global, frames: usize) -> Result<Instrument, Fail> {
    let envelope = Envelope {
        points: [Point { x: 0, y: 0 }; 12],
        count: 0,
        sustain: 0,
        loop_start: 0,
        loop_end: 0,
        flags: 0,
    };
    let sample = Sample {
        name: [0; 22],
        volume: 64,
        finetune: 0,
        relative: 0,
        panning: 128,
        wide: false,
        loop_kind: 0,
        loop_start: 0,
        loop_len: 0,
        frames: Items::from_vec(vec![in alloc; 100; frames]?),
    };
    Ok(Instrument {
        name: [0; 22],
        map: [0; 96],
        volume: envelope,
        panning: envelope,
        vibrato: Vibrato {
            kind: 0,
            sweep: 0,
            depth: 0,
            rate: 0,
        },
        fadeout: 0,
        samples: Items::from_vec(vec![in alloc; sample]?),
    })
}

/// A song of a pattern of 64 empty rows, and of such an instrument.
fn short_song(alloc: Global, frames: usize) -> Result<Module, Fail> {
    let empty = Cell {
        note: 0,
        instrument: 0,
        volume: 0,
        effect: 0,
        parameter: 0,
    };
    let pattern = Pattern {
        rows: 64,
        cells: Items::from_vec(vec![in alloc; empty; 128]?),
    };
    let mut song = silent_song(alloc)?;
    song.linear = true;
    song.patterns = Items::from_vec(vec![in alloc; pattern]?);
    song.instruments = Items::from_vec(vec![in alloc; instrument_of(alloc, frames)?]?);
    Ok(song)
}

#[test]
fn a_silent_song_is_valid_and_has_one_block(rt: HostRuntime) -> Result<(), Fail> {
    let song = silent_song(rt.alloc())?;
    assert!(rt; valid(&song));
    assert_eq!(rt; blocks(&song), 1);
    Ok(())
}

#[test]
fn a_row_without_ticks_is_not_valid(rt: HostRuntime) -> Result<(), Fail> {
    let mut song = silent_song(rt.alloc())?;
    song.tempo = 0;
    assert!(rt; !valid(&song));
    Ok(())
}

/// Frames of the only sample, and the blocks of the song.
const BLOCKS: [(usize, u32); 9] = [
    (0, 5),
    (4, 7),
    (400, 7),
    (1_024, 7),
    (1_025, 8),
    (983_041, 967),
    (1_048_576, 1_030),
    (1_048_577, 1_032),
    (1_049_600, 1_032),
];

#[test]
fn blocks_of_frames_and_their_indexes_count_as_they_are_begun(rt: HostRuntime) -> Result<(), Fail> {
    for (frames, count) in BLOCKS {
        let song = short_song(rt.alloc(), frames)?;
        assert!(rt; valid(&song), "{frames} frames");
        assert_eq!(rt; blocks(&song), count, "{frames} frames");
    }
    Ok(())
}
