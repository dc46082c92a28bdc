//! Edits: the changes of a song that a hand can ask for.

use crate::sample::Frames;
use std::fmt;

/// One change of a module.
///
/// Patterns and samples count from 0, instruments from 1. A value may be out of the range that is
/// given here: then the edit is refused, and its fault says why. A block is `h` rows of `w`
/// channels from row `r` and channel `c` of pattern `p`.
#[derive(Drop)]
pub enum Edit {
    /// Sets a cell.
    Cell {
        /// Pattern.
        p: u8,
        /// Row.
        r: u16,
        /// Channel.
        c: u8,
        /// Note: 0 none, 1 to 96, 97 key off.
        note: u8,
        /// Instrument, 0 none.
        ins: u8,
        /// Volume column byte.
        vol: u8,
        /// Effect.
        eff: u8,
        /// Effect parameter.
        par: u8,
    },
    /// Gives a pattern a number of rows: it is cut, or filled with empty rows.
    Rows {
        /// Pattern.
        p: u8,
        /// Rows, 1 to 256.
        n: u16,
    },
    /// Puts an empty row before a row. The last row drops out.
    Insrow {
        /// Pattern.
        p: u8,
        /// Row.
        r: u16,
    },
    /// Takes a row out. An empty row comes last.
    Delrow {
        /// Pattern.
        p: u8,
        /// Row.
        r: u16,
    },
    /// Empties a block.
    Clear {
        /// Pattern.
        p: u8,
        /// First row.
        r: u16,
        /// First channel.
        c: u8,
        /// Rows, at least 1.
        h: u16,
        /// Channels, at least 1.
        w: u8,
    },
    /// Moves the notes of a block, where they stay notes of 1 to 96.
    Transpose {
        /// Pattern.
        p: u8,
        /// First row.
        r: u16,
        /// First channel.
        c: u8,
        /// Rows, at least 1.
        h: u16,
        /// Channels, at least 1.
        w: u8,
        /// Semitones.
        d: i8,
    },
    /// Copies a block, as it was, to another place.
    Copy {
        /// Pattern.
        p: u8,
        /// First row.
        r: u16,
        /// First channel.
        c: u8,
        /// Rows, at least 1.
        h: u16,
        /// Channels, at least 1.
        w: u8,
        /// Pattern of the copy.
        q: u8,
        /// First row of the copy.
        r2: u16,
        /// First channel of the copy.
        c2: u8,
    },
    /// Sets an order.
    Order {
        /// Order position.
        pos: u16,
        /// Pattern, which need not be stored.
        p: u8,
    },
    /// Puts an order before a position, which may be the end.
    Insorder {
        /// Order position.
        pos: u16,
        /// Pattern, which need not be stored.
        p: u8,
    },
    /// Takes an order out.
    Delorder {
        /// Order position.
        pos: u16,
    },
    /// Sets the restart position.
    Restart {
        /// Order position.
        pos: u16,
    },
    /// Sets the default tempo.
    Tempo {
        /// Ticks per row, 1 to 31.
        n: u8,
    },
    /// Sets the default BPM.
    Bpm {
        /// BPM, 32 to 255.
        n: u8,
    },
    /// Names the module.
    Title {
        /// Raw bytes.
        name: [u8; 20],
    },
    /// Appends an empty pattern.
    Newpat {
        /// Rows, 1 to 256.
        n: u16,
    },
    /// Takes the last pattern out.
    Delpat,
    /// Appends an instrument that is all 0 and has no samples.
    Newins,
    /// Makes an instrument all 0, without samples.
    Clearins {
        /// Instrument.
        i: u8,
    },
    /// Names an instrument.
    Insname {
        /// Instrument.
        i: u8,
        /// Raw bytes.
        name: [u8; 22],
    },
    /// Sets an entry of an instrument's note map.
    Map {
        /// Instrument.
        i: u8,
        /// Note from C-0, 0 to 95.
        n: u8,
        /// Sample number, 0 to 15.
        k: u8,
    },
    /// Sets the head of an envelope.
    Env {
        /// Instrument.
        i: u8,
        /// 0 volume, 1 panning.
        w: u8,
        /// Points in use, 0 to 12.
        count: u8,
        /// Sustain point, 0 to 11.
        sus: u8,
        /// Loop start point, 0 to 11.
        ls: u8,
        /// Loop end point, 0 to 11.
        le: u8,
        /// Flags, 0 to 7.
        flags: u8,
    },
    /// Sets a point of an envelope.
    Point {
        /// Instrument.
        i: u8,
        /// 0 volume, 1 panning.
        w: u8,
        /// Point, 0 to 11.
        k: u8,
        /// Tick.
        x: u16,
        /// Value, 0 to 64.
        y: u8,
    },
    /// Sets an instrument's automatic vibrato.
    Vib {
        /// Instrument.
        i: u8,
        /// Kind, 0 to 3.
        kind: u8,
        /// Ticks until the full depth.
        sweep: u8,
        /// Depth, 0 to 15.
        depth: u8,
        /// Rate, 0 to 63.
        rate: u8,
    },
    /// Sets an instrument's fadeout.
    Fade {
        /// Instrument.
        i: u8,
        /// Fadeout per tick, of 32,768.
        n: u16,
    },
    /// Appends an 8-bit sample without frames, of volume 64 and panning 128.
    Newsmp {
        /// Instrument.
        i: u8,
    },
    /// Takes an instrument's last sample out.
    Delsmp {
        /// Instrument.
        i: u8,
    },
    /// Names a sample.
    Smpname {
        /// Instrument.
        i: u8,
        /// Sample.
        s: u8,
        /// Raw bytes.
        name: [u8; 22],
    },
    /// Sets the head of a sample.
    Smp {
        /// Instrument.
        i: u8,
        /// Sample.
        s: u8,
        /// Volume, 0 to 64.
        vol: u8,
        /// Finetune in 1/128 semitone.
        fine: i8,
        /// Relative note.
        rel: i8,
        /// Panning.
        pan: u8,
    },
    /// Sets the loop of a sample.
    Loop {
        /// Instrument.
        i: u8,
        /// Sample.
        s: u8,
        /// 0 no loop, 1 forward, 2 ping-pong.
        kind: u8,
        /// First frame.
        start: u32,
        /// Length in frames.
        len: u32,
    },
    /// Takes frames out.
    Cut {
        /// Instrument.
        i: u8,
        /// Sample.
        s: u8,
        /// First frame.
        from: u32,
        /// The frame after the last.
        to: u32,
    },
    /// Puts frames before a frame, which may be the end.
    Paste {
        /// Instrument.
        i: u8,
        /// Sample.
        s: u8,
        /// Frame.
        at: u32,
        /// 1 to 256 frames.
        frames: Frames,
    },
    /// Reverses frames.
    Reverse {
        /// Instrument.
        i: u8,
        /// Sample.
        s: u8,
        /// First frame.
        from: u32,
        /// The frame after the last.
        to: u32,
    },
    /// Multiplies frames by `n / d`, rounded down, and brings them into the range of the width.
    Scale {
        /// Instrument.
        i: u8,
        /// Sample.
        s: u8,
        /// First frame.
        from: u32,
        /// The frame after the last.
        to: u32,
        /// Numerator.
        n: i16,
        /// Denominator, at least 1.
        d: u16,
    },
    /// Gives a sample's frames 8 or 16 bits.
    Bits {
        /// Instrument.
        i: u8,
        /// Sample.
        s: u8,
        /// 8 or 16.
        b: u8,
    },
}

/// The name of its kind alone.
impl fmt::Debug for Edit {
    fn fmt<W: fmt::Write>(&self, f: &mut fmt::Formatter<W>) -> fmt::Result {
        f.write_str(self.kind().name())
    }
}
