//! What has one value in a file: the identification, the version, sizes of parts, and what a part
//! says that says nothing.

use crate::instrument::{Envelopes, Extra};
use ft_types::{Cell, Envelope, Point, Vibrato};

/// The identification, bytes 0 to 16 of a file. Its M may be a small m.
pub const IDENTIFICATION: [u8; 17] = *b"Extended Module: ";

/// The offset of the M of the identification.
pub const LETTER: usize = 9;

/// That M, as it is written.
pub const CAPITAL: u8 = b'M';

/// The small m that is read too.
pub const SMALL: u8 = b'm';

/// The byte behind the module's name, as it is written.
pub const MARK: u8 = 0x1A;

/// The one version that is read and written.
pub const VERSION: u16 = 0x0104;

/// The bytes of a header as it is written, with the identification.
pub const HEADER: usize = 336;

/// The bytes of a header from its size on, as it is written.
pub const HEADER_SIZE: u32 = 276;

/// The bytes of a header from its size on that come before the order table.
pub const BEFORE_ORDERS: u32 = 20;

/// The least size of a header: what comes before the order table, and one order.
pub const LEAST_HEADER_SIZE: u32 = 21;

/// The bytes of an order table as it is written.
pub const ORDER_TABLE: usize = 256;

/// The bytes of a pattern's head that hold its fields.
pub const PATTERN_HEAD: u32 = 9;

/// The one packing of a pattern.
pub const PACKING: u8 = 0;

/// The bytes of an instrument's head that each instrument has.
pub const SHORT_HEAD: u32 = 29;

/// The bytes that the head of an instrument with samples has at least.
pub const LEAST_LONG_HEAD: u32 = 241;

/// The bytes of the head of an instrument with samples, as it is written.
pub const LONG_HEAD: u32 = 263;

/// The bytes at the end of such a head that say nothing; they are written as 0.
pub const UNUSED: usize = 22;

/// The bytes of a sample header.
pub const SAMPLE_HEADER: u32 = 40;

/// First bytes of cells from here on are masks; lower ones are notes.
pub const MASK: u8 = 0x80;

/// The bit of a mask that says that the note follows.
pub const NOTE_BIT: u8 = 1;

/// The bit for the instrument.
pub const INSTRUMENT_BIT: u8 = 2;

/// The bit for the volume.
pub const VOLUME_BIT: u8 = 4;

/// The bit for the effect.
pub const EFFECT_BIT: u8 = 8;

/// The bit for the effect's parameter.
pub const PARAMETER_BIT: u8 = 16;

/// A cell of five 0 bytes, which says nothing.
pub const EMPTY_CELL: Cell = Cell {
    note: 0,
    instrument: 0,
    volume: 0,
    effect: 0,
    parameter: 0,
};

/// An envelope that is off, and says nothing else.
pub const NO_ENVELOPE: Envelope = Envelope {
    points: [Point { x: 0, y: 0 }; 12],
    count: 0,
    sustain: 0,
    loop_start: 0,
    loop_end: 0,
    flags: 0,
};

/// No automatic vibrato.
pub const NO_VIBRATO: Vibrato = Vibrato {
    kind: 0,
    sweep: 0,
    depth: 0,
    rate: 0,
};

/// What an instrument without samples says behind its name: nothing.
pub const NO_EXTRA: Extra = Extra {
    header_size: 0,
    map: [0; 96],
    envelopes: Envelopes {
        volume: NO_ENVELOPE,
        panning: NO_ENVELOPE,
    },
    vibrato: NO_VIBRATO,
    fadeout: 0,
};
