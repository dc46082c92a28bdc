//! Where the fields of a four-channel ProTracker module stand, and their limits.

/// The bytes of the title, at the front.
pub const TITLE: u32 = 20;

/// Where the headers of the samples begin.
pub const HEADERS_AT: u32 = 20;

/// How many samples there are.
pub const SAMPLES: u32 = 31;

/// The bytes of a sample's header.
pub const HEADER: u32 = 30;

/// The bytes of a sample's name, at the front of its header.
pub const SAMPLE_NAME: usize = 22;

/// Where the song length stands, one byte.
pub const LENGTH_AT: u32 = 950;

/// The greatest song length.
pub const MOST_LENGTH: u8 = 128;

/// Where the restart stands, one byte.
pub const RESTART_AT: u32 = 951;

/// Where the orders begin.
pub const ORDERS_AT: u32 = 952;

/// How many orders there are, those behind the song's end too.
pub const ORDERS: u32 = 128;

/// The greatest order.
pub const MOST_ORDER: u8 = 127;

/// Where the mark stands.
pub const MARK_AT: u32 = 1080;

/// The mark of a module of four channels.
pub const MOD_MARK: [u8; 4] = *b"M.K.";

/// Where the patterns begin.
pub const PATTERNS_AT: u32 = 1084;

/// The bytes of a pattern: 64 rows of 4 cells of 4 bytes.
pub const PATTERN: u32 = 1024;

/// The cells of a pattern.
pub const CELLS: usize = 256;

/// The periods of the notes C-1 to B-3 of ProTracker, highest first.
pub const PERIODS: [u16; 36] = [
    856, 808, 762, 720, 678, 640, 604, 570, 538, 508, 480, 453, 428, 404, 381, 360, 339, 320, 302,
    285, 269, 254, 240, 226, 214, 202, 190, 180, 170, 160, 151, 143, 135, 127, 120, 113,
];

/// The note of the first period, C-3 of a module: 0 is no note, and 1 is C-0.
pub const FIRST_NOTE: u8 = 37;

/// The tracker name of what is read.
pub const TRACKER: [u8; 20] = *b"M.K.\0\0\0\0\0\0\0\0\0\0\0\0\0\0\0\0";
