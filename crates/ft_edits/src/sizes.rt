//! The sizes of a song that the causes of an edit ask for.

ghost use Rattle.std.specs.Prelude.{◌≡◌, ◌≤◌};
ghost use Rattle.ft_types.specs.declared.module.Module.{Module};
ghost use Rattle.ft_types.specs.Views.{rows_at};
ghost use Rattle.ft_types.specs.Limits.{most_frames};
ghost use Rattle.ft_edits.specs.Sizes.{song_sizes, sample_sizes};

/// How many parts a song has.
#[derive(Clone, Copy)]
pub struct SongSizes {
    /// Channels.
    pub channels: u8,
    /// Orders.
    pub orders: u16,
    /// Stored patterns.
    pub patterns: u16,
    /// Instruments.
    pub instruments: u16,
}

/// The sizes of a sample and of its instrument.
#[derive(Clone, Copy)]
pub struct SampleSizes {
    /// Samples of the instrument; 0 where there is no such instrument.
    pub samples: u8,
    /// Frames of the sample; 0 where there is no such sample.
    pub frames: u32,
    /// Whether the frames have 16 bits.
    pub wide: bool,
}

/// Answers the sizes of a song.
///
/// Each call says what it answers for whatever song the view may show after the call, and that it
/// might show this song before: a call never widens what a view may show. No call takes memory.
pub trait SizeView {
    // Which songs it may show.
    ghost may_show: { Self → Module → Type 0 };

    // What a call leaves.
    ghost same: { Self → Self → Type 0 };

    /// The sizes of the song as a whole.
    fn song(&mut self) -> SongSizes
        ensures narrows { (m : Module) → may_show self.new m → may_show self.old m }
        ensures answer { (m : Module) → may_show self.new m → result ≡ song_sizes m }
        ensures same { same self.old self.new };

    /// The rows of a pattern; 64 where it isn't stored.
    fn rows(&mut self, p: u8) -> u16
        ensures narrows { (m : Module) → may_show self.new m → may_show self.old m }
        ensures answer { (m : Module) → may_show self.new m → result ≡ rows_at m p }
        ensures same { same self.old self.new };

    /// The sizes of a sample, from 0, of an instrument, from 1.
    fn sample(&mut self, i: u8, s: u8) -> SampleSizes
        ensures narrows { (m : Module) → may_show self.new m → may_show self.old m }
        ensures answer { (m : Module) → may_show self.new m → result ≡ sample_sizes m i s }
        ensures few { result.frames ≤ most_frames }
        ensures same { same self.old self.new };

    ghost same_here: { (v : Self) → same v v };

    ghost same_through: { (u v x : Self) → same u v → same v x → same u x };
}
