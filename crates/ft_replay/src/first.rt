//! The state in which a song begins.

ghost use Rattle.std.specs.Prelude.{◌≡◌, ◌≤◌, [], None, replicate};
ghost use Rattle.ft_types.specs.Views.{Shown};
ghost use Rattle.ft_replay.specs.Range.{IsSongInRange};
ghost use Rattle.ft_replay.specs.Standing.{sequential_of};
ghost use Rattle.ft_replay.specs.State.{first_channel, first_control, first_state};

use crate::state::{Channel, Control, SongState};
use arrayvec::ArrayVec;
use ft_types::Cell;

impl Channel {
    /// A channel before the first tick: panning is in the middle, and all else is 0.
    pub fn first() -> Channel
        ensures { result ≡ first_channel }
    {
        Channel {
            cell: Cell {
                note: 0,
                instrument: 0,
                volume: 0,
                effect: 0,
                parameter: 0,
            },
            instrument: 0,
            vol: 0,
            pan: 128,
            period: 0,
            target: 0,
            vib_pos: 0,
            vib_kind: 0,
            vib_speed: 0,
            vib_depth: 0,
            trem_pos: 0,
            trem_kind: 0,
            trem_speed: 0,
            trem_depth: 0,
            tone_speed: 0,
            glissando: false,
            released: false,
            fade: 0,
            vol_env: 0,
            pan_env: 0,
            auto_pos: 0,
            auto_age: 0,
            retrigger: 0,
            tremor: 0,
            loop_row: 0,
            loop_count: 0,
            memory: [0, 0, 0, 0, 0, 0, 0, 0, 0, 0, 0, 0, 0, 0, 0],
            voice: None,
            vib_off: 0,
            trem_off: 0,
            arp: 0,
            gliding: false,
            muted: false,
        }
    }
}

impl Control {
    /// The control before the first tick: the global volume is full, and all else is 0.
    pub fn first() -> Control
        ensures { result ≡ first_control }
    {
        Control {
            global: 64,
            ..Control::default()
        }
    }
}

impl SongState {
    /// The state before the first tick of a song of 1 to 32 channels, for which nothing is kept.
    pub fn first(channels: u8) -> SongState
        requires { channels ≤ 32 }
        ensures state { (shown : Shown) → shown.kept ≡ replicate channels None
            → sequential_of result shown ≡ first_state channels }
        ensures used { result.used ≡ channels }
        ensures voices { result.voices.items ≡ [] }
        ensures range { IsSongInRange result }
    {
        SongState {
            control: Control::first(),
            used: channels,
            channels: [Channel::first(); 32],
            voices: ArrayVec::new(),
        }
    }
}
