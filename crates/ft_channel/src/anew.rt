//! What an instrument byte or a note sets anew.

ghost use Rattle.std.specs.Prelude.{◌≡◌, if◌then◌else◌};
ghost use Rattle.ft_replay.specs.Row as row;
ghost use Rattle.ft_channel.specs.Staying.{Stays};

use ft_replay::Channel;
use ft_types::Cell;

/// Whether a cell has an instrument byte beside anything but a key off.
fn is_instrument(cell: Cell) -> bool
    ensures { result ≡ row.is_instrument cell }
{
    cell.instrument != 0 && cell.note != 97
}

/// An instrument byte becomes the channel's instrument.
pub fn take_instrument(channel: &mut Channel, cell: Cell)
    ensures value { channel.new ≡ row.with_cell_instrument cell channel.old }
    ensures stays { Stays channel.old channel.new }
{
    if cell.instrument != 0 {
        channel.instrument = cell.instrument;
    }
}

/// Fade, envelopes and automatic vibrato begin anew, or stay.
fn begin_anew(channel: &mut Channel, anew: bool)
    ensures value { channel.new ≡ (if anew then row.as_new channel.old else channel.old) }
    ensures stays { Stays channel.old channel.new }
{
    if !anew {
        return;
    }
    channel.released = false;
    channel.fade = 32768;
    channel.vol_env = 0;
    channel.pan_env = 0;
    channel.auto_pos = 0;
    channel.auto_age = 0;
}

/// Volume and panning become those of the sounding voice's sample.
fn take_levels(channel: &mut Channel)
    ensures value { channel.new ≡ row.with_levels channel.old.voice channel.old }
    ensures stays { Stays channel.old channel.new }
{
    let Some(voice) = channel.voice else {
        return;
    };
    channel.vol = voice.head.volume;
    channel.pan = voice.head.panning;
}

/// What a note that began a voice, or an instrument byte, sets anew.
#[tactic(auto, unfolding(ft_replay::specs::Row::after_note))]
pub fn after_note(channel: &mut Channel, began: bool, cell: Cell)
    ensures value { channel.new ≡ row.after_note began cell channel.old }
    ensures stays { Stays channel.old channel.new }
{
    begin_anew(channel, began || is_instrument(cell));
    if is_instrument(cell) {
        take_levels(channel);
    }
}
