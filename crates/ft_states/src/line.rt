//! The line of a tick.

use arrayvec::ArrayVec;
use ft_replay::{Channel, Control, Place, SongState};
use ft_types::Voice;
use std::io;
use std::io::Write;

/// Writes where the tick was, and then the state after it.
pub fn put_line<W: Write>(out: &mut W, place: Place, song: &SongState) -> io::Result<()> {
    write!(out, "{} {} {}", place.order, place.row, place.tick)?;
    write!(out, " {}", place.frames)?;
    put_control(out, &song.control)?;
    for (channel, number) in song.channels.iter().zip(0..song.used) {
        put_channel(out, channel)?;
        put_voice(out, channel, voice_on(&song.voices, number))?;
    }
    writeln!(out)
}

fn put_control<W: Write>(out: &mut W, control: &Control) -> io::Result<()> {
    write!(out, " {} {} {}", control.pos, control.row, control.tick)?;
    write!(
        out,
        " {} {} {}",
        control.tempo, control.bpm, control.last_bpm
    )?;
    write!(
        out,
        " {} {} {}",
        control.global, control.carry, control.delay
    )
}

fn put_channel<W: Write>(out: &mut W, c: &Channel) -> io::Result<()> {
    write!(out, " {} {} {}", c.instrument, c.vol, c.pan)?;
    write!(out, " {} {}", c.period, c.target)?;
    write!(
        out,
        " {} {} {} {}",
        c.vib_pos, c.vib_kind, c.vib_speed, c.vib_depth
    )?;
    write!(
        out,
        " {} {} {} {}",
        c.trem_pos, c.trem_kind, c.trem_speed, c.trem_depth
    )?;
    write!(out, " {} {}", c.tone_speed, u8::from(c.glissando))?;
    write!(out, " {} {}", u8::from(c.released), c.fade)?;
    write!(out, " {} {}", c.retrigger, c.tremor)?;
    write!(out, " {} {}", c.loop_row, c.loop_count)?;
    write!(out, " {} {} {}", c.arp, c.vib_off, c.trem_off)?;
    write!(out, " {} {}", u8::from(c.gliding), u8::from(c.muted))?;
    for memory in c.memory.iter() {
        write!(out, " {memory}")?;
    }
    Ok(())
}

/// Writes whether a voice sounds and where, and what is heard of it.
fn put_voice<W: Write>(out: &mut W, c: &Channel, voice: Option<&Voice>) -> io::Result<()> {
    write!(
        out,
        " {} {}",
        u8::from(voice.is_some()),
        voice.map_or(0, |v| v.pos)
    )?;
    write!(
        out,
        " {} {} {} {}",
        c.vol_env, c.pan_env, c.auto_pos, c.auto_age
    )?;
    match voice {
        Some(v) => write!(
            out,
            " {} {} {} {}",
            v.step,
            v.left,
            v.right,
            u8::from(v.last)
        ),
        None => write!(out, " 0 0 0 0"),
    }
}

/// The voice that sounds on a channel.
fn voice_on(voices: &ArrayVec<Voice, 32>, channel: u8) -> Option<&Voice> {
    voices.iter().find(|voice| voice.channel == channel)
}
