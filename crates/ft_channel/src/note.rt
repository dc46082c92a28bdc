//! The note of a cell.

ghost use Rattle.std.specs.Prelude.{◌≡◌, ◌≤◌, ◌<◌, ◌+◌, ◌/◌, ◌%◌, ◌==◌, if◌then◌else◌, ◌≤ℤ◌, ◌&&◌, ℕ, true, None, Some, pos, nat_lt, length};
ghost use Rattle.ft_types.specs.Limits.{highest_period};
ghost use Rattle.ft_types.specs.Valid.{IsValidHead};
ghost use Rattle.ft_tables.specs.Pitch as pitch;
ghost use Rattle.ft_replay.specs.Calls as calls;
ghost use Rattle.ft_replay.specs.Effects as effects;
ghost use Rattle.ft_replay.specs.Range.{IsChannelInRange};
ghost use Rattle.ft_replay.specs.Row as row;
ghost use Rattle.ft_channel.specs.Bounds.{begin_bound, note_bound};
ghost use Rattle.ft_channel.specs.Starting.{Starts};
ghost use Rattle.ft_channel.specs.Staying.{Stays, WordsFor};

use crate::key_off::{aim, is_played, key_off, tuned_period};
use crate::memory::SAMPLE_OFFSET;
use ft_replay::{Channel, Effect};
use ft_tables::played_note;
use ft_types::{Cell, SampleHead, SongView, Voice};

/// Whether a cell has a note from 1 to 96; 97 is a key off.
fn is_note(cell: Cell) -> bool
    ensures { result ≡ row.is_note cell }
{
    0 < cell.note && cell.note <= 96
}

/// Whether an effect is a tone portamento, alone or with a volume slide.
fn is_tone_portamento(effect: Effect) -> bool
    ensures { result ≡ row.is_tone_portamento effect }
{
    matches!(
        effect,
        Effect::TonePortamento { .. } | Effect::TonePortamentoSlide { .. }
    )
}

/// Whether a note is the target of a tone portamento where a voice sounds.
fn is_towards(cell: Cell, effect: Effect) -> bool
    requires { effect ≡ effects.effect_in cell }
    ensures { result ≡ row.is_towards cell }
{
    is_tone_portamento(effect) || 240 <= cell.volume
}

/// The frame at which a note begins.
fn start_frame(channel: &Channel, effect: Effect) -> u32
    ensures value { result ≡ row.start_frame_by effect channel.now }
    ensures bounded { result ≤ 65280 }
{
    match effect {
        Effect::SampleOffset { .. } => 256 * u32::from(channel.memory[SAMPLE_OFFSET]),
        _ => 0,
    }
}

/// Whether a note, which is played where it is 0 to 118, begins at a frame of a sample.
fn can_begin(note: i16, frame: u32, head: SampleHead) -> bool
    ensures value { result ≡ pitch.is_played note && nat_lt frame head.frames }
    ensures played { result ≡ true → (pos 0 ≤ℤ note) × (note ≤ℤ pos 118) }
    ensures frame { result ≡ true → frame < head.frames }
{
    is_played(note) && frame < head.frames
}

/// The finetune of a note that begins.
fn start_finetune(effect: Effect, head: SampleHead) -> i8
    requires { effects.IsEffect effect }
    ensures { result ≡ row.start_finetune effect head }
{
    match effect {
        Effect::Finetune { tune } => (16 * i16::from(tune) - 128) as i8,
        _ => head.finetune,
    }
}

/// The position at which a wave of a kind goes on: 0, unless bit 2 of its kind is set.
fn wave_start(kind: u8, position: u8) -> u8
    ensures value { result ≡ (if kind / 4 % 2 == 0 then 0 else position) }
    ensures bound { result ≤ position }
{
    if kind / 4 % 2 == 0 {
        return 0;
    }
    position
}

/// The waves of vibrato and tremolo begin anew, unless bit 2 of their kind is set.
fn begin_waves(channel: &mut Channel)
    ensures value { channel.new ≡ row.with_new_waves channel.old }
    ensures stays { Stays channel.old channel.new }
{
    channel.vib_pos = wave_start(channel.vib_kind, channel.vib_pos);
    channel.trem_pos = wave_start(channel.trem_kind, channel.trem_pos);
    channel.retrigger = 0;
    channel.tremor = 0;
}

/// A voice at a frame of a sample, whose note has this period; gains and step are those of its
/// first tick.
fn begin_voice(channel: &mut Channel, c: u8, frame: u32, head: SampleHead, period: u16)
    requires head { IsValidHead head }
    requires frame { frame < head.frames }
    requires period { period ≤ highest_period }
    ensures value { channel.new ≡ row.with_voice (row.new_voice c frame head) period channel.old }
    ensures voice { channel.new.voice ≡ Some (row.new_voice c frame head) }
    ensures range { IsChannelInRange c channel.old → IsChannelInRange c channel.new }
{
    begin_waves(channel);
    channel.voice = Some(Voice {
        channel: c,
        head,
        pos: u64::from(frame) << 32,
        step: 0,
        left: 0,
        right: 0,
        last: false,
    });
    channel.period = period;
    channel.target = period;
}

/// No voice sounds on a channel any more.
fn end_voice(channel: &mut Channel)
    ensures value { channel.new ≡ record channel.old { voice = None } }
    ensures voice { channel.new.voice ≡ None }
    ensures range { (c : ℕ) → IsChannelInRange c channel.old → IsChannelInRange c channel.new }
{
    channel.voice = None;
}

/// A note begins the voice of a channel, or ends the one there. Whether a voice began.
fn begin<V: SongView>(
    view: &mut V,
    channel: &mut Channel,
    c: u8,
    cell: Cell,
    effect: Effect,
) -> bool
    requires note { row.is_note cell ≡ true }
    requires effect { effect ≡ effects.effect_in cell }
    requires digits { effects.IsEffect effect }
    requires channel { c < length (V.holds view.old) }
    requires range { IsChannelInRange c channel.old }
    ensures started { Starts V.shows V.shown
        (λ version song lane. row.begin_of version song c cell lane) c
        view.old view.new channel.old channel.new result }
    ensures keeps { calls.KeepsFor c (V.keeps view.old) (V.keeps view.new)
        (V.holds view.old) (V.holds view.new) channel.old.voice channel.new.voice }
    ensures range { IsChannelInRange c channel.new }
    ensures words { WordsFor c (V.words view.old) (V.words view.new) }
    ensures work { (V.work view.old ≤ V.work view.new)
        × (V.work view.new ≤ V.work view.old + begin_bound) }
    ensures same { V.same view.old view.new }
{
    let Some(head) = view.start(c, channel.instrument, cell.note - 1) else {
        end_voice(channel);
        return false;
    };
    let note = played_note(cell.note, head.relative);
    let frame = start_frame(channel, effect);
    if !can_begin(note, frame, head) {
        view.stop(c);
        end_voice(channel);
        return false;
    }
    let linear = view.head().linear;
    let period = tuned_period(linear, note, start_finetune(effect, head));
    begin_voice(channel, c, frame, head, period);
    true
}

/// The note of a cell: a key off, the target of a tone portamento, or a voice that begins or ends.
/// Whether a voice began.
#[tactic(auto, unfolding(ft_replay::specs::Row::note_of))]
pub fn start_note<V: SongView>(
    view: &mut V,
    channel: &mut Channel,
    c: u8,
    cell: Cell,
    effect: Effect,
) -> bool
    requires effect { effect ≡ effects.effect_in cell }
    requires digits { effects.IsEffect effect }
    requires channel { c < length (V.holds view.old) }
    requires range { IsChannelInRange c channel.old }
    ensures started { Starts V.shows V.shown
        (λ version song. row.note_of version song c cell) c
        view.old view.new channel.old channel.new result }
    ensures keeps { calls.KeepsFor c (V.keeps view.old) (V.keeps view.new)
        (V.holds view.old) (V.holds view.new) channel.old.voice channel.new.voice }
    ensures range { IsChannelInRange c channel.new }
    ensures words { WordsFor c (V.words view.old) (V.words view.new) }
    ensures work { (V.work view.old ≤ V.work view.new)
        × (V.work view.new ≤ V.work view.old + note_bound) }
    ensures same { V.same view.old view.new }
{
    if cell.note == 97 {
        key_off(view, channel);
        return false;
    }
    if !is_note(cell) {
        return false;
    }
    if is_towards(cell, effect) && channel.voice.is_some() {
        aim(view, channel, cell);
        return false;
    }
    begin(view, channel, c, cell, effect)
}
