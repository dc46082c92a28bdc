//! The effects of cells, and those of the volume column.

ghost use Rattle.std.specs.Prelude.{◌≡◌, ◌≤◌};
ghost use Rattle.ft_replay.specs.Effects as effects;

use ft_types::Cell;

/// The effect of a cell: its effect byte and parameter, read once.
///
/// Each comes with its letter as trackers print it, and the digits or the number of its
/// parameter. Where it says "memory", 0 stands for the last parameter that wasn't 0.
#[derive(Clone, Copy)]
pub enum Effect {
    /// None, or one that means nothing.
    Nothing,
    /// 0xy: the note, x semitones above and y semitones above, tick by tick.
    Arpeggio { x: u8, y: u8 },
    /// 1xx: the period falls by four times as much at each later tick (memory).
    PortamentoUp { speed: u8 },
    /// 2xx: the period rises by four times as much at each later tick (memory).
    PortamentoDown { speed: u8 },
    /// 3xx: the period goes to the row's note.
    TonePortamento { speed: u8 },
    /// 4xy: the period swings.
    Vibrato { speed: u8, depth: u8 },
    /// 5xy: tone portamento with a volume slide (memory of Axy).
    TonePortamentoSlide { change: u8 },
    /// 6xy: vibrato with a volume slide (memory of Axy).
    VibratoSlide { change: u8 },
    /// 7xy: the volume swings.
    Tremolo { speed: u8, depth: u8 },
    /// 8xx: panning, 0 left to 255 right.
    Panning { panning: u8 },
    /// 9xx: the row's note begins at that many times 256 frames (memory).
    SampleOffset { pages: u8 },
    /// Axy: the volume rises by x, or else falls by y, at each later tick (memory).
    VolumeSlide { change: u8 },
    /// Bxx: the next row is at this order position.
    Jump { order: u8 },
    /// Cxx: volume, 0 to 64.
    Volume { volume: u8 },
    /// Dxx: the next row is this one of the next order position, 0 to 63.
    Break { row: u8 },
    /// E1x: the period falls once by four times as much (memory).
    FinePortamentoUp { speed: u8 },
    /// E2x: the period rises once by four times as much (memory).
    FinePortamentoDown { speed: u8 },
    /// E3x: whether a tone portamento is heard in semitones.
    Glissando { on: bool },
    /// E4x: the kind of the vibrato's wave, 0 to 7.
    VibratoWave { kind: u8 },
    /// E5x: the finetune of the row's note, 0 to 15 for -128 to 112.
    Finetune { tune: u8 },
    /// E6x: the first row of a loop where this is 0, else how often it is played again.
    PatternLoop { times: u8 },
    /// E7x: the kind of the tremolo's wave, 0 to 7.
    TremoloWave { kind: u8 },
    /// E9x: the voice begins anew each time that many ticks have passed.
    Retrigger { interval: u8 },
    /// EAx: the volume rises once (memory).
    FineVolumeUp { change: u8 },
    /// EBx: the volume falls once (memory).
    FineVolumeDown { change: u8 },
    /// ECx: the volume is 0 from this tick on.
    NoteCut { tick: u8 },
    /// EDx: the row's note begins at this tick, 1 to 15.
    NoteDelay { tick: u8 },
    /// EEx: the row is repeated so often.
    PatternDelay { rows: u8 },
    /// Fxx below 32: ticks per row, 1 to 31.
    Tempo { ticks: u8 },
    /// Fxx from 32 on: beats per minute.
    Bpm { bpm: u8 },
    /// Gxx: global volume, 0 to 64.
    GlobalVolume { volume: u8 },
    /// Hxy: the global volume slides as by Axy (memory).
    GlobalSlide { change: u8 },
    /// Kxx: key off at this tick.
    KeyOff { tick: u8 },
    /// Lxx: the position of both envelopes, in ticks.
    EnvelopePosition { position: u8 },
    /// Pxy: the panning goes right by x, or else left by y, at each later tick (memory).
    PanningSlide { change: u8 },
    /// Rxy: the voice begins anew each y ticks, with its volume changed by x (memory of each).
    MultiRetrigger { change: u8, interval: u8 },
    /// Txy: the voice is heard for x + 1 ticks and muted for y + 1, in turn (memory).
    Tremor { times: u8 },
    /// X1x: the period falls once by as much (memory).
    ExtraFineUp { speed: u8 },
    /// X2x: the period rises once by as much (memory).
    ExtraFineDown { speed: u8 },
}

/// The effect of a cell's volume byte.
#[derive(Clone, Copy)]
pub enum VolumeEffect {
    /// None.
    Nothing,
    /// 10 to 50: volume, 0 to 64.
    Volume { volume: u8 },
    /// 6x: the volume falls at each later tick.
    SlideDown { change: u8 },
    /// 7x: the volume rises at each later tick.
    SlideUp { change: u8 },
    /// 8x: the volume falls once.
    FineDown { change: u8 },
    /// 9x: the volume rises once.
    FineUp { change: u8 },
    /// Ax: the speed of a vibrato.
    VibratoSpeed { speed: u8 },
    /// Bx: the depth of a vibrato, and a vibrato at each later tick.
    Vibrato { depth: u8 },
    /// Cx: panning, 16 times as much.
    Panning { panning: u8 },
    /// Dx: the panning goes left at each later tick.
    PanningLeft { change: u8 },
    /// Ex: the panning goes right at each later tick.
    PanningRight { change: u8 },
    /// Fx: the speed of a tone portamento, 16 times as much, and one at each later tick.
    TonePortamento { speed: u8 },
}

/// The effect E of a digit.
#[inline(always)]
#[tactic(auto, unfolding(crate::specs::Effects::extended))]
fn extended(digit: u8, y: u8) -> Effect
    requires { y ≤ 15 }
    ensures value { result ≡ effects.extended digit y }
    ensures range { effects.IsEffect result }
{
    match digit {
        1 => Effect::FinePortamentoUp { speed: y },
        2 => Effect::FinePortamentoDown { speed: y },
        3 => Effect::Glissando { on: y != 0 },
        4 => Effect::VibratoWave { kind: y % 8 },
        5 => Effect::Finetune { tune: y },
        6 => Effect::PatternLoop { times: y },
        7 => Effect::TremoloWave { kind: y % 8 },
        9 => Effect::Retrigger { interval: y },
        10 => Effect::FineVolumeUp { change: y },
        11 => Effect::FineVolumeDown { change: y },
        12 => Effect::NoteCut { tick: y },
        13 if y != 0 => Effect::NoteDelay { tick: y },
        14 => Effect::PatternDelay { rows: y },
        _ => Effect::Nothing,
    }
}

/// The effect F of a parameter.
fn speed(parameter: u8) -> Effect
    ensures value { result ≡ effects.speed parameter }
    ensures range { effects.IsEffect result }
{
    match parameter {
        0 => Effect::Nothing,
        1..=31 => Effect::Tempo { ticks: parameter },
        _ => Effect::Bpm { bpm: parameter },
    }
}

/// The effect X of a digit.
fn extra_fine(digit: u8, y: u8) -> Effect
    ensures value { result ≡ effects.extra_fine digit y }
    ensures range { effects.IsEffect result }
{
    match digit {
        1 => Effect::ExtraFineUp { speed: y },
        2 => Effect::ExtraFineDown { speed: y },
        _ => Effect::Nothing,
    }
}

/// An arpeggio, or nothing where both its digits are 0.
fn arpeggio(parameter: u8) -> Effect
    ensures value { result ≡ effects.arpeggio_of parameter }
    ensures range { effects.IsEffect result }
{
    if parameter == 0 {
        return Effect::Nothing;
    }
    Effect::Arpeggio {
        x: parameter / 16,
        y: parameter % 16,
    }
}

/// The row that a break names in decimal digits.
fn decimal_row(parameter: u8) -> u8
    ensures { result ≡ effects.decimal_row parameter }
{
    let row = 10 * (parameter / 16) + parameter % 16;
    if row <= 63 { row } else { 0 }
}

/// The effects 0 to F.
#[inline(always)]
#[tactic(auto, unfolding(crate::specs::Effects::digit_effect))]
fn digit_effect(number: u8, parameter: u8) -> Effect
    requires { number ≤ 15 }
    ensures value { result ≡ effects.digit_effect number parameter }
    ensures range { effects.IsEffect result }
{
    let x = parameter / 16;
    let y = parameter % 16;
    match number {
        0 => arpeggio(parameter),
        1 => Effect::PortamentoUp { speed: parameter },
        2 => Effect::PortamentoDown { speed: parameter },
        3 => Effect::TonePortamento { speed: parameter },
        4 => Effect::Vibrato { speed: x, depth: y },
        5 => Effect::TonePortamentoSlide { change: parameter },
        6 => Effect::VibratoSlide { change: parameter },
        7 => Effect::Tremolo { speed: x, depth: y },
        8 => Effect::Panning { panning: parameter },
        9 => Effect::SampleOffset { pages: parameter },
        10 => Effect::VolumeSlide { change: parameter },
        11 => Effect::Jump { order: parameter },
        12 => Effect::Volume { volume: parameter },
        13 => Effect::Break {
            row: decimal_row(parameter),
        },
        14 => extended(x, y),
        _ => speed(parameter),
    }
}

/// The effects G to X.
#[inline(always)]
#[tactic(auto, unfolding(crate::specs::Effects::letter_effect))]
fn letter_effect(number: u8, parameter: u8) -> Effect
    ensures value { result ≡ effects.letter_effect number parameter }
    ensures range { effects.IsEffect result }
{
    let x = parameter / 16;
    let y = parameter % 16;
    match number {
        16 => Effect::GlobalVolume { volume: parameter },
        17 => Effect::GlobalSlide { change: parameter },
        20 => Effect::KeyOff { tick: parameter },
        21 => Effect::EnvelopePosition {
            position: parameter,
        },
        25 => Effect::PanningSlide { change: parameter },
        27 => Effect::MultiRetrigger {
            change: x,
            interval: y,
        },
        29 => Effect::Tremor { times: parameter },
        33 => extra_fine(x, y),
        _ => Effect::Nothing,
    }
}

impl Effect {
    /// The effect of a cell. All cells have one.
    #[inline(always)]
    #[tactic(auto, unfolding(crate::specs::Effects::effect_of))]
    pub fn of(cell: Cell) -> Effect
        ensures value { result ≡ effects.effect_in cell }
        ensures range { effects.IsEffect result }
    {
        if cell.effect <= 15 {
            digit_effect(cell.effect, cell.parameter)
        } else {
            letter_effect(cell.effect, cell.parameter)
        }
    }
}

impl VolumeEffect {
    /// The effect of a volume byte. All bytes have one.
    #[inline(always)]
    #[tactic(auto, unfolding(crate::specs::Effects::volume_effect_of))]
    pub fn of(volume: u8) -> VolumeEffect
        ensures value { result ≡ effects.volume_effect_of volume }
        ensures range { effects.IsVolumeEffect result }
    {
        let y = volume % 16;
        match volume {
            0x10..=0x50 => VolumeEffect::Volume {
                volume: volume - 16,
            },
            0x60..=0x6f => VolumeEffect::SlideDown { change: y },
            0x70..=0x7f => VolumeEffect::SlideUp { change: y },
            0x80..=0x8f => VolumeEffect::FineDown { change: y },
            0x90..=0x9f => VolumeEffect::FineUp { change: y },
            0xa0..=0xaf => VolumeEffect::VibratoSpeed { speed: y },
            0xb0..=0xbf => VolumeEffect::Vibrato { depth: y },
            0xc0..=0xcf => VolumeEffect::Panning { panning: 16 * y },
            0xd0..=0xdf => VolumeEffect::PanningLeft { change: y },
            0xe0..=0xef => VolumeEffect::PanningRight { change: y },
            0xf0..=0xff => VolumeEffect::TonePortamento { speed: 16 * y },
            _ => VolumeEffect::Nothing,
        }
    }
}
