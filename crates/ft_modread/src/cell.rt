//! A cell, with what becomes of its effect.

ghost use Rattle.std.specs.Prelude.{◌≡◌, ◌<◌};
ghost use Rattle.ft_modread.specs.Effects.{is_idle, is_slideless, is_finetune, mod_effect, mod_parameter};
ghost use Rattle.ft_modread.specs.Patterns.{cell_from};

use crate::note::note_of;
use ft_types::Cell;

/// Whether ProTracker does nothing here, where an Extended Module would repeat the last parameter.
fn is_idle(effect: u8, parameter: u8) -> bool
    ensures { result ≡ is_idle effect parameter }
{
    match effect {
        1 | 2 | 10 => parameter == 0,
        14 => matches!(parameter, 0x10 | 0x20 | 0xA0 | 0xB0),
        _ => false,
    }
}

/// The effect.
fn effect_of(effect: u8, parameter: u8) -> u8
    ensures { result ≡ mod_effect effect parameter }
{
    if is_idle(effect, parameter) {
        return 0;
    }
    match (effect, parameter) {
        (5, 0) => 3,
        (6, 0) => 4,
        _ => effect,
    }
}

/// The parameter. The finetunes of effect 14 begin with 0 in ProTracker, and with -8 here.
fn parameter_of(effect: u8, parameter: u8) -> u8
    ensures { result ≡ mod_parameter effect parameter }
{
    if is_idle(effect, parameter) {
        return 0;
    }
    if effect == 14 && parameter / 16 == 5 {
        return 0x50 + (parameter + 8) % 16;
    }
    parameter
}

/// The cell of four bytes.
#[tactic(auto, unfolding(crate::specs::Patterns::cell_from))]
pub fn cell_of(a: u8, b: u8, c: u8, d: u8) -> Cell
    ensures { result ≡ cell_from a b c d }
{
    let period = 256 * u16::from(a % 16) + u16::from(b);
    Cell {
        note: note_of(period),
        instrument: 16 * (a / 16) + c / 16,
        volume: 0,
        effect: effect_of(c % 16, d),
        parameter: parameter_of(c % 16, d),
    }
}
