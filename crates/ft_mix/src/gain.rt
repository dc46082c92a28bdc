//! What values add to the sums of a side.

ghost use Rattle.std.specs.Prelude.{◌≡◌, ◌≤◌, ◌<◌, ◌≤ℤ◌, ◌+ℤ◌, ◌-ℤ◌, ◌+◌, ℕ, pos, negsuc, length, get_or};
ghost use Rattle.ft_replay.specs.Sound as sound;
ghost use Rattle.ft_mix.specs.Mixing as mixing;

/// What a value, -32,768 to 32,767, adds to a side by its gain, of 65,536. It is rounded down; the
/// product fits 32 bits.
#[tactic(auto, unfolding(ft_replay::specs::Sound::gained))]
fn gained(value: i32, gain: u32) -> i32
    requires gain { gain ≤ 65536 }
    requires value_low { negsuc 32767 ≤ℤ value }
    requires value_high { value ≤ℤ pos 32767 }
    ensures value { result ≡ sound.gained value gain }
    ensures low { negsuc 8191 ≤ℤ result }
    ensures high { result ≤ℤ pos 8191 }
{
    (value * gain as i32) >> 18
}

/// A sum with a value added by its gain.
fn added(sum: i32, value: i32, gain: u32) -> i32
    requires gain { gain ≤ 65536 }
    requires value_low { negsuc 32767 ≤ℤ value }
    requires value_high { value ≤ℤ pos 32767 }
    requires room { mixing.IsLoud 31 sum }
    ensures value { result ≡ (sum +ℤ sound.gained value gain) }
    ensures loud { (n : ℕ) → mixing.IsLoud n sum → mixing.IsLoud (n + 1) result }
{
    sum + gained(value, gain)
}

/// Adds values, each of -32,768 to 32,767, to the sums of both sides by their gains, each of 65,536.
pub fn add_values(
    values: &[i32],
    left_gain: u32,
    right_gain: u32,
    left: &mut [i32],
    right: &mut [i32],
)
    requires many { length values.now ≡ length left.old }
    requires both { length right.old ≡ length left.old }
    requires left_gain { left_gain ≤ 65536 }
    requires right_gain { right_gain ≤ 65536 }
    requires range { mixing.Fit16 (length values.now) values.now }
    requires left_room { mixing.AreLoud 31 (length left.old) left.old }
    requires right_room { mixing.AreLoud 31 (length left.old) right.old }
    ensures left { mixing.HaveAdded left_gain values.now left.old left.new (length left.old) }
    ensures right { mixing.HaveAdded right_gain values.now right.old right.new (length left.old) }
    ensures many { length left.new ≡ length left.old }
    ensures both { length right.new ≡ length right.old }
{
    for k in 0..left.len() {
        let value = values[k];
        left[k] = added(left[k], value, left_gain);
        right[k] = added(right[k], value, right_gain);
    }
}
