//! What the root of a song says of the song as a whole.

ghost use Rattle.std.specs.Prelude.{◌≡◌, ◌≤◌, ◌<◌, ◌+◌, ◌*◌, ◌-◌, ℕ, List, length};
ghost use Rattle.ft_types.specs.declared.module.Module.{Module};
ghost use Rattle.ft_types.specs.declared.pattern.Pattern.{Pattern};
ghost use Rattle.ft_types.specs.declared.instrument.Instrument.{Instrument};
ghost use Rattle.ft_types.specs.Valid.{IsValid};
ghost use Rattle.ft_image.specs.Values.{head_word, counts_word};

/// The first word of a song with another restart.
#[tactic(auto, unfolding(ft_image::specs::Values::head_word))]
pub fn with_restart(word: u64, restart: u16) -> u64
    ensures { (m : Module) → IsValid m → word ≡ head_word m
        → result ≡ head_word (record m { restart = restart }) }
{
    word % 65536 + 65536 * u64::from(restart) + 4294967296 * (word / 4294967296)
}

/// With another tempo.
#[tactic(auto, unfolding(ft_image::specs::Values::head_word))]
pub fn with_tempo(word: u64, tempo: u8) -> u64
    ensures { (m : Module) → IsValid m → word ≡ head_word m
        → result ≡ head_word (record m { tempo = tempo }) }
{
    let high = u64::from(tempo) + 256 * (word / 72057594037927936);
    word % 281474976710656 + 281474976710656 * high
}

/// With another BPM.
#[tactic(auto, unfolding(ft_image::specs::Values::head_word))]
pub fn with_bpm(word: u64, bpm: u8) -> u64
    ensures { (m : Module) → IsValid m → word ≡ head_word m
        → result ≡ head_word (record m { bpm = bpm }) }
{
    word % 72057594037927936 + 72057594037927936 * u64::from(bpm)
}

/// With another number of orders.
#[tactic(auto, unfolding(ft_image::specs::Values::head_word))]
pub fn with_length(word: u64, count: u16) -> u64
    ensures { (m : Module) (orders : List ℕ) → length m.orders ≤ 256 → word ≡ head_word m
        → length orders ≡ count → result ≡ head_word (record m { orders = orders }) }
{
    u64::from(count) + 65536 * (word / 65536)
}

/// The number of orders.
#[tactic(auto, unfolding(ft_image::specs::Values::head_word))]
pub fn orders_of(word: u64) -> u16
    ensures { (m : Module) → IsValid m → word ≡ head_word m → result ≡ length m.orders }
{
    (word % 65536) as u16
}

/// The restart.
#[tactic(auto, unfolding(ft_image::specs::Values::head_word))]
pub fn restart_of(word: u64) -> u16
    ensures { (m : Module) → IsValid m → word ≡ head_word m → result ≡ m.restart }
{
    (word / 65536 % 65536) as u16
}

/// The second word of a song with a pattern more.
#[tactic(auto, unfolding(ft_image::specs::Values::counts_word))]
pub fn with_pattern_more(word: u64) -> u64
    ensures { (m : Module) (patterns : List Pattern) → IsValid m → word ≡ counts_word m
        → length patterns ≡ length m.patterns + 1
        → result ≡ counts_word (record m { patterns = patterns }) }
{
    word % 4294967296 + 1
}

/// With a pattern less.
#[tactic(auto, unfolding(ft_image::specs::Values::counts_word))]
pub fn with_pattern_less(word: u64) -> u64
    ensures { (m : Module) (patterns : List Pattern) → IsValid m → word ≡ counts_word m
        → length patterns + 1 ≡ length m.patterns
        → result ≡ counts_word (record m { patterns = patterns }) }
{
    (word % 4294967296).saturating_sub(1)
}

/// With an instrument more.
#[tactic(auto, unfolding(ft_image::specs::Values::counts_word))]
pub fn with_instrument_more(word: u64) -> u64
    ensures { (m : Module) (instruments : List Instrument) → IsValid m → word ≡ counts_word m
        → length instruments ≡ length m.instruments + 1
        → result ≡ counts_word (record m { instruments = instruments }) }
{
    word % 4294967296 + 65536
}
