//! Laws of the definitions. These functions do nothing; their contracts say what holds.

ghost use Rattle.std.specs.Prelude.{◌≡◌, ℕ, List, ◌≤◌, ◌<◌, length};
ghost use Rattle.ft_segments.specs.Laws.{SampleStays, SampleIsOfIt};
ghost use Rattle.ft_segments.specs.Packing.{word_at};
ghost use Rattle.ft_segments.specs.Pins.{index_room, PinHolds};
ghost use Rattle.ft_segments.specs.Walk.{Placed, IsOf, IsSound, SameWords, is_it, walk, uses};
ghost use Rattle.ft_segments.specs.Walk.{sample_walk, sample_uses};

/// The walk from a sample's root stays while the words of its segments stay.
pub fn sample_stays()
    ensures { SampleStays }
{}

/// The segments of a sample of a version are the version's.
pub fn sample_segments_are_of_the_version()
    ensures { SampleIsOfIt }
{}

/// Where the segments that a pin of a sample's root holds of a version have the same words in
/// another pool, the root names each of them there too.
pub fn held_by_a_pin_is_named()
    ensures { (placed : Placed) (pool : List ℕ) (root segment : ℕ)
        → ((held : ℕ) → PinHolds placed root held → SameWords placed.pool pool held)
        → PinHolds placed root segment
        → 1 ≤ sample_uses segment (sample_walk pool root) }
{}

/// Where all segments that a sample's root names are the version's, a pin of the root holds each of
/// them. The sample has no more indexes than its root has room for.
pub fn a_pin_holds_its_sample()
    ensures { (placed : Placed) (root segment : ℕ)
        → length (sample_walk placed.pool root).indexes ≤ index_room
        → ((named : ℕ) → 1 ≤ sample_uses named (sample_walk placed.pool root)
        → IsOf placed named)
        → 1 ≤ sample_uses segment (sample_walk placed.pool root)
        → PinHolds placed root segment }
{}

/// A walk reads nothing of a pool but the words of its segments: where all words are the same, the
/// walk finds the same ids.
pub fn a_walk_reads_words_alone()
    ensures { (old new : List ℕ) (root : ℕ)
        → ((segment at : ℕ) → word_at new segment at ≡ word_at old segment at)
        → walk new root ≡ walk old root }
{}

/// A root of a song without patterns and instruments names itself alone, as does a root of a
/// sample without frames.
pub fn a_bare_root_names_itself()
    ensures song { (pool : List ℕ) (root segment : ℕ) → word_at pool root 1 ≡ 0
        → uses segment (walk pool root) ≡ is_it segment root }
    ensures sound { (pool : List ℕ) (root segments : ℕ) → word_at pool root 1 ≡ 0
        → root < segments → IsSound segments (walk pool root) }
    ensures sample { (pool : List ℕ) (root segment : ℕ) → word_at pool root 0 ≡ 0
        → sample_uses segment (sample_walk pool root) ≡ is_it segment root }
{}
