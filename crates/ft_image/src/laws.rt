//! Laws of the definitions. These functions do nothing; their contracts say what holds.

ghost use Rattle.std.specs.Prelude.{ℕ};
ghost use Rattle.ft_types.specs.declared.module.Module.{Module};
ghost use Rattle.ft_types.specs.declared.sample.Sample.{Sample};
ghost use Rattle.ft_types.specs.Valid.{IsValidSample};
ghost use Rattle.ft_segments.specs.Walk.{Placed, IsOf};
ghost use Rattle.ft_image.specs.Laws.{WalkIsThere, ShownStays, ShownHasBlocks};
ghost use Rattle.ft_image.specs.Read.{IsRootOf};
ghost use Rattle.ft_image.specs.Shown.{Shows};

/// Where words stand for a song by some ids, the walk from its root finds these ids.
pub fn walk_finds_the_ids()
    ensures { WalkIsThere }
{}

/// Where words change outside of a version's segments alone, or are added behind, the version shows
/// what it showed.
pub fn shown_stays()
    ensures { ShownStays }
{}

/// A version that shows a song has as many segments as the song has blocks.
pub fn shown_has_blocks()
    ensures { ShownHasBlocks }
{}

/// The root of a sample of a shown song is a segment of the version, and the sample is valid.
pub fn a_shown_sample_is_of_its_version()
    ensures segment { (placed : Placed) (song : Module) (root : ℕ) (sample : Sample)
        → Shows placed song → IsRootOf placed song root sample → IsOf placed root }
    ensures valid { (placed : Placed) (song : Module) (root : ℕ) (sample : Sample)
        → Shows placed song → IsRootOf placed song root sample → IsValidSample sample }
{}
