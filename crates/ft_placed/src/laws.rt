//! Laws of the definitions. These functions do nothing; their contracts say what holds.

ghost use Rattle.ft_placed.specs.Laws.{PatternRootIsThere, InstrumentRootIsThere, SampleRootIsThere};
ghost use Rattle.ft_placed.specs.Laws.{PatternOfRoot, InstrumentOfRoot, SampleOfRoot};

/// The root that is read of a part is that of its ids.
pub fn ids_give_their_roots()
    ensures patterns { PatternRootIsThere }
    ensures instruments { InstrumentRootIsThere }
    ensures samples { SampleRootIsThere }
{}

/// A root that is read is that of ids of the song.
pub fn a_root_is_of_its_ids()
    ensures patterns { PatternOfRoot }
    ensures instruments { InstrumentOfRoot }
    ensures samples { SampleOfRoot }
{}
