//! Laws of the definitions. These functions do nothing; their contracts say what holds.

ghost use Rattle.ft_sharing.specs.Laws.{SharedShows, ReachedFits, FreshFrames};
ghost use Rattle.ft_sharing.specs.Laws.{OthersWereThere, OthersStay};

use ft_changes::segments_balance;
use ft_image::{shown_stays, walk_finds_the_ids};

/// Where the fresh segments have the words of all that an edit touched, and the segments of the
/// version before it have the words that they had, the pool shows the song after the edit.
pub fn an_edited_song_is_shown()
    ensures { SharedShows }
{
    shown_stays();
    walk_finds_the_ids();
    segments_balance();
}

/// The segments of a shown song have all parts that an edit reaches, where as many fresh segments
/// are given as it fills.
pub fn what_was_reached_fits()
    ensures { ReachedFits }
{}

/// Which fresh segment each body and each index is of a sample, after an edit of its frames.
pub fn fresh_frames_are_in_order()
    ensures { FreshFrames }
{}

/// The segments of the song after an edit are those before it, but for the fresh and the dropped.
pub fn other_segments_stay()
    ensures there { OthersWereThere }
    ensures stay { OthersStay }
{
    segments_balance();
}
