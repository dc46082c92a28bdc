//! Which part of a song an edit changes.

ghost use Rattle.std.specs.Prelude.{◌≡◌};
ghost use Rattle.ft_edits.specs.Groups.{group_of};

use ft_types::Edit;

/// What an edit changes.
#[derive(Clone, Copy)]
pub enum Group {
    /// A pattern.
    Patterns,
    /// The song as a whole.
    Song,
    /// An instrument.
    Instruments,
    /// The samples of an instrument.
    Samples,
    /// The frames of a sample.
    Frames,
}

/// The group of an edit.
pub fn group_of(e: &Edit) -> Group
    ensures { result ≡ group_of e.now }
{
    match e {
        Edit::Cell { .. }
        | Edit::Rows { .. }
        | Edit::Insrow { .. }
        | Edit::Delrow { .. }
        | Edit::Clear { .. }
        | Edit::Transpose { .. }
        | Edit::Copy { .. } => Group::Patterns,
        Edit::Order { .. }
        | Edit::Insorder { .. }
        | Edit::Delorder { .. }
        | Edit::Restart { .. }
        | Edit::Tempo { .. }
        | Edit::Bpm { .. }
        | Edit::Title { .. }
        | Edit::Newpat { .. }
        | Edit::Delpat => Group::Song,
        Edit::Newins
        | Edit::Clearins { .. }
        | Edit::Insname { .. }
        | Edit::Map { .. }
        | Edit::Env { .. }
        | Edit::Point { .. }
        | Edit::Vib { .. }
        | Edit::Fade { .. } => Group::Instruments,
        Edit::Newsmp { .. }
        | Edit::Delsmp { .. }
        | Edit::Smpname { .. }
        | Edit::Smp { .. }
        | Edit::Loop { .. } => Group::Samples,
        _ => Group::Frames,
    }
}
