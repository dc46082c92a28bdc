//! The kinds of edits, and the types of their arguments.

ghost use Rattle.std.specs.Prelude.{◌≡◌};
ghost use Rattle.ft_types.specs.Signatures.{kind_named, kind_among};

/// What an edit does. Its arguments follow from it.
#[derive(Clone, Copy, Debug, PartialEq, Eq)]
pub enum EditKind {
    Cell,
    Rows,
    Insrow,
    Delrow,
    Clear,
    Transpose,
    Copy,
    Order,
    Insorder,
    Delorder,
    Restart,
    Tempo,
    Bpm,
    Title,
    Newpat,
    Delpat,
    Newins,
    Clearins,
    Insname,
    Map,
    Env,
    Point,
    Vib,
    Fade,
    Newsmp,
    Delsmp,
    Smpname,
    Smp,
    Loop,
    Cut,
    Paste,
    Reverse,
    Scale,
    Bits,
}

/// The type of a number of an edit.
#[derive(Clone, Copy, Debug, PartialEq, Eq)]
pub enum NumberType {
    U8,
    U16,
    U32,
    I8,
    I16,
}

/// What an edit has behind its numbers.
#[derive(Clone, Copy, Debug, PartialEq, Eq)]
pub enum LastType {
    /// Nothing.
    Nothing,
    /// A name of 20 bytes.
    Title,
    /// A name of 22 bytes.
    Name,
    /// Frames.
    Frames,
}

impl EditKind {
    /// The kinds whose names are as long as this one.
    fn with_length_of(name: &[u8]) -> &'static [EditKind]
        ensures { kind_among result.now name.now ≡ kind_named name.now }
    {
        use EditKind::*;
        match name.len() {
            3 => &[Bpm, Map, Env, Vib, Smp, Cut],
            4 => &[Cell, Rows, Copy, Fade, Loop, Bits],
            5 => &[Clear, Order, Tempo, Title, Point, Paste, Scale],
            6 => &[Insrow, Delrow, Newpat, Delpat, Newins, Newsmp, Delsmp],
            7 => &[Restart, Insname, Smpname, Reverse],
            8 => &[Insorder, Delorder, Clearins],
            9 => &[Transpose],
            _ => &[],
        }
    }

    /// The kind of this name in a list.
    fn among(kinds: &[EditKind], name: &[u8]) -> Option<EditKind>
        ensures { result ≡ kind_among kinds.now name.now }
    {
        for kind in kinds {
            if name == kind.name().as_bytes() {
                return Some(*kind);
            }
        }
        None
    }

    /// The kind of this name, if there is one.
    pub fn named(name: &[u8]) -> Option<EditKind>
        ensures { result ≡ kind_named name.now }
    {
        EditKind::among(EditKind::with_length_of(name), name)
    }
}
