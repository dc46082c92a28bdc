//! What the types of an edit's fields say of its numbers.

ghost use Rattle.std.specs.Prelude.{◌≡◌, ◌<◌, All, FitsSigned, length};
ghost use Rattle.std.specs.Int.{w16};
ghost use Rattle.ft_types.specs.Valid.{IsBytes};
ghost use Rattle.ft_edits.specs.Given.{HoldsFields};

use ft_types::Edit;

/// A song's name has its bytes.
fn title_fits(name: &[u8; 20])
    ensures { IsBytes 20 name.now }
{
    let _bytes = bytes_fit(name);
}

/// A name has its bytes.
fn name_fits(name: &[u8; 22])
    ensures { IsBytes 22 name.now }
{
    let _bytes = bytes_fit(name);
}

/// Bytes are bytes.
fn bytes_fit(bytes: &[u8]) -> usize
    ensures each { All (λ byte. byte < 256) bytes.now }
    ensures len { result ≡ length bytes.now }
{
    bytes.len()
}

/// Frames have at most 16 bits.
fn frames_fit(frames: &[i16])
    ensures { All (FitsSigned w16) frames.now }
{
    for frame in frames.iter() {
        let _read = *frame;
    }
}

/// The numbers of an edit fit its fields. It does nothing: its contract says so.
pub fn holds_fields(e: &Edit)
    ensures { HoldsFields e.now }
{
    match e {
        Edit::Cell {
            ins,
            vol,
            eff,
            par,
            ..
        } => {
            let _read = (*ins, *vol, *eff, *par);
        }
        Edit::Order { p, .. } | Edit::Insorder { p, .. } => {
            let _read = *p;
        }
        Edit::Title { name } => title_fits(name),
        Edit::Insname { name, .. } | Edit::Smpname { name, .. } => name_fits(name),
        Edit::Point { x, .. } => {
            let _read = *x;
        }
        Edit::Vib { sweep, .. } => {
            let _read = *sweep;
        }
        Edit::Fade { n, .. } => {
            let _read = *n;
        }
        Edit::Smp { fine, rel, pan, .. } => {
            let _read = (*fine, *rel, *pan);
        }
        Edit::Paste { frames, .. } => frames_fit(frames.as_slice()),
        _ => {}
    }
}
