//! The causes for which an edit is refused, one by one, by the sizes of a song.

ghost use Rattle.std.specs.Prelude.{◌≡◌, ◌≤◌, ◌+◌, ◌-◌, ◌&&◌, ◌||◌, None, length, nat_lt, nat_le, nat_eq, pos, if◌then◌else◌};
ghost use Rattle.ft_types.specs.Limits.{most_frames};
ghost use Rattle.ft_edits.specs.Numbers.{kind_frames};
ghost use Rattle.ft_edits.specs.Faults.{unless, out_of_range, over_limit, missing_order, is_narrow, first_wide_frame};

use crate::numbers::{field, kind, most};
use crate::sizes::{SampleSizes, SongSizes};
use ft_types::EditFault;

/// A cause for which an edit is refused, unless this holds.
fn unless(test: bool, fault: EditFault) -> Option<EditFault>
    ensures { result ≡ unless test fault }
{
    if test { None } else { Some(fault) }
}

/// The number of this field is wrong, unless this holds.
pub(crate) fn wrong(test: bool, field: u8, found: u16) -> Option<EditFault>
    ensures { result ≡ unless test (EditFault.Range field (pos found)) }
{
    let fault = EditFault::Range {
        field,
        found: i64::from(found),
    };
    unless(test, fault)
}

/// Unless the number of this field is in a range.
pub(crate) fn out_of_range(field: u8, low: u16, high: u16, found: u16) -> Option<EditFault>
    ensures { result ≡ out_of_range field low high found }
{
    wrong(low <= found && found <= high, field, found)
}

/// Unless the byte of this field is at most this.
pub(crate) fn over(field: u8, high: u8, found: u8) -> Option<EditFault>
    ensures { result ≡ out_of_range field 0 high found }
{
    out_of_range(field, 0, u16::from(high), u16::from(found))
}

/// Unless there would be at most that many.
fn over_limit(what: u8, most: u32, count: u32) -> Option<EditFault>
    ensures { result ≡ over_limit what most count }
{
    unless(count <= most, EditFault::TooMany { what, count })
}

/// Unless there may be one more.
pub(crate) fn one_more(what: u8, most: u32, count: u16) -> Option<EditFault>
    ensures { result ≡ over_limit what most (count + 1) }
{
    over_limit(what, most, u32::from(count) + 1)
}

/// Unless the pattern is stored.
pub(crate) fn missing_pattern(song: SongSizes, p: u8) -> Option<EditFault>
    ensures { result ≡ unless (nat_lt p song.patterns) (EditFault.NoPattern p) }
{
    unless(u16::from(p) < song.patterns, EditFault::NoPattern { p })
}

/// Unless a pattern of that many rows has this row.
pub(crate) fn missing_row(rows: u16, row: u32) -> Option<EditFault>
    ensures { result ≡ unless (nat_lt row rows) (EditFault.NoRow row rows) }
{
    unless(row < u32::from(rows), EditFault::NoRow { row, rows })
}

/// Unless the song has this channel.
pub(crate) fn missing_channel(song: SongSizes, ch: u16) -> Option<EditFault>
    ensures { result ≡ unless (nat_lt ch song.channels) (EditFault.NoChannel ch) }
{
    unless(ch < u16::from(song.channels), EditFault::NoChannel { ch })
}

/// Unless the order position is below this.
pub(crate) fn missing_order(limit: u32, pos: u16) -> Option<EditFault>
    ensures { result ≡ missing_order limit pos }
{
    unless(u32::from(pos) < limit, EditFault::NoOrder { pos })
}

/// Unless the instrument is there; they count from 1.
pub(crate) fn missing_instrument(song: SongSizes, i: u8) -> Option<EditFault>
    ensures { result ≡ unless (nat_lt 0 i && nat_le i song.instruments)
        (EditFault.NoInstrument i) }
{
    let there = 0 < i && u16::from(i) <= song.instruments;
    unless(there, EditFault::NoInstrument { i })
}

/// Unless the instrument has this sample.
pub(crate) fn missing_sample(sizes: SampleSizes, i: u8, s: u8) -> Option<EditFault>
    ensures { result ≡ unless (nat_lt s sizes.samples) (EditFault.NoSample i s) }
{
    unless(s < sizes.samples, EditFault::NoSample { i, s })
}

/// Unless the frames from one up to another are there.
pub(crate) fn missing_frames(sizes: SampleSizes, from: u32, to: u32) -> Option<EditFault>
    ensures { result ≡ unless (nat_le from to && nat_le to sizes.frames)
        (EditFault.Cut from to sizes.frames) }
{
    let fault = EditFault::Cut {
        from,
        to: u64::from(to),
        frames: sizes.frames,
    };
    unless(from <= to && to <= sizes.frames, fault)
}

/// Unless a loop lies within the frames, or is none.
pub(crate) fn loop_past(sizes: SampleSizes, kind: u8, start: u32, len: u32) -> Option<EditFault>
    ensures { result ≡ unless
        (nat_eq kind 0 || (nat_lt 0 len && nat_le (start + len) sizes.frames))
        (EditFault.Cut start (start + len) sizes.frames) }
{
    let end = u64::from(start) + u64::from(len);
    let fault = EditFault::Cut {
        from: start,
        to: end,
        frames: sizes.frames,
    };
    let inside = 0 < len && end <= u64::from(sizes.frames);
    unless(kind == 0 || inside, fault)
}

/// A frame of 8 bits.
fn is_narrow(frame: i16) -> bool
    ensures { result ≡ is_narrow frame }
{
    -128 <= frame && frame <= 127
}

/// The first frame that doesn't have 8 bits.
fn first_wide_frame(frames: &[i16]) -> Option<EditFault>
    ensures { result ≡ first_wide_frame frames.now }
{
    for frame in frames.iter() {
        if !is_narrow(*frame) {
            return Some(EditFault::Range {
                field: field::FRAME,
                found: i64::from(*frame),
            });
        }
    }
    None
}

/// Unless a sample takes these frames too.
pub(crate) fn too_many_frames(sizes: SampleSizes, frames: &[i16]) -> Option<EditFault>
    requires there { sizes.frames ≤ most_frames }
    requires few { length frames.now ≤ 256 }
    ensures { result ≡ over_limit kind_frames most_frames (sizes.frames + length frames.now) }
{
    over_limit(
        kind::FRAMES,
        most::FRAMES,
        sizes.frames + frames.len() as u32,
    )
}

/// Unless frames fit the width of a sample.
pub(crate) fn too_wide(sizes: SampleSizes, frames: &[i16]) -> Option<EditFault>
    ensures { result ≡ (if sizes.wide then None else first_wide_frame frames.now) }
{
    if sizes.wide {
        return None;
    }
    first_wide_frame(frames)
}
