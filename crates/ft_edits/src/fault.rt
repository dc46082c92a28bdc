//! The first fault of an edit.

ghost use Rattle.std.specs.Prelude.{◌≡◌, ◌∷◌, []};
ghost use Rattle.ft_types.specs.declared.module.Module.{Module};
ghost use Rattle.ft_types.specs.Edits.{IsGivable};
ghost use Rattle.ft_types.specs.Views.{rows_at};
ghost use Rattle.ft_edits.specs.Numbers.{field_which, field_count, field_index, field_flags};
ghost use Rattle.ft_edits.specs.Groups.{group_of};
ghost use Rattle.ft_edits.specs.Sizes.{song_sizes, sample_sizes};
ghost use Rattle.ft_edits.specs.Faults.{first_cause, fault_of, out_of_range, block_of, sampled, framed};

use crate::cause::{
    loop_past, missing_channel, missing_frames, missing_instrument, missing_order, missing_pattern,
    missing_row, missing_sample, one_more, out_of_range, over, too_many_frames, too_wide, wrong,
};
use crate::group::{Group, group_of};
use crate::numbers::{field, kind, most};
use crate::sizes::{SampleSizes, SizeView, SongSizes};
use ft_types::{Edit, EditFault};

/// The first fault of a block, `h` rows of `w` channels from row `r` and channel `c`, in a pattern
/// of this many rows.
fn block_fault(song: SongSizes, rows: u16, p: u8, r: u16, c: u8, h: u16, w: u8) -> Option<EditFault>
    ensures { (m : Module) → song ≡ song_sizes m → rows ≡ rows_at m p
        → result ≡ first_cause (block_of m p r c h w) }
{
    let row = (u32::from(r) + u32::from(h)).saturating_sub(1);
    let channel = (u16::from(c) + u16::from(w)).saturating_sub(1);
    missing_pattern(song, p)
        .or(wrong(0 < h && 0 < w, field::SIZE, 0))
        .or(missing_row(rows, row))
        .or(missing_channel(song, channel))
}

/// The first fault of an edit of a pattern.
fn pattern_edit_fault<S: SizeView>(view: &mut S, song: SongSizes, e: &Edit) -> Option<EditFault>
    requires group { group_of e.now ≡ Group.Patterns }
    ensures narrows { (m : Module) → S.may_show view.new m → S.may_show view.old m }
    ensures answer { (m : Module) → S.may_show view.new m → song ≡ song_sizes m
        → result ≡ fault_of m e.now }
    ensures same { S.same view.old view.new }
{
    match *e {
        Edit::Cell { p, r, c, note, .. } => missing_pattern(song, p)
            .or(missing_row(view.rows(p), u32::from(r)))
            .or(missing_channel(song, u16::from(c)))
            .or(over(field::NOTE, 97, note)),
        Edit::Rows { p, n } => {
            missing_pattern(song, p).or(out_of_range(field::ROWS, 1, most::ROWS, n))
        }
        Edit::Insrow { p, r } | Edit::Delrow { p, r } => {
            missing_pattern(song, p).or(missing_row(view.rows(p), u32::from(r)))
        }
        Edit::Clear { p, r, c, h, w } | Edit::Transpose { p, r, c, h, w, .. } => {
            block_fault(song, view.rows(p), p, r, c, h, w)
        }
        Edit::Copy {
            p,
            r,
            c,
            h,
            w,
            q,
            r2,
            c2,
        } => {
            let from = block_fault(song, view.rows(p), p, r, c, h, w);
            let to = block_fault(song, view.rows(q), q, r2, c2, h, w);
            from.or(to)
        }
        _ => None,
    }
}

/// The first fault of an edit of the song as a whole.
fn song_edit_fault(song: SongSizes, e: &Edit) -> Option<EditFault>
    requires group { group_of e.now ≡ Group.Song }
    ensures answer { (m : Module) → song ≡ song_sizes m → result ≡ fault_of m e.now }
{
    let orders = u32::from(song.orders);
    match *e {
        Edit::Order { pos, .. } | Edit::Restart { pos } => missing_order(orders, pos),
        Edit::Insorder { pos, .. } => {
            missing_order(orders + 1, pos).or(one_more(kind::ORDERS, most::ORDERS, song.orders))
        }
        Edit::Delorder { pos } => {
            missing_order(orders, pos).or(wrong(1 < orders, field::LENGTH, 0))
        }
        Edit::Tempo { n } => out_of_range(field::TEMPO, 1, 31, u16::from(n)),
        Edit::Bpm { n } => out_of_range(field::BPM, 32, 255, u16::from(n)),
        Edit::Newpat { n } => {
            let more = one_more(kind::PATTERNS, most::PATTERNS, song.patterns);
            more.or(out_of_range(field::ROWS, 1, most::ROWS, n))
        }
        Edit::Delpat => missing_pattern(song, 0),
        _ => None,
    }
}

/// The first fault of the head of an envelope.
fn head_fault(w: u8, count: u8, sus: u8, ls: u8, le: u8, flags: u8) -> Option<EditFault>
    ensures { result ≡ first_cause (out_of_range field_which 0 1 w
        ∷ out_of_range field_count 0 12 count
        ∷ out_of_range field_index 0 11 sus
        ∷ out_of_range field_index 0 11 ls
        ∷ out_of_range field_index 0 11 le
        ∷ out_of_range field_flags 0 7 flags
        ∷ []) }
{
    over(field::WHICH, 1, w)
        .or(over(field::COUNT, 12, count))
        .or(over(field::INDEX, 11, sus))
        .or(over(field::INDEX, 11, ls))
        .or(over(field::INDEX, 11, le))
        .or(over(field::FLAGS, 7, flags))
}

/// The first fault of an edit of an instrument.
fn instrument_edit_fault<S: SizeView>(view: &mut S, song: SongSizes, e: &Edit) -> Option<EditFault>
    requires group { group_of e.now ≡ Group.Instruments }
    ensures narrows { (m : Module) → S.may_show view.new m → S.may_show view.old m }
    ensures answer { (m : Module) → S.may_show view.new m → song ≡ song_sizes m
        → result ≡ fault_of m e.now }
    ensures same { S.same view.old view.new }
{
    match *e {
        Edit::Newins => one_more(kind::INSTRUMENTS, most::INSTRUMENTS, song.instruments),
        Edit::Clearins { i } | Edit::Insname { i, .. } => missing_instrument(song, i),
        Edit::Map { i, n, k } => sample_fault(song, view.sample(i, 0), i, 0)
            .or(over(field::INDEX, 95, n))
            .or(over(field::MAP, 15, k)),
        Edit::Env {
            i,
            w,
            count,
            sus,
            ls,
            le,
            flags,
        } => {
            let head = head_fault(w, count, sus, ls, le, flags);
            sample_fault(song, view.sample(i, 0), i, 0).or(head)
        }
        Edit::Point { i, w, k, y, .. } => sample_fault(song, view.sample(i, 0), i, 0)
            .or(over(field::WHICH, 1, w))
            .or(over(field::INDEX, 11, k))
            .or(over(field::LEVEL, 64, y)),
        Edit::Vib {
            i,
            kind,
            depth,
            rate,
            ..
        } => sample_fault(song, view.sample(i, 0), i, 0)
            .or(over(field::KIND, 3, kind))
            .or(over(field::DEPTH, 15, depth))
            .or(over(field::RATE, 63, rate)),
        Edit::Fade { i, .. } => sample_fault(song, view.sample(i, 0), i, 0),
        _ => None,
    }
}

/// The first fault of a sample's place.
fn sample_fault(song: SongSizes, sizes: SampleSizes, i: u8, s: u8) -> Option<EditFault>
    ensures { (m : Module) → song ≡ song_sizes m → sizes ≡ sample_sizes m i s
        → result ≡ first_cause (sampled m i s []) }
{
    missing_instrument(song, i).or(missing_sample(sizes, i, s))
}

/// The first fault of frames of a sample.
fn frames_fault(
    song: SongSizes,
    sizes: SampleSizes,
    i: u8,
    s: u8,
    from: u32,
    to: u32,
) -> Option<EditFault>
    ensures { (m : Module) → song ≡ song_sizes m → sizes ≡ sample_sizes m i s
        → result ≡ first_cause (framed m i s from to []) }
{
    sample_fault(song, sizes, i, s).or(missing_frames(sizes, from, to))
}

/// The first fault of an edit of a sample.
fn sample_edit_fault<S: SizeView>(view: &mut S, song: SongSizes, e: &Edit) -> Option<EditFault>
    requires group { group_of e.now ≡ Group.Samples }
    ensures narrows { (m : Module) → S.may_show view.new m → S.may_show view.old m }
    ensures answer { (m : Module) → S.may_show view.new m → song ≡ song_sizes m
        → result ≡ fault_of m e.now }
    ensures same { S.same view.old view.new }
{
    match *e {
        Edit::Newsmp { i } => {
            let samples = u16::from(view.sample(i, 0).samples);
            missing_instrument(song, i).or(one_more(kind::SAMPLES, most::SAMPLES, samples))
        }
        Edit::Delsmp { i } => sample_fault(song, view.sample(i, 0), i, 0),
        Edit::Smpname { i, s, .. } => sample_fault(song, view.sample(i, s), i, s),
        Edit::Smp { i, s, vol, .. } => {
            sample_fault(song, view.sample(i, s), i, s).or(over(field::LEVEL, 64, vol))
        }
        Edit::Loop {
            i,
            s,
            kind,
            start,
            len,
        } => {
            let sizes = view.sample(i, s);
            sample_fault(song, sizes, i, s)
                .or(over(field::KIND, 2, kind))
                .or(loop_past(sizes, kind, start, len))
        }
        _ => None,
    }
}

/// The first fault of an edit of frames.
fn frame_edit_fault<S: SizeView>(view: &mut S, song: SongSizes, e: &Edit) -> Option<EditFault>
    requires group { group_of e.now ≡ Group.Frames }
    requires givable { IsGivable e.now }
    ensures narrows { (m : Module) → S.may_show view.new m → S.may_show view.old m }
    ensures answer { (m : Module) → S.may_show view.new m → song ≡ song_sizes m
        → result ≡ fault_of m e.now }
    ensures same { S.same view.old view.new }
{
    match e {
        Edit::Cut { i, s, from, to } | Edit::Reverse { i, s, from, to } => {
            frames_fault(song, view.sample(*i, *s), *i, *s, *from, *to)
        }
        Edit::Paste { i, s, at, frames } => {
            let sizes = view.sample(*i, *s);
            let new = frames.as_slice();
            frames_fault(song, sizes, *i, *s, *at, *at)
                .or(too_many_frames(sizes, new))
                .or(too_wide(sizes, new))
        }
        Edit::Scale {
            i,
            s,
            from,
            to,
            d,
            ..
        } => {
            let divisor = wrong(0 < *d, field::DIVISOR, 0);
            frames_fault(song, view.sample(*i, *s), *i, *s, *from, *to).or(divisor)
        }
        Edit::Bits { i, s, b } => {
            let bits = wrong(*b == 8 || *b == 16, field::BITS, u16::from(*b));
            sample_fault(song, view.sample(*i, *s), *i, *s).or(bits)
        }
        _ => None,
    }
}

/// The first fault of an edit of the song that a view shows, if there is one. It takes no memory.
pub fn fault_of<S: SizeView>(view: &mut S, e: &Edit) -> Option<EditFault>
    requires givable { IsGivable e.now }
    ensures narrows { (m : Module) → S.may_show view.new m → S.may_show view.old m }
    ensures answer { (m : Module) → S.may_show view.new m → result ≡ fault_of m e.now }
    ensures same { S.same view.old view.new }
{
    let song = view.song();
    match group_of(e) {
        Group::Patterns => pattern_edit_fault(view, song, e),
        Group::Song => song_edit_fault(song, e),
        Group::Instruments => instrument_edit_fault(view, song, e),
        Group::Samples => sample_edit_fault(view, song, e),
        Group::Frames => frame_edit_fault(view, song, e),
    }
}
