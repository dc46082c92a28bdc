//! Each kind of edit, as numbers.

use ft_types::{Edit, Frames};

/// The first frame.
fn first(frames: &Frames) -> i64 {
    frames.get(0).map_or(0, |frame| i64::from(*frame))
}

/// The numbers of an edit of patterns: which kind it is, and its fields in order.
fn of_patterns(edit: &Edit) -> [i64; 9] {
    match edit {
        Edit::Cell {
            p,
            r,
            c,
            note,
            ins,
            vol,
            eff,
            par,
        } => [
            1,
            i64::from(*p),
            i64::from(*r),
            i64::from(*c),
            i64::from(*note),
            i64::from(*ins),
            i64::from(*vol),
            i64::from(*eff),
            i64::from(*par),
        ],
        Edit::Rows { p, n } => [2, i64::from(*p), i64::from(*n), 0, 0, 0, 0, 0, 0],
        Edit::Insrow { p, r } => [3, i64::from(*p), i64::from(*r), 0, 0, 0, 0, 0, 0],
        Edit::Delrow { p, r } => [4, i64::from(*p), i64::from(*r), 0, 0, 0, 0, 0, 0],
        Edit::Clear { p, r, c, h, w } => [
            5,
            i64::from(*p),
            i64::from(*r),
            i64::from(*c),
            i64::from(*h),
            i64::from(*w),
            0,
            0,
            0,
        ],
        Edit::Transpose { p, r, c, h, w, d } => [
            6,
            i64::from(*p),
            i64::from(*r),
            i64::from(*c),
            i64::from(*h),
            i64::from(*w),
            i64::from(*d),
            0,
            0,
        ],
        Edit::Copy {
            p,
            r,
            c,
            h,
            w,
            q,
            r2,
            c2,
        } => [
            7,
            i64::from(*p),
            i64::from(*r),
            i64::from(*c),
            i64::from(*h),
            i64::from(*w),
            i64::from(*q),
            i64::from(*r2),
            i64::from(*c2),
        ],
        _ => [0; 9],
    }
}

/// The same, of the song.
fn of_the_song(edit: &Edit) -> [i64; 9] {
    match edit {
        Edit::Order { pos, p } => [8, i64::from(*pos), i64::from(*p), 0, 0, 0, 0, 0, 0],
        Edit::Insorder { pos, p } => [9, i64::from(*pos), i64::from(*p), 0, 0, 0, 0, 0, 0],
        Edit::Delorder { pos } => [10, i64::from(*pos), 0, 0, 0, 0, 0, 0, 0],
        Edit::Restart { pos } => [11, i64::from(*pos), 0, 0, 0, 0, 0, 0, 0],
        Edit::Tempo { n } => [12, i64::from(*n), 0, 0, 0, 0, 0, 0, 0],
        Edit::Bpm { n } => [13, i64::from(*n), 0, 0, 0, 0, 0, 0, 0],
        Edit::Title { name } => [
            14,
            i64::from(name[0]),
            i64::from(name[1]),
            i64::from(name[19]),
            0,
            0,
            0,
            0,
            0,
        ],
        Edit::Newpat { n } => [15, i64::from(*n), 0, 0, 0, 0, 0, 0, 0],
        Edit::Delpat => [16, 0, 0, 0, 0, 0, 0, 0, 0],
        _ => [0; 9],
    }
}

/// The same, of instruments.
fn of_instruments(edit: &Edit) -> [i64; 9] {
    match edit {
        Edit::Newins => [17, 0, 0, 0, 0, 0, 0, 0, 0],
        Edit::Clearins { i } => [18, i64::from(*i), 0, 0, 0, 0, 0, 0, 0],
        Edit::Insname { i, name } => [
            19,
            i64::from(*i),
            i64::from(name[0]),
            i64::from(name[1]),
            i64::from(name[21]),
            0,
            0,
            0,
            0,
        ],
        Edit::Map { i, n, k } => [
            20,
            i64::from(*i),
            i64::from(*n),
            i64::from(*k),
            0,
            0,
            0,
            0,
            0,
        ],
        Edit::Env {
            i,
            w,
            count,
            sus,
            ls,
            le,
            flags,
        } => [
            21,
            i64::from(*i),
            i64::from(*w),
            i64::from(*count),
            i64::from(*sus),
            i64::from(*ls),
            i64::from(*le),
            i64::from(*flags),
            0,
        ],
        Edit::Point { i, w, k, x, y } => [
            22,
            i64::from(*i),
            i64::from(*w),
            i64::from(*k),
            i64::from(*x),
            i64::from(*y),
            0,
            0,
            0,
        ],
        Edit::Vib {
            i,
            kind,
            sweep,
            depth,
            rate,
        } => [
            23,
            i64::from(*i),
            i64::from(*kind),
            i64::from(*sweep),
            i64::from(*depth),
            i64::from(*rate),
            0,
            0,
            0,
        ],
        Edit::Fade { i, n } => [24, i64::from(*i), i64::from(*n), 0, 0, 0, 0, 0, 0],
        _ => [0; 9],
    }
}

/// The same, of samples. Of frames there are the length and the first one.
fn of_samples(edit: &Edit) -> [i64; 9] {
    match edit {
        Edit::Newsmp { i } => [25, i64::from(*i), 0, 0, 0, 0, 0, 0, 0],
        Edit::Delsmp { i } => [26, i64::from(*i), 0, 0, 0, 0, 0, 0, 0],
        Edit::Smpname { i, s, name } => [
            27,
            i64::from(*i),
            i64::from(*s),
            i64::from(name[0]),
            i64::from(name[1]),
            i64::from(name[21]),
            0,
            0,
            0,
        ],
        Edit::Smp {
            i,
            s,
            vol,
            fine,
            rel,
            pan,
        } => [
            28,
            i64::from(*i),
            i64::from(*s),
            i64::from(*vol),
            i64::from(*fine),
            i64::from(*rel),
            i64::from(*pan),
            0,
            0,
        ],
        Edit::Loop {
            i,
            s,
            kind,
            start,
            len,
        } => [
            29,
            i64::from(*i),
            i64::from(*s),
            i64::from(*kind),
            i64::from(*start),
            i64::from(*len),
            0,
            0,
            0,
        ],
        Edit::Cut { i, s, from, to } => [
            30,
            i64::from(*i),
            i64::from(*s),
            i64::from(*from),
            i64::from(*to),
            0,
            0,
            0,
            0,
        ],
        Edit::Paste { i, s, at, frames } => [
            31,
            i64::from(*i),
            i64::from(*s),
            i64::from(*at),
            frames.len().min(4096) as i64,
            first(frames),
            0,
            0,
            0,
        ],
        Edit::Reverse { i, s, from, to } => [
            32,
            i64::from(*i),
            i64::from(*s),
            i64::from(*from),
            i64::from(*to),
            0,
            0,
            0,
            0,
        ],
        Edit::Scale {
            i,
            s,
            from,
            to,
            n,
            d,
        } => [
            33,
            i64::from(*i),
            i64::from(*s),
            i64::from(*from),
            i64::from(*to),
            i64::from(*n),
            i64::from(*d),
            0,
            0,
        ],
        Edit::Bits { i, s, b } => [
            34,
            i64::from(*i),
            i64::from(*s),
            i64::from(*b),
            0,
            0,
            0,
            0,
            0,
        ],
        _ => [0; 9],
    }
}

/// Which kind an edit is, from 1, and its fields in order, with 0 behind them. Of a name there are
/// the first two bytes and the last, of frames their number and the first.
pub fn numbers(edit: &Edit) -> [i64; 9] {
    for group in [
        of_patterns(edit),
        of_the_song(edit),
        of_instruments(edit),
        of_samples(edit),
    ] {
        if group[0] != 0 {
            return group;
        }
    }
    [0; 9]
}
