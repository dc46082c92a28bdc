//! Answers brought into range.
//!
//! Whatever words were read, what each function here answers is in range; and it answers what it
//! was given where that is in range, as all that is read of a valid song.

ghost use Rattle.std.specs.Prelude.{◌≡◌, ◌≤◌, ◌↔◌, Some, IsTrue, All, IfSome, FitsSigned};
ghost use Rattle.ft_types.specs.Valid.{width_of, IsValidCell, IsValidEnvelope, IsValidHead, IsValidLoop, IsValidPoint, IsValidShape, IsValidSongHead};

use ft_types::{Cell, Envelope, Point, SampleHead, Shape, SongHead};

/// What a song says of itself, in range.
pub fn ranged_song_head(head: SongHead) -> SongHead
    ensures range { IsValidSongHead result }
    ensures same { IsValidSongHead head → result ≡ head }
{
    let orders = head.length >= 1 && head.length <= 256 && head.restart < head.length;
    let tempo = head.tempo >= 1 && head.tempo <= 31;
    if orders && tempo && head.bpm >= 32 {
        return head;
    }
    SongHead {
        length: 1,
        restart: 0,
        tempo: 6,
        bpm: 125,
        linear: true,
    }
}

/// The rows of a pattern, 1 to 256.
pub fn ranged_rows(rows: u16) -> u16
    ensures some { 1 ≤ result }
    ensures few { result ≤ 256 }
    ensures same { 1 ≤ rows → rows ≤ 256 → result ≡ rows }
{
    if rows >= 1 && rows <= 256 {
        return rows;
    }
    64
}

/// A cell in range: only a note can be out of it.
pub fn ranged_cell(cell: Cell) -> Cell
    ensures range { IsValidCell result }
    ensures same { IsValidCell cell → result ≡ cell }
{
    if cell.note <= 97 {
        return cell;
    }
    Cell::EMPTY
}

/// Whether a point of an envelope is in range.
fn is_ranged_point(point: Point) -> bool
    ensures { IsTrue result ↔ IsValidPoint point }
{
    point.y <= 64
}

/// Whether each point of an envelope is in range.
fn are_ranged_points(points: &[Point]) -> bool
    ensures { IsTrue result ↔ All IsValidPoint points.now }
{
    points.iter().all(|point| is_ranged_point(*point))
}

/// Whether an envelope is in range.
fn is_ranged_envelope(envelope: &Envelope) -> bool
    ensures { IsTrue result ↔ IsValidEnvelope envelope.now }
{
    if envelope.count > 12 {
        return false;
    }
    if envelope.sustain > 11 {
        return false;
    }
    if envelope.loop_start > 11 || envelope.loop_end > 11 {
        return false;
    }
    if envelope.flags > 7 {
        return false;
    }
    are_ranged_points(&envelope.points)
}

/// An envelope in range, and none of one that isn't.
pub fn ranged_envelope(envelope: Option<Envelope>) -> Option<Envelope>
    ensures range { IfSome result IsValidEnvelope }
    ensures same { IfSome envelope IsValidEnvelope → result ≡ envelope }
{
    let Some(found) = envelope else {
        return None;
    };
    if is_ranged_envelope(&found) {
        return envelope;
    }
    None
}

/// The shape of an instrument in range, and none of one that isn't.
pub fn ranged_shape(shape: Option<Shape>) -> Option<Shape>
    ensures range { IfSome result IsValidShape }
    ensures same { IfSome shape IsValidShape → result ≡ shape }
{
    let Some(found) = shape else {
        return None;
    };
    if found.vibrato.kind <= 3 && found.vibrato.depth <= 15 && found.vibrato.rate <= 63 {
        return shape;
    }
    None
}

/// Whether the loop of a sample has at least one frame and lies within the sample, or is none.
fn is_ranged_loop(head: SampleHead) -> bool
    ensures { IsTrue result
        ↔ IsValidLoop head.loop_kind head.loop_start head.loop_len head.frames }
{
    if head.loop_kind > 2 {
        return false;
    }
    if head.loop_kind == 0 {
        return head.loop_start == 0 && head.loop_len == 0;
    }
    if head.loop_len < 1 {
        return false;
    }
    u64::from(head.loop_start) + u64::from(head.loop_len) <= u64::from(head.frames)
}

/// Whether a sample of this head can sound: it has frames, and the head is in range.
pub fn can_sound(head: SampleHead) -> bool
    ensures { IsTrue result ↔ IsValidHead head }
{
    if head.frames < 1 || head.frames > 3_932_160 {
        return false;
    }
    if head.volume > 64 {
        return false;
    }
    is_ranged_loop(head)
}

/// A frame of a sample that is wide or isn't, in range.
pub fn ranged_frame(wide: bool, frame: i16) -> i16
    ensures range { FitsSigned (width_of wide) result }
    ensures same { FitsSigned (width_of wide) frame → result ≡ frame }
{
    if wide {
        return frame;
    }
    let low = (frame.cast_unsigned() % 256) as u8;
    i16::from(low.cast_signed())
}
