//! The marks on segments.

ghost use Rattle.std.specs.Prelude.{◌≡◌, ◌+◌, ◌<◌, ◌≤◌, ℕ, None, true, IfSome, length, get_or, set};
ghost use Rattle.ft_retire.specs.Marks as marking;

use crate::life::Life;

/// Marks a segment. It answers how many are marked by it that weren't: 1 or 0.
pub fn mark(marks: &mut [bool], segment: usize) -> u32
    requires within { segment < length marks.old }
    ensures marks { marks.new ≡ set marks.old segment true }
    ensures count { marking.unmarked_in marks.new + result ≡ marking.unmarked_in marks.old }
    ensures marked { get_or marks.new segment true ≡ true }
    ensures kept { (k : ℕ) → get_or marks.old k true ≡ true → get_or marks.new k true ≡ true }
    ensures few { result ≤ 1 }
{
    let unmarked = !marks[segment];
    marks[segment] = true;
    u32::from(unmarked)
}

/// Marks each segment that lives at a version. It answers how many are marked by it that weren't.
pub fn mark_living(marks: &mut [bool], segments: &[Life], version: u32) -> u32
    requires many { length segments.now ≡ length marks.old }
    requires few { length marks.old ≤ 65535 }
    ensures marks { marks.new ≡ marking.keep_living version segments.now marks.old }
    ensures count { marking.unmarked_in marks.new + result ≡ marking.unmarked_in marks.old }
    ensures kept { (k : ℕ) → get_or marks.old k true ≡ true → get_or marks.new k true ≡ true }
{
    let mut count = 0;
    for k in 0..marks.len() {
        if segments[k].lives_at(version) {
            count += mark(marks, k);
        }
    }
    count
}

/// The least unmarked segment, where all below `from` are marked, and how many marks were looked
/// at: those from `from` up to it, or to the last one where there is none.
pub fn first_unmarked(marks: &[bool], from: usize) -> (Option<usize>, usize)
    requires passed { marking.AreMarked from marks.now }
    requires within { from ≤ length marks.now }
    ensures found { IfSome result.0 (λ segment. marking.IsLeastUnmarked marks.now segment) }
    ensures none { result.0 ≡ None → marking.unmarked_in marks.now ≡ 0 }
    ensures looked { from + result.1 ≡ marking.looked_at marks.now result.0 }
{
    let mut looked = 0;
    for segment in from..marks.len() {
        looked += 1;
        if !marks[segment] {
            return (Some(segment), looked);
        }
    }
    (None, looked)
}
