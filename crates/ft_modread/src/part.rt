//! Parts of a file.

ghost use Rattle.std.specs.Prelude.{◌≡◌, ◌+◌, ◌≤◌, length};
ghost use Rattle.ft_modread.specs.Layout.{file_part};

/// The `size` bytes of a file from a place on; fewer where the file ends before.
pub fn part_of(file: &[u8], at: usize, size: usize) -> &[u8]
    ensures value { result.now ≡ file_part at size file.now }
    ensures few { length result.now ≤ size }
    ensures whole { at + size ≤ length file.now → length result.now ≡ size }
{
    let rest = &file[at.min(file.len())..];
    &rest[..size.min(rest.len())]
}
