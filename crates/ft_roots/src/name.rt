//! A name in the root of an instrument or of a sample.

ghost use Rattle.std.specs.Prelude.{◌≡◌, set};
ghost use Rattle.ft_segments.specs.Packing.{bytes_word};

use ft_image::bytes_word;

/// Puts a name of 22 bytes into words 3 to 5.
pub(crate) fn put_name(words: &mut [u64; 256], name: &[u8; 22])
    ensures { words.new ≡ set (set (set words.old 3 (bytes_word name.now 0)) 4
        (bytes_word name.now 1)) 5 (bytes_word name.now 2) }
{
    words[3] = bytes_word(name, 0);
    words[4] = bytes_word(name, 1);
    words[5] = bytes_word(name, 2);
}
