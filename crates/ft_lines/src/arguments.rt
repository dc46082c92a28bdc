//! Arguments of edits, each the next word of a line.

ghost use Rattle.std.specs.Prelude.{◌≤◌, length, IfOk};
ghost use Rattle.ft_lines.specs.Answers.{Reads};
ghost use Rattle.ft_lines.specs.Reading.{word};
ghost use Rattle.ft_lines.specs.Edits.{u32, number_word, name_20, name_22, frames_argument};

use crate::bytes::{frames, name};
use crate::cursor::Cursor;
use crate::fault::LineFault;
use crate::numbers::{number, typed};
use ft_types::{Frames, NumberType};
use std::alloc::Global;

impl<'a> Cursor<'a> {
    /// A number of a type.
    pub fn number(&mut self, number_type: NumberType) -> Result<i64, LineFault>
        ensures { Reads (λ n. n) result self.new (word (number_word number_type) self.old) }
    {
        let word = self.word()?;
        let Some(n) = typed(word.bytes, number_type) else {
            return Err(LineFault::Bad { at: word.at });
        };
        Ok(n)
    }

    /// A number of at most 4,294,967,295.
    #[tactic(auto, unfolding(crate::specs::Edits::u32))]
    pub fn u32(&mut self) -> Result<u32, LineFault>
        ensures { Reads (λ n. n) result self.new (u32 self.old) }
    {
        let word = self.word()?;
        let Some(n) = number(word.bytes, 4_294_967_295) else {
            return Err(LineFault::Bad { at: word.at });
        };
        Ok(n as u32)
    }

    /// A name of 1 to 20 bytes; those that aren't given are 0.
    #[tactic(auto, unfolding(crate::specs::Edits::name_20))]
    pub fn name_20(&mut self, alloc: Global) -> Result<[u8; 20], LineFault>
        ensures { Reads (λ name. name) result self.new (name_20 self.old) }
    {
        let word = self.word()?;
        let Some(name) = name(alloc, word.bytes)? else {
            return Err(LineFault::Bad { at: word.at });
        };
        Ok(name)
    }

    /// A name of 1 to 22 bytes; those that aren't given are 0.
    #[tactic(auto, unfolding(crate::specs::Edits::name_22))]
    pub fn name_22(&mut self, alloc: Global) -> Result<[u8; 22], LineFault>
        ensures { Reads (λ name. name) result self.new (name_22 self.old) }
    {
        let word = self.word()?;
        let Some(name) = name(alloc, word.bytes)? else {
            return Err(LineFault::Bad { at: word.at });
        };
        Ok(name)
    }

    /// 1 to 256 frames.
    #[tactic(auto, unfolding(crate::specs::Edits::frames_argument))]
    pub fn frames(&mut self, alloc: Global) -> Result<Frames, LineFault>
        ensures value { Reads (λ frames. frames) result self.new (frames_argument self.old) }
        ensures few { IfOk result (λ frames. (1 ≤ length frames) × (length frames ≤ 256)) }
    {
        let word = self.word()?;
        let Some(frames) = frames(alloc, word.bytes)? else {
            return Err(LineFault::Bad { at: word.at });
        };
        Ok(frames)
    }
}
