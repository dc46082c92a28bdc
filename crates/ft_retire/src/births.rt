//! What is kept of each segment.

ghost use Rattle.std.specs.Prelude.{◌≡◌, ◌↔◌, ◌≤◌, ◌<◌, ◌-◌, ◌++◌, None, Some, true, false, IfOk, IfSome, length, map, replicate, set, slice_index_or};
ghost use Rattle.ft_retire.specs.Lives as lives;
ghost use Rattle.ft_retire.specs.Marks as marking;
ghost use Rattle.ft_retire.specs.Births.{after_give, retired};

use crate::life::{Life, first_lives, undo_all};
use crate::marks::{first_unmarked, mark, mark_living};
use ft_types::NoMemory;
use std::alloc::Global;
use std::marker::Model;

/// The birth and the death of each segment of a pool, and a mark on each. Contracts see the lives
/// and the marks, in the order of the segments, and how many marks `give` has looked at.
#[derive(Drop)]
pub struct Births {
    lives: Vec<Life>,
    marks: Vec<bool>,
    /// How many segments are unmarked.
    free: u32,
    /// How many marks `give` has looked at since they were forgotten: those of the segments below
    /// this one, each once. All of them are set.
    looked: usize,
}

impl Model for Births {
    ghost use Rattle.ft_retire.specs.Births.{BirthsState, HasCounts};

    ghost Value = { BirthsState };

    ghost view = { λ births. record {
      lives = births.lives.items;
      marks = births.marks.items;
      looked = births.looked;
    } };

    ghost invariant = { λ births.
        HasCounts births.lives.items births.marks.items births.free births.looked };
}

impl Births {
    /// Of a pool of `segments` segments, of which the first `live` are born at `version` and the
    /// others were never born. None died, and none is marked.
    pub fn open(alloc: Global, segments: u16, live: u16, version: u32) -> Result<Births, NoMemory>
        requires live { live ≤ segments }
        ensures lives { IfOk result (λ births. births.lives
            ≡ replicate live (lives.born_at version) ++ replicate (segments - live) lives.never) }
        ensures marks { IfOk result (λ births. births.marks ≡ replicate segments false) }
        ensures looked { IfOk result (λ births. births.looked ≡ 0) }
    {
        let lives = first_lives(alloc, segments, live, version)?;
        let marks = vec![in alloc; false; usize::from(segments)]?;
        Ok(Births {
            lives,
            marks,
            free: u32::from(segments),
            looked: 0,
        })
    }

    /// Each segment has one life and one mark, and there are at most 65,535. It does nothing.
    pub fn sizes_law(&self)
        ensures many { length self.now.lives ≡ length self.now.marks }
        ensures few { length self.now.marks ≤ 65535 }
    {
        let _ = &self.lives;
    }

    /// Forgets the marks. `give` looks at them from the first one on.
    pub fn begin(&mut self)
        ensures lives { self.new.lives ≡ self.old.lives }
        ensures marks { self.new.marks ≡ replicate (length self.old.marks) false }
        ensures looked { self.new.looked ≡ 0 }
    {
        self.marks.fill(false);
        self.free = self.marks.len() as u32;
        self.looked = 0;
    }

    /// Marks each segment that lives at a version: it was born at or before it, and its death, if
    /// any, comes after it. Earlier marks stay.
    pub fn keep_version(&mut self, version: u32)
        ensures lives { self.new.lives ≡ self.old.lives }
        ensures marks { self.new.marks
            ≡ marking.keep_living version self.old.lives self.old.marks }
        ensures many { length self.new.marks ≡ length self.old.marks }
        ensures looked { self.new.looked ≡ self.old.looked }
    {
        self.free -= mark_living(&mut self.marks, &self.lives, version);
    }

    /// Marks a segment of the pool. Earlier marks stay.
    pub fn keep_segment(&mut self, segment: u16)
        requires { segment < length self.old.marks }
        ensures lives { self.new.lives ≡ self.old.lives }
        ensures marks { self.new.marks ≡ set self.old.marks segment true }
        ensures looked { self.new.looked ≡ self.old.looked }
    {
        self.free -= mark(&mut self.marks, usize::from(segment));
    }

    /// How many segments are unmarked. It takes the same time for every pool.
    pub fn free(&self) -> u32
        ensures { result ≡ marking.unmarked_in self.now.marks }
    {
        self.free
    }

    /// The least unmarked segment, which is marked now and born at `version`; a death of before is
    /// forgotten. None comes exactly where no segment is unmarked, and then births and marks stay.
    ///
    /// It goes on from where the call before it ended: until the marks are forgotten, all calls
    /// together look at each mark up to the given one once, and at no other.
    pub fn give(&mut self, version: u32) -> Option<u16>
        ensures least { IfSome result (λ segment.
            marking.IsLeastUnmarked self.old.marks segment) }
        ensures none { result ≡ None ↔ marking.unmarked_in self.old.marks ≡ 0 }
        ensures after { self.new ≡ after_give version result self.old }
    {
        let (found, more) = first_unmarked(&self.marks, self.looked);
        self.looked += more;
        let Some(segment) = found else {
            return None;
        };
        self.free -= mark(&mut self.marks, segment);
        self.lives[segment] = Life::from_version(version);
        Some(segment as u16)
    }

    /// A segment of the pool dies at `version`: it isn't part of this version any more.
    pub fn retire(&mut self, segment: u16, version: u32)
        requires { segment < length self.old.marks }
        ensures lives { self.new.lives ≡ retired version segment self.old.lives }
        ensures marks { self.new.marks ≡ self.old.marks }
        ensures looked { self.new.looked ≡ self.old.looked }
    {
        self.lives[usize::from(segment)].died = Some(version);
    }

    /// Takes back the births and deaths at `version`: what was born at it was never born, and what
    /// died at it lives on. The marks stay. No memory is taken.
    pub fn undo(&mut self, version: u32)
        ensures lives { self.new.lives ≡ map (lives.undone version) self.old.lives }
        ensures marks { self.new.marks ≡ self.old.marks }
        ensures looked { self.new.looked ≡ self.old.looked }
    {
        undo_all(&mut self.lives, version);
    }
}
