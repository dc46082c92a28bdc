//! The life of one segment.

ghost use Rattle.std.specs.Prelude.{◌≡◌, ◌≤◌, ◌-◌, ◌++◌, IfOk, length, map, drop, replicate};
ghost use Rattle.ft_retire.specs.Lives as lives;

use ft_types::NoMemory;
use std::alloc::Global;

/// When a segment was born and when it died.
#[derive(Clone, Copy)]
pub struct Life {
    /// The version for which it was filled. None: it never was.
    pub born: Option<u32>,
    /// The first version that it isn't part of any more. None: it has not died.
    pub died: Option<u32>,
}

impl Life {
    /// That of a segment that was never born.
    pub const NEVER: Life = Life {
        born: None,
        died: None,
    };

    /// That of a segment that is born at this version.
    pub fn from_version(version: u32) -> Life
        ensures { result ≡ lives.born_at version }
    {
        Life {
            born: Some(version),
            died: None,
        }
    }

    /// Whether the segment lives at a version: it was born at or before it, and is not dead at it.
    pub fn lives_at(self, version: u32) -> bool
        ensures { result ≡ lives.lives_at self version }
    {
        let born = match self.born {
            None => false,
            Some(born) => born <= version,
        };
        let died = match self.died {
            None => false,
            Some(died) => died <= version,
        };
        born && !died
    }

    /// What it was without a version: a birth at it didn't come, nor a death.
    pub fn without(self, version: u32) -> Life
        ensures { result ≡ lives.undone version self }
    {
        if self.born == Some(version) {
            return Life::NEVER;
        }
        if self.died == Some(version) {
            return Life {
                born: self.born,
                died: None,
            };
        }
        self
    }
}

/// Lets the first `live` segments be born at a version.
fn bear_first(segments: &mut [Life], live: usize, version: u32)
    requires { live ≤ length segments.old }
    ensures { segments.new ≡ replicate live (lives.born_at version) ++ drop live segments.old }
{
    segments[..live].fill(Life::from_version(version));
}

/// The lives of `segments` segments of which the first `live` are born at a version, and the others
/// were never born.
pub fn first_lives(
    alloc: Global,
    segments: u16,
    live: u16,
    version: u32,
) -> Result<Vec<Life>, NoMemory>
    requires { live ≤ segments }
    ensures { IfOk result (λ made. made.items
        ≡ replicate live (lives.born_at version) ++ replicate (segments - live) lives.never) }
{
    let mut made = vec![in alloc; Life::NEVER; usize::from(segments)]?;
    bear_first(&mut made, usize::from(live), version);
    Ok(made)
}

/// Makes each life what it was without a version.
pub fn undo_all(segments: &mut [Life], version: u32)
    ensures { segments.new ≡ map (lives.undone version) segments.old }
{
    for life in segments.iter_mut() {
        *life = life.without(version);
    }
}
