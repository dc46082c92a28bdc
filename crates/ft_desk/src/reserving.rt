//! What commits need is reserved when a desk is opened.

ghost use Rattle.std.specs.Prelude.{◌≡◌, ◌≤◌, [], IfOk};
ghost use Rattle.std.specs.Vec.{vec_capacity};
ghost use Rattle.ft_desk.specs.Desk.{opening_births};

use ft_retire::Births;
use ft_types::NoMemory;
use std::alloc::Global;

/// What commits need of a pool beside the journal: the births of its segments, of which the first
/// `live` live from `version` on, with a mark for each, and room for a list of all of them.
pub fn reserve(
    alloc: Global,
    segments: u16,
    live: u16,
    version: u32,
) -> Result<(Births, Vec<u16>), NoMemory>
    requires { live ≤ segments }
    ensures births { IfOk result (λ made. made.0 ≡ opening_births segments live version) }
    ensures room { IfOk result (λ made. vec_capacity made.1 ≡ segments) }
    ensures empty { IfOk result (λ made. made.1.items ≡ []) }
{
    let births = Births::open(alloc, segments, live, version)?;
    let fresh = Vec::with_capacity(alloc, usize::from(segments))?;
    Ok((births, fresh))
}
