//! Generates songs to test with: every cell, panning and frame is drawn from one number.

ghost use Rattle.std.specs.Prelude.{◌≡◌, IfOk};
ghost use Rattle.std.specs.List.{range_with_len};
ghost use Rattle.ft_types.specs.Valid.{IsValid};
ghost use Rattle.ft_xmwrite.specs.Generate.{generated};

mod draws;
mod instrument;
mod pattern;

use draws::Draws;
use ft_types::{Module, NoMemory, Orders};
use instrument::instruments;
use pattern::patterns;
use std::alloc::Global;

const NAME: [u8; 20] = *b"generated\0\0\0\0\0\0\0\0\0\0\0";

const TRACKER: [u8; 20] = *b"xmstudio\0\0\0\0\0\0\0\0\0\0\0\0";

/// Each pattern once, from the first on.
fn orders(alloc: Global) -> Result<Orders, NoMemory>
    ensures { IfOk result (λ orders. orders ≡ range_with_len 0 40) }
{
    let mut orders = Vec::with_capacity(alloc, 40)?;
    for order in 0..40u8 {
        orders.push_reserved(order);
    }
    Ok(Orders::from_vec(orders))
}

/// The generated song of a number: 40 patterns of 64 rows and 8 channels, each played once at tempo
/// 6 and BPM 125 with linear periods, and 16 instruments of one wide sample of 16,384 looped
/// frames. About one cell in four has a note. The same number gives the same song. The only error
/// is running out of memory.
#[tactic(auto, unfolding(crate::specs::Generate::generated))]
pub fn generate(alloc: Global, number: u32) -> Result<Module, NoMemory>
    ensures value { IfOk result (λ song. song ≡ generated number) }
    ensures valid { IfOk result IsValid }
{
    let mut draws = Draws::new(number);
    let orders = orders(alloc)?;
    let patterns = patterns(alloc, &mut draws)?;
    let instruments = instruments(alloc, &mut draws)?;
    Ok(Module {
        name: NAME,
        tracker: TRACKER,
        restart: 0,
        channels: 8,
        linear: true,
        tempo: 6,
        bpm: 125,
        orders,
        patterns,
        instruments,
    })
}
