//! Patterns of a generated song.

ghost use Rattle.std.specs.Prelude.{◌≡◌, ◌<◌, IfOk};
ghost use Rattle.ft_xmwrite.specs.Generate.{generated_effect, drawn_note, drawn_cell, drawn_pattern, drawn};

use crate::generator::draws::Draws;
use ft_format::EMPTY_CELL;
use ft_types::{Cell, Cells, NoMemory, Pattern, Patterns};
use std::alloc::Global;

const ROWS: u16 = 64;

/// Cells of a pattern: 64 rows of 8 channels.
const CELLS: usize = 512;

const PATTERNS: usize = 40;

/// The effects of notes.
const EFFECTS: [u8; 4] = [0, 1, 4, 10];

fn effect_of(k: u32) -> u8
    requires { k < 4 }
    ensures { result ≡ generated_effect k }
{
    EFFECTS[k as usize]
}

#[tactic(auto, unfolding(crate::specs::Generate::drawn_note))]
fn note(draws: &mut Draws) -> Cell
    ensures value { result ≡ (drawn_note draws.old).0 }
    ensures state { draws.new ≡ (drawn_note draws.old).1 }
{
    let note = 25 + draws.draw(48) as u8;
    let instrument = 1 + draws.draw(16) as u8;
    let volume = 16 + draws.draw(65) as u8;
    let effect = effect_of(draws.draw(4));
    let parameter = draws.draw(256) as u8;
    Cell {
        note,
        instrument,
        volume,
        effect,
        parameter,
    }
}

/// One cell in four has a note.
#[tactic(auto, unfolding(crate::specs::Generate::drawn_cell))]
fn cell(draws: &mut Draws) -> Cell
    ensures value { result ≡ (drawn_cell draws.old).0 }
    ensures state { draws.new ≡ (drawn_cell draws.old).1 }
{
    if draws.draw(4) == 0 {
        note(draws)
    } else {
        EMPTY_CELL
    }
}

fn cells(alloc: Global, draws: &mut Draws) -> Result<Vec<Cell>, NoMemory>
    ensures value { IfOk result (λ cells. cells.items ≡ (drawn 512 drawn_cell draws.old).0) }
    ensures state { IfOk result (λ _. draws.new ≡ (drawn 512 drawn_cell draws.old).1) }
{
    let mut cells = Vec::with_capacity(alloc, CELLS)?;
    for _ in 0..CELLS {
        cells.push_reserved(cell(draws));
    }
    Ok(cells)
}

#[tactic(auto, unfolding(crate::specs::Generate::drawn_pattern))]
fn pattern(alloc: Global, draws: &mut Draws) -> Result<Pattern, NoMemory>
    ensures value { IfOk result (λ pattern. pattern ≡ (drawn_pattern draws.old).0) }
    ensures state { IfOk result (λ _. draws.new ≡ (drawn_pattern draws.old).1) }
{
    let cells = cells(alloc, draws)?;
    Ok(Pattern {
        rows: ROWS,
        cells: Cells::from_vec(cells),
    })
}

/// All patterns of a song.
pub fn patterns(alloc: Global, draws: &mut Draws) -> Result<Patterns, NoMemory>
    ensures value { IfOk result (λ patterns. patterns ≡ (drawn 40 drawn_pattern draws.old).0) }
    ensures state { IfOk result (λ _. draws.new ≡ (drawn 40 drawn_pattern draws.old).1) }
{
    let mut patterns = Vec::with_capacity(alloc, PATTERNS)?;
    for _ in 0..PATTERNS {
        let pattern = pattern(alloc, draws)?;
        patterns.push_reserved(pattern);
    }
    Ok(Patterns::from_vec(patterns))
}
