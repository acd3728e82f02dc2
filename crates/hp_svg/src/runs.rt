//! Runs: cells side by side with the same character.
ghost use Rattle.std.specs.Prelude.{◌≡◌, ◌*◌, ◌<◌, ◌^◌, IfOk};
ghost use Rattle.hp_svg.specs.Runs.{Covers};

use crate::elements::cells_of;
use std::alloc::{AllocError, Global};

/// Cells side by side with the same character, which are drawn as one rectangle.
#[derive(Clone, Copy)]
pub struct Run {
    /// The number of cells before them.
    pub at: usize,
    /// The number of cells.
    pub count: usize,
    /// Their character.
    pub mark: u8,
}

impl Run {
    /// Returns a run of one cell.
    fn new(at: usize, mark: u8) -> Run
        ensures { result ≡ record { at = at; count = 1; mark = mark } }
    {
        Run { at, count: 1, mark }
    }

    /// Returns where the run's rectangle begins, in pixels after the first cell's left edge, if a
    /// cell has this width.
    pub fn left(&self, cell: u8) -> u128
        ensures is { result ≡ cell * self.now.at }
        ensures low { result < 2 ^ 72 }
    {
        cells_of(cell, self.at)
    }

    /// Returns how wide the run's rectangle is.
    pub fn width(&self, cell: u8) -> u128
        ensures is { result ≡ cell * self.now.count }
        ensures low { result < 2 ^ 72 }
    {
        cells_of(cell, self.count)
    }
}

/// Returns the runs of cells, from left to right, as `picture_of` draws them.
pub fn runs_of(alloc: Global, cells: &[u8]) -> Result<Vec<Run>, AllocError>
    ensures { IfOk result (λ runs. Covers 0 runs.items cells.now) }
{
    let mut runs = Vec::new(alloc);
    let [first, rest @ ..] = cells else {
        return Ok(runs);
    };
    let mut run = Run::new(0, *first);
    for mark in rest {
        if *mark == run.mark {
            run.count += 1;
        } else {
            runs.push(run)?;
            run = Run::new(run.at + run.count, *mark);
        }
    }
    runs.push(run)?;
    Ok(runs)
}
