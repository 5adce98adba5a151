//! What workers tell one another of attempts that win.
use once_cell::race::OnceBox;
use std::alloc::{AllocError, Global};

/// A cell for each worker, for the number of its first attempt that wins. What is read here saves attempts, and no answer
/// rests on it.
#[derive(Drop)]
pub(crate) struct Wins {
    cells: Vec<OnceBox<u32>>,
}

impl Wins {
    /// Empty cells for so many workers.
    pub fn none(alloc: Global, workers: u32) -> Result<Wins, AllocError> {
        let mut cells = Vec::new(alloc);
        for _ in 0..workers {
            cells.push(OnceBox::new(alloc))?;
        }
        Ok(Wins { cells })
    }

    /// Tells that this attempt of the worker wins.
    pub fn tell(&self, alloc: Global, worker: usize, number: u32) -> Result<(), AllocError> {
        if let Some(cell) = self.cells.get(worker) {
            let _told = cell.set(Box::new(alloc, number)?);
        }
        Ok(())
    }

    /// Whether a lesser attempt is known to win.
    pub fn has_lesser(&self, number: u32) -> bool {
        for cell in &self.cells {
            if let Some(won) = cell.get() {
                if *won < number {
                    return true;
                }
            }
        }
        false
    }
}
