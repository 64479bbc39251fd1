//! A plain list of what waits, to compare a work list with.

use std::alloc::{AllocError, Global};
use worklist::items::Propagation;

/// The waiting items, the oldest first.
#[derive(Drop)]
pub struct Model {
    waiting: Vec<Propagation>,
}

impl Model {
    pub fn new(heap: Global) -> Model {
        Model {
            waiting: Vec::new(heap),
        }
    }

    pub fn waiting(&self) -> usize {
        self.waiting.len()
    }

    pub fn put(&mut self, item: Propagation) -> Result<(), AllocError> {
        self.waiting.push(item)?;
        Ok(())
    }

    /// Takes the item that `choose` answers of those that wait.
    pub fn take<F: Fn(&[Propagation]) -> Option<Propagation>>(
        &mut self,
        choose: &F,
    ) -> Option<Propagation>
        requires { F.IsAlwaysCallable choose.now }
    {
        let chosen = choose(&self.waiting)?;
        if let Some(place) = self.waiting.iter().position(|item| *item == chosen) {
            self.waiting.remove(place);
        }
        Some(chosen)
    }
}
