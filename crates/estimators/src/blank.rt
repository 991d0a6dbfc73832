// The estimator that knows nothing.
ghost use Rattle.std.specs.Prelude.{Some};
ghost use Rattle.std.proofs.Common.{rules};

use crate::estimator::Estimator;
use task::state::State;
use task::task::Task;

// It is right for every task, and estimates every state at 0.
#[derive(Clone, Copy, Debug, PartialEq, Eq)]
pub struct Blank;

impl Estimator for Blank {
    ghost right = { λ _ _. Unit {0} };

    ghost value = { λ _ _. Some 0 };

    ghost consistent = { Prim.search rules };

    ghost small = { Prim.search rules };

    fn ready(&mut self, _task: &Task) {}

    fn estimate(&self, _task: &Task, _state: &State) -> Option<u32> {
        Some(0)
    }
}
