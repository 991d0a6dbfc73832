// The greater of two estimates.
ghost use Rattle.std.specs.Prelude.{◌≡◌};
ghost use Rattle.estimators.specs.Estimates.{greater};
ghost use Rattle.estimators.specs.Greatest.{greater_consistent, greater_small};
ghost use Rattle.estimators.specs.Limits.{estimate_limit};

use crate::estimator::Estimator;
use task::state::State;
use task::task::Task;

// The greater of what two estimators give; hopeless where either is.
#[derive(Drop)]
pub struct Greater<A, B> {
    first: A,
    second: B,
}

impl<A, B> Greater<A, B> {
    pub fn new(first: A, second: B) -> Self
        ensures first { result.first ≡ first }
        ensures second { result.second ≡ second }
    {
        Greater { first, second }
    }
}

// The greater of two estimates; hopeless where either is.
pub(crate) fn greater_of(first: Option<u32>, second: Option<u32>) -> Option<u32>
    ensures { result ≡ greater first second }
{
    Some(first?.max(second?))
}

impl<A: Estimator, B: Estimator> Estimator for Greater<A, B> {
    ghost right = { λ e t. A.right e.first t × B.right e.second t };

    ghost value = { λ e s. greater (A.value e.first s) (B.value e.second s) };

    ghost consistent = { λ e t r. greater_consistent t (A.value e.first) (B.value e.second) (A.consistent e.first t r.0) (B.consistent e.second t r.1) };

    ghost small = { λ e s v p. greater_small (A.value e.first s) (B.value e.second s) estimate_limit (λ v q. A.small e.first s v q) (λ v q. B.small e.second s v q) v p };

    fn ready(&mut self, task: &Task) {
        self.first.ready(task);
        self.second.ready(task);
    }

    fn estimate(&self, task: &Task, state: &State) -> Option<u32> {
        greater_of(
            self.first.estimate(task, state),
            self.second.estimate(task, state),
        )
    }
}
