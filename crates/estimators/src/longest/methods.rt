// What the estimator by the largest distance does.
ghost use Rattle.std.specs.Prelude.{◌≡◌, ℕ, length, None};
ghost use Rattle.estimators.specs.Columns.{cell};
ghost use Rattle.estimators.specs.Estimates.{Exactly};
ghost use Rattle.estimators.specs.Longest.{LongestDistance, longest_value};
ghost use Rattle.estimators.specs.Largest.{longest_consistent, greatest_small};

use super::Longest;
use crate::distances::distances;
use crate::estimator::Estimator;
use crate::fact_costs::FactCosts;
use crate::one_factor::OneFactor;
use lists::keys::DistanceKey;
use lists::waiting::WaitingList;
use task::state::State;
use task::task::Task;

impl<L> Longest<L> {
    // One that is not ready yet: every fact is hopeless.
    pub fn new(waiting: L) -> Self
        ensures waiting { result.waiting ≡ waiting }
        ensures hopeless { (j x : ℕ) → cell result.distances.columns j x ≡ None }
    {
        Longest {
            waiting,
            distances: FactCosts::hopeless(),
        }
    }
}

impl<L: WaitingList<DistanceKey>> Estimator for Longest<L> {
    ghost right = { λ e t. Exactly t (LongestDistance t) (longest_value e.distances.columns) };

    ghost value = { λ e. longest_value e.distances.columns };

    ghost consistent = { λ e t right. longest_consistent t (longest_value e.distances.columns) right };

    ghost small = { λ e s v p. greatest_small e.distances.columns s (length s) e.distances.low v p };

    fn ready(&mut self, task: &Task) {
        for factor in 0..task.factors {
            let table = distances(&OneFactor { task, factor }, &mut self.waiting);
            self.distances.put(factor, &table);
        }
    }

    fn estimate(&self, task: &Task, state: &State) -> Option<u32> {
        self.distances
            .greatest(&state.facts[..task.factors as usize])
    }
}
