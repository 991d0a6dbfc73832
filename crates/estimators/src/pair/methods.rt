// What the estimator by a pair of factors does.
ghost use Rattle.std.specs.Prelude.{◌≡◌, ℕ, None};
ghost use Rattle.estimators.specs.Estimates.{Exactly};
ghost use Rattle.estimators.specs.Measuring.{reading};
ghost use Rattle.estimators.specs.Pairs.{PairDistance, pair_value};
ghost use Rattle.estimators.specs.Pairing.{pair_consistent, pair_small};

use super::Pair;
use crate::distances::distances;
use crate::estimator::Estimator;
use crate::limits::NODES;
use crate::product::Product;
use crate::table::look_up;
use crate::two_factors::TwoFactors;
use lists::keys::DistanceKey;
use lists::waiting::WaitingList;
use task::state::State;
use task::task::Task;

impl<L> Pair<L> {
    // One that is not ready yet: every pair is hopeless.
    pub fn new(waiting: L, first: u8, second: u8) -> Self
        ensures waiting { result.waiting ≡ waiting }
        ensures first { result.factors.first ≡ first }
        ensures second { result.factors.second ≡ second }
        ensures hopeless { (n : ℕ) → reading result.table n ≡ None }
    {
        Pair {
            waiting,
            factors: TwoFactors { first, second },
            across: 0,
            table: [None; NODES],
        }
    }
}

impl<L: WaitingList<DistanceKey>> Estimator for Pair<L> {
    ghost right = { λ e t. Exactly t (PairDistance t e.factors.first e.factors.second) (pair_value e.factors.first e.factors.second e.across e.table) };

    ghost value = { λ e. pair_value e.factors.first e.factors.second e.across e.table };

    ghost consistent = { λ e t right. pair_consistent t e.factors.first e.factors.second (pair_value e.factors.first e.factors.second e.across e.table) right };

    ghost small = { λ e s v p. pair_small e.factors.first e.factors.second e.across e.table s e.low v p };

    fn ready(&mut self, task: &Task) {
        if let Some(product) = Product::of(task, self.factors) {
            let table = distances(&product, &mut self.waiting);
            self.across = product.across();
            self.table = table;
        }
    }

    fn estimate(&self, task: &Task, state: &State) -> Option<u32> {
        if !self.factors.are_apart(task.factors) {
            return Some(0);
        }
        let first = state.facts[self.factors.first as usize];
        let second = state.facts[self.factors.second as usize];
        look_up(
            &self.table,
            usize::from(first) * usize::from(self.across) + usize::from(second),
        )
    }
}
