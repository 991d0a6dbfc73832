// What an estimator does.
ghost use Rattle.std.specs.Prelude.{◌≡◌, ℕ, ◌≤◌, List, Some, Option};
ghost use Rattle.task.specs.Task.{FactoredTask};
ghost use Rattle.task.specs.Meaning.{meaning, state_of};
ghost use Rattle.estimators.specs.Estimates.{Consistent};
ghost use Rattle.estimators.specs.Limits.{estimate_limit};

use task::state::State;
use task::task::Task;

// An estimate of what it costs to come from a state to a goal. It is never too high, and a step lowers it by no more than
// the step costs.
pub trait Estimator {
    // The tasks that it is right for.
    ghost right: { Self → FactoredTask → Type 0 };

    // Its function: the estimate of a state, or `None` for a hopeless one, from which no plan goes on.
    ghost value: { Self → List ℕ → Option ℕ };

    // Makes it right for a task. This never fails.
    fn ready(&mut self, task: &Task)
        ensures { right self.new (meaning task.now) };

    // Its value at a state.
    fn estimate(&self, task: &Task, state: &State) -> Option<u32>
        ensures { result ≡ value self.now (state_of task.now state.now) };

    ghost consistent: { (e : Self) (t : FactoredTask) → right e t → Consistent t (value e) };

    ghost small: { (e : Self) (s : List ℕ) (v : ℕ) → value e s ≡ Some v → v ≤ estimate_limit };
}
