// Whether a ranking may be relied on, and whether a state is under another by it.
ghost use Rattle.std.specs.Prelude.{◌≡◌, ℕ};
ghost use Rattle.task.specs.Meaning.{meaning, state_of};
ghost use Rattle.ranking.specs.First.{FirstError, Inside};
ghost use Rattle.ranking.specs.Ranking.{under};
ghost use Rattle.ranking.specs.Verdict.{Checked};
ghost use Rattle.ranking.specs.Tables.{order};
ghost use Rattle.ranking.specs.Meaning.{relation};

use crate::order::{Order, Ranking};
use site::refusal::Refusal;
use task::state::State;
use task::task::Task;

// A ranking, and the task that it is checked for.
#[derive(Clone, Copy)]
pub(crate) struct Check<'a> {
    pub(crate) task: &'a Task,
    pub(crate) ranking: &'a Ranking,
}

// Checks each two facts of a factor, given one by one as the relation of the definitions takes them, in rising order of the factor and the two, up to the first error.
// The check at a pair may count on it that both are facts of the factor, so it can index the tables.
fn try_pairs<F: Fn(u8, u8, u8) -> Result<(), Refusal>>(
    task: &Task,
    check_at: F,
) -> Result<(), Refusal>
    requires { (i a b : ℕ) → Inside (meaning task.now) i a b → F.pre check_at i a b }
    ensures { FirstError (meaning task.now) (F.post check_at) result }
{
    for factor in 0..task.factors {
        for a in 0..task.facts(factor) {
            for b in 0..task.facts(factor) {
                check_at(factor, a, b)?;
            }
        }
    }
    Ok(())
}

impl Order {
    // Whether a fact stands under another.
    pub(crate) fn ranks(&self, a: u8, b: u8) -> bool
        ensures { result ≡ order self.now a b }
    {
        self.rows
            .get(a as usize)
            .and_then(|above| above.facts.get(b as usize))
            .is_some_and(|ranked| *ranked)
    }
}

impl Ranking {
    // The first place at which the ranking breaks a rule, if it is no label-dominance simulation of the task.
    pub fn check(&self, task: &Task) -> Result<(), Refusal>
        ensures { Checked (meaning task.now) (relation self.now) result }
    {
        let check = Check {
            task,
            ranking: self,
        };
        try_pairs(task, |factor, a, b| check.check_chain(factor, a, b))?;
        try_pairs(task, |factor, a, b| check.check_goal(factor, a, b))?;
        try_pairs(task, |factor, a, b| check.check_reply(factor, a, b))
    }

    // Whether a fact of a factor stands under another.
    pub(crate) fn ranks(&self, factor: u8, a: u8, b: u8) -> bool
        ensures { result ≡ relation self.now factor a b }
    {
        self.parts
            .get(factor as usize)
            .is_some_and(|order| order.ranks(a, b))
    }

    // Whether each fact of a state stands under that of another state.
    pub fn is_under(&self, task: &Task, s: &State, u: &State) -> bool
        ensures { result ≡ under (meaning task.now) (relation self.now) (state_of task.now s.now) (state_of task.now u.now) }
    {
        (0..task.factors).all(|j| self.ranks(j, s.facts[j as usize], u.facts[j as usize]))
    }
}
