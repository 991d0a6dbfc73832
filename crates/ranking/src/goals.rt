// The goal rule: a fact that a goal fact stands under is a goal fact.
ghost use Rattle.ranking.specs.First.{GoalAt, Inside};
ghost use Rattle.task.specs.Meaning.{meaning};
ghost use Rattle.ranking.specs.Meaning.{relation};

use crate::check::Check;
use site::refusal::Refusal;

impl Check<'_> {
    pub(crate) fn check_goal(&self, factor: u8, a: u8, b: u8) -> Result<(), Refusal>
        requires { Inside (meaning self.now.task.now) factor a b }
        ensures { GoalAt (meaning self.now.task.now) (relation self.now.ranking.now) factor a b result }
    {
        let rows = &self.task.parts[factor as usize].rows;
        let above = &self.ranking.parts[factor as usize].rows[a as usize].facts;
        if rows[a as usize].goal && above[b as usize] && !rows[b as usize].goal {
            return Err(Refusal::Goal { factor, a, b });
        }
        Ok(())
    }
}
