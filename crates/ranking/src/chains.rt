// The chain rule: where a chain leads from `a` to `b`, `a` stands under `b`.
ghost use Rattle.std.specs.Prelude.{◌≡◌, ℕ, ◌<◌, true, Decides};
ghost use Rattle.ranking.specs.First.{ChainAt, Inside};
ghost use Rattle.task.specs.Meaning.{meaning};
ghost use Rattle.ranking.specs.Meaning.{relation};

use crate::check::Check;
use site::refusal::Refusal;

impl Check<'_> {
    // Whether `a` stands under a fact that stands under `b`. The table is indexed as in the finder.
    fn is_chained(&self, factor: u8, a: u8, b: u8) -> bool
        requires { Inside (meaning self.now.task.now) factor a b }
        ensures { Decides result ((c : ℕ) × (c < (meaning self.now.task.now).facts factor) × ((relation self.now.ranking.now factor a c ≡ true) × (relation self.now.ranking.now factor c b ≡ true))) }
    {
        let facts = self.task.facts(factor);
        let rows = &self.ranking.parts[factor as usize].rows;
        let above = &rows[a as usize].facts;
        for (mid, row) in rows[..facts as usize].iter().enumerate() {
            if above[mid] && row.facts[b as usize] {
                return true;
            }
        }
        false
    }

    pub(crate) fn check_chain(&self, factor: u8, a: u8, b: u8) -> Result<(), Refusal>
        requires { Inside (meaning self.now.task.now) factor a b }
        ensures { ChainAt (meaning self.now.task.now) (relation self.now.ranking.now) factor a b result }
    {
        if !self.ranking.parts[factor as usize].rows[a as usize].facts[b as usize]
            && self.is_chained(factor, a, b)
        {
            return Err(Refusal::Chain { factor, a, b });
        }
        Ok(())
    }
}
