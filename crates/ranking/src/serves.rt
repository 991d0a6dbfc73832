// How the labels of a task serve for one another under a ranking.
ghost use Rattle.std.specs.Prelude.{ℕ, ◌<◌, Decides};
ghost use Rattle.ranking.specs.Ranking.{Serves};
ghost use Rattle.task.specs.Meaning.{meaning};
ghost use Rattle.ranking.specs.Meaning.{relation};

use crate::check::Check;

impl Check<'_> {
    // Whether, in this factor, `other` does at each fact at least as well as `label`. The table is indexed as in the finder.
    #[tactic(auto, using(crate::proofs::Serving::seen, crate::proofs::Serving::lands_low))]
    pub(crate) fn serves(&self, factor: u8, label: u8, other: u8) -> bool
        requires { factor < self.now.task.now.factors }
        ensures { Decides result (Serves (meaning self.now.task.now) (relation self.now.ranking.now) factor label other) }
    {
        let part = &self.task.parts[factor as usize];
        let above = &self.ranking.parts[factor as usize].rows;
        // Fact by fact, as the rule is told, with the number of each beside its row.
        for (x, row) in part.rows[0..part.facts as usize].iter().enumerate() {
            if let Some(y) = row.target(label, x as u8)
                && !row
                    .target(other, x as u8)
                    .is_some_and(|z| above[y as usize].facts[z as usize])
            {
                return false;
            }
        }
        true
    }
}
