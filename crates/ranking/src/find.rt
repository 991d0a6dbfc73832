// The finder of replies.
ghost use Rattle.ranking.specs.Finding.{Found};
ghost use Rattle.task.specs.Meaning.{meaning};
ghost use Rattle.ranking.specs.Meaning.{relation};

use crate::check::Check;
use crate::wanted::Wanted;

impl Check<'_> {
    // A reply that is wanted: the first label that serves, and the fact that it leads to.
    #[tactic(auto, using(crate::proofs::Serving::seen, crate::proofs::Serving::lands_low))]
    pub(crate) fn find_reply(&self, wanted: Wanted) -> Option<(u8, u8)>
        ensures { Found (meaning self.now.task.now) (relation self.now.ranking.now) wanted result }
    {
        let Wanted {
            factor,
            label,
            to,
            from,
        } = wanted;
        // Nested loops that one loop label leaves: the order of labels, factors and facts is read in one place.
        let mut found = None;
        'labels: for other in 0..self.task.labels + 1 {
            if self.task.price(label) < self.task.price(other) {
                continue;
            }
            let Some(into) = self.task.next(factor, other, from) else {
                continue;
            };
            if !self.ranking.ranks(factor, to, into) {
                continue;
            }
            for j in 0..self.task.factors {
                if j == factor {
                    continue;
                }
                let part = &self.task.parts[j as usize];
                let above = &self.ranking.parts[j as usize].rows;
                for (x, row) in part.rows[0..part.facts as usize].iter().enumerate() {
                    let Some(y) = row.target(label, x as u8) else {
                        continue;
                    };
                    let Some(z) = row.target(other, x as u8) else {
                        continue 'labels;
                    };
                    // By index, which needs no test at run time: both facts are proved to have a place in the table.
                    if !above[y as usize].facts[z as usize] {
                        continue 'labels;
                    }
                }
            }
            found = Some((other, into));
            break 'labels;
        }
        found
    }
}
