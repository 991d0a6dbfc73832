// A ranking file is read into a ranking.
ghost use Rattle.std.specs.Prelude.{◌≡◌, ℕ, ◌<◌, true, ◌&&◌, MatchResult, ◌==◌, nat_lt};
ghost use Rattle.task.specs.Limits.{fact_limit};
ghost use Rattle.task.specs.Meaning.{meaning};
ghost use Rattle.site.specs.Changes.{put};
ghost use Rattle.site.specs.Files.{Rejected};
ghost use Rattle.ranking.specs.Tables.{above, order};
ghost use Rattle.ranking.specs.RankingFile.{knows, ranking_file, spelled};
ghost use Rattle.ranking.specs.Reading.{Listed, RankingRead};

use crate::listing::Listing;
use crate::order::{Above, Order, Ranking};
use site::commands::{FromCommands, read_file};
use site::refusal::{Fault, Refusal};
use task::limits::{FACTORS, FACTS};
use task::task::Task;

// Whether a task has such a factor, and the factor such a fact. A draft asks the same of its tables; a trait for one line would be no plainer.
fn has_fact(task: &Task, factor: u8, fact: u8) -> bool
    ensures { result ≡ knows (meaning task.now) factor fact }
{
    factor < task.factors && fact < task.facts(factor)
}

impl Above {
    // Adds a fact.
    fn list(&mut self, upper: u8)
        requires { upper < fact_limit }
        ensures { above self.new ≡ put upper true (above self.old) }
    {
        self.facts[upper as usize] = true;
    }
}

impl Order {
    // Puts a fact under another.
    fn list(&mut self, lower: u8, upper: u8)
        requires lower { lower < fact_limit }
        requires upper { upper < fact_limit }
        ensures { order self.new ≡ put lower (put upper true (order self.old lower)) (order self.old) }
    {
        self.rows[lower as usize].list(upper);
    }

    // Each fact is under itself alone.
    fn identity() -> Order
        ensures { (a b : ℕ) → order result a b ≡ (a == b && nat_lt a fact_limit) }
    {
        let mut order = Order {
            rows: [Above {
                facts: [false; FACTS],
            }; FACTS],
        };
        // By number, since the number is what is listed.
        for fact in 0..FACTS as u8 {
            order.list(fact, fact);
        }
        order
    }
}

impl FromCommands<Task> for Ranking {
    type Command = Listing;

    ghost format = { λ task. ranking_file (meaning task) };

    ghost spelled = { λ task. spelled (meaning task) };

    ghost holds = { λ ranking listings. Listed listings ranking };

    // Each fact stands under itself alone.
    fn new() -> Ranking {
        Ranking {
            parts: [Order::identity(); FACTORS],
        }
    }

    fn next(bytes: &[u8]) -> Result<(Listing, &[u8]), Fault> {
        Listing::next(bytes)
    }

    // Takes a command, if its operands are in range.
    fn take(&mut self, task: &Task, listing: Listing) -> Result<(), Fault> {
        if let Listing::Pair {
            factor,
            lower,
            upper,
        } = listing
        {
            if !has_fact(task, factor, lower) || !has_fact(task, factor, upper) {
                return Err(Fault::PairOutOfRange);
            }
            self.parts[factor as usize].list(lower, upper);
        }
        Ok(())
    }

    fn is_end(listing: Listing) -> bool {
        matches!(listing, Listing::End)
    }

    // Nothing has to be listed.
    fn is_whole(&self, _task: &Task) -> bool {
        true
    }
}

impl Ranking {
    // The ranking that a file lists for a task, or why the file is refused.
    pub fn read(task: &Task, bytes: &[u8]) -> Result<Ranking, Refusal>
        ensures { MatchResult result (λ ranking. RankingRead task.now bytes.now ranking) (λ refusal. Rejected (ranking_file (meaning task.now)) bytes.now refusal) }
    {
        read_file(task, bytes)
    }
}
