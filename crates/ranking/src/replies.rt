// The reply rule: a fact has a reply to each transition of a fact that stands under it.
ghost use Rattle.ranking.specs.First.{Inside, ReplyAt};
ghost use Rattle.task.specs.Meaning.{meaning};
ghost use Rattle.ranking.specs.Meaning.{relation};

use crate::check::Check;
use crate::wanted::Wanted;
use site::refusal::Refusal;

impl Check<'_> {
    pub(crate) fn check_reply(&self, factor: u8, a: u8, b: u8) -> Result<(), Refusal>
        requires { Inside (meaning self.now.task.now) factor a b }
        ensures { ReplyAt (meaning self.now.task.now) (relation self.now.ranking.now) factor a b result }
    {
        if !self.ranking.parts[factor as usize].rows[a as usize].facts[b as usize] {
            return Ok(());
        }
        for label in 0..self.task.labels + 1 {
            if let Some(to) = self.task.next(factor, label, a)
                && !self.has_reply(Wanted {
                    factor,
                    label,
                    to,
                    from: b,
                })
            {
                return Err(Refusal::Reply {
                    factor,
                    a,
                    b,
                    label,
                });
            }
        }
        Ok(())
    }
}
