// Whether a transition has a reply: the finder finds one, and here it is verified.
ghost use Rattle.std.specs.Prelude.{Decides};
ghost use Rattle.ranking.specs.Finding.{IsReply, Replied, ServesBeside};
ghost use Rattle.task.specs.Meaning.{meaning};
ghost use Rattle.ranking.specs.Meaning.{relation};

use crate::check::Check;
use crate::wanted::Wanted;

impl Check<'_> {
    // Whether `other` serves for `label` in every factor but one.
    fn serves_beside(&self, factor: u8, label: u8, other: u8) -> bool
        ensures { Decides result (ServesBeside (meaning self.now.task.now) (relation self.now.ranking.now) factor label other) }
    {
        (0..self.task.factors).all(|j| j == factor || self.serves(j, label, other))
    }

    // Whether a label, and the fact that it leads to, are a reply that is wanted.
    fn is_reply(&self, wanted: Wanted, reply: (u8, u8)) -> bool
        ensures { Decides result (IsReply (meaning self.now.task.now) (relation self.now.ranking.now) wanted reply) }
    {
        let (other, into) = reply;
        if other > self.task.labels
            || self.task.price(wanted.label) < self.task.price(other)
            || self.task.next(wanted.factor, other, wanted.from) != Some(into)
            || !self.ranking.ranks(wanted.factor, wanted.to, into)
        {
            return false;
        }
        self.serves_beside(wanted.factor, wanted.label, other)
    }

    // Whether there is a reply that is wanted.
    pub(crate) fn has_reply(&self, wanted: Wanted) -> bool
        ensures { Decides result (Replied (meaning self.now.task.now) (relation self.now.ranking.now) wanted) }
    {
        matches!(self.find_reply(wanted), Some(reply) if self.is_reply(wanted, reply))
    }
}
