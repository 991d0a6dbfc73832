// The questions to a planner.
ghost use Rattle.std.specs.Prelude.{◌≡◌, ℕ};
ghost use Rattle.planner.specs.View.{view};
ghost use Rattle.planner.specs.Questions.{word_in, end_in, Costs, Cheapness, counts_of, Tells, Names};

use super::Planner;
use crate::counts::Counts;
use crate::phase::{Phase, Word};
use astar::refusal::CallRefusal;
use estimators::estimator::Estimator;
use lists::keys::SearchKey;
use lists::waiting::WaitingList;

impl<E: Estimator, L: WaitingList<SearchKey>> Planner<E, L> {
    pub fn phase(&self) -> Phase
        ensures { result ≡ self.now.phase }
    {
        self.phase
    }

    // How the run ended, if it did.
    pub fn word(&self) -> Option<Word>
        ensures { result ≡ word_in self.now.phase }
    {
        match self.phase {
            Phase::Ended(word) => Some(word),
            Phase::Empty | Phase::Loaded | Phase::Running => None,
        }
    }

    // The entry in which the plan ends that is reported.
    fn plan_end(&self) -> Option<u16>
        ensures { result ≡ end_in self.now.phase }
    {
        match self.word()? {
            Word::Plan { end } => Some(end),
            Word::NoPlan | Word::Full => None,
        }
    }

    // The cost of the plan that is reported. Without one, `let .. else` says so before anything is asked, here and in `label`.
    pub fn cost(&self) -> Result<u32, CallRefusal>
        ensures exact { Costs (view E.value L.holds self.now) result }
        ensures cheapest { Cheapness (view E.value L.holds self.now) result }
    {
        let Some(end) = self.plan_end() else {
            return Err(CallRefusal::NoPlan);
        };
        Ok(self.table.cost_at(end as usize))
    }

    // How many entries there are and were taken, and how many labels made a step: none where no run was begun.
    pub fn counts(&self) -> Counts
        ensures { result ≡ counts_of (view E.value L.holds self.now) }
    {
        match self.phase {
            Phase::Empty | Phase::Loaded => Counts::default(),
            Phase::Running | Phase::Ended(_) => Counts {
                entries: self.table.count,
                taken: self.taken,
                tried: self.tried,
            },
        }
    }

    // The label at a position of the plan that is reported.
    pub fn label(&self, position: u16) -> Result<u8, CallRefusal>
        ensures exact { Tells (view E.value L.holds self.now) position result }
        ensures plan { Names (view E.value L.holds self.now) position result }
    {
        let Some(end) = self.plan_end() else {
            return Err(CallRefusal::NoPlan);
        };
        self.table
            .label_at(end as usize, position as usize)
            .ok_or(CallRefusal::PastPlan)
    }
}
