// The calls of a planner.
ghost use Rattle.std.specs.Prelude.{ℕ};
ghost use Rattle.planner.specs.View.{view};
ghost use Rattle.planner.specs.Calls.{call_of, Answers, Keeps, Acts, Carries, Vouches};

use super::Planner;
use crate::call::Call;
use crate::phase::Phase;
use astar::refusal::CallRefusal;
use estimators::estimator::Estimator;
use lists::keys::SearchKey;
use lists::waiting::WaitingList;

impl<E: Estimator, L: WaitingList<SearchKey>> Planner<E, L> {
    // Does what the call asks for, or refuses and changes nothing. What is done is fixed by the phase and the call together, so both are
    // matched in one place.
    pub fn call(&mut self, call: Call<'_>) -> Result<(), CallRefusal>
        ensures answers { Answers (view E.value L.holds self.old) (call_of call.entry) result }
        ensures keeps { Keeps self.old result self.new }
        ensures acts { Acts E.value L.holds self.old call.entry result self.new }
        ensures stands { Carries E.value L.holds self.old call.entry result self.new }
        ensures promises { Vouches E.value L.holds self.old call.entry result self.new }
    {
        match (&mut self.phase, call) {
            (Phase::Empty, Call::Load(bytes)) => self.load(bytes),
            (
                Phase::Empty,
                Call::Offer(_) | Call::Withdraw | Call::Start | Call::Work(_) | Call::Stop,
            ) => { Err(CallRefusal::Empty) }
            (Phase::Loaded | Phase::Ended(_), Call::Load(bytes)) => self.load(bytes),
            (Phase::Loaded | Phase::Ended(_), Call::Offer(bytes)) => self.offer(bytes),
            (Phase::Loaded | Phase::Ended(_), Call::Withdraw) => {
                self.withdraw();
                Ok(())
            }
            (Phase::Loaded | Phase::Ended(_), Call::Start) => {
                self.start();
                Ok(())
            }
            (Phase::Loaded | Phase::Ended(_), Call::Work(_) | Call::Stop) => Err(CallRefusal::Idle),
            (Phase::Running, Call::Work(takes)) => self.order(takes),
            (Phase::Running, Call::Stop) => {
                self.stop();
                Ok(())
            }
            (Phase::Running, Call::Load(_) | Call::Offer(_) | Call::Withdraw | Call::Start) => {
                Err(CallRefusal::Busy)
            }
        }
    }
}
