// Two factors, by their numbers.
ghost use Rattle.std.specs.Prelude.{◌≡◌};
ghost use Rattle.estimators.specs.Pairs.{apart};

#[derive(Clone, Copy)]
pub(crate) struct TwoFactors {
    pub(crate) first: u8,
    pub(crate) second: u8,
}

impl TwoFactors {
    // Whether the two are different factors of a task that has so many.
    pub(crate) fn are_apart(self, factors: u8) -> bool
        ensures { result ≡ apart self.first self.second factors }
    {
        self.first != self.second && self.first < factors && self.second < factors
    }
}
