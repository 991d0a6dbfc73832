// Random numbers, the same in every run.
ghost use Rattle.std.specs.Prelude.{◌≡◌, ◌/◌, ◌%◌, ◌^◌, ◌<◌, ◌≤◌};
ghost use Rattle.samples.specs.Numbers.{following};

// A linear congruential row.
#[derive(Clone, Copy, Debug, PartialEq, Eq)]
pub struct Random {
    pub state: u64,
}

impl Random {
    // The next number of the row.
    pub fn next(&mut self) -> u64
        ensures number { result ≡ following self.old.state }
        ensures row { self.new.state ≡ following self.old.state }
    {
        self.state = self
            .state
            .wrapping_mul(6364136223846793005)
            .wrapping_add(1442695040888963407);
        self.state
    }

    // A number below n by the next one, and 0 where n is 0.
    pub fn below(&mut self, n: u8) -> u8
        ensures less { 1 ≤ n → result < n }
        ensures none { n ≡ 0 → result ≡ 0 }
        ensures number { 1 ≤ n → result ≡ following self.old.state / 2 ^ 33 % n }
        ensures row { self.new.state ≡ following self.old.state }
    {
        let number = self.next() >> 33;
        if n == 0 {
            0
        } else {
            (number % u64::from(n)) as u8
        }
    }
}
