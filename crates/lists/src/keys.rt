// What a key is, and the two sorts of key.
ghost use Rattle.std.specs.Prelude.{◌≡◌, Bool};
ghost use Rattle.lists.specs.Sooner.{KeyOrder, sum_sooner, distance_sooner};
ghost use Rattle.lists.specs.Orders.{sum_laws, distance_laws};

// Any two keys compare, only equal keys tie, and the order is transitive.
pub trait Key: Copy {
    // Whether the first key comes before the second.
    ghost sooner: { Self → Self → Bool };

    // It has no body here, since that would have to hold for any `sooner`.
    fn precedes(&self, other: &Self) -> bool
        ensures { result ≡ sooner self.now other.now };

    ghost laws: { KeyOrder sooner };
}

// Ordered by the sum, then the estimate, then the entry.
#[derive(Clone, Copy, Debug, PartialEq, Eq, PartialOrd)]
pub struct SearchKey {
    pub sum: u32,
    pub estimate: u32,
    pub entry: u16,
}

impl Key for SearchKey {
    ghost sooner = { sum_sooner };

    ghost laws = { sum_laws };

    fn precedes(&self, other: &SearchKey) -> bool {
        self < other
    }
}

// Ordered by the distance, then the fact.
#[derive(Clone, Copy, Debug, PartialEq, Eq, PartialOrd)]
pub struct DistanceKey {
    pub distance: u32,
    pub fact: u16,
}

impl Key for DistanceKey {
    ghost sooner = { distance_sooner };

    ghost laws = { distance_laws };

    fn precedes(&self, other: &DistanceKey) -> bool {
        self < other
    }
}
