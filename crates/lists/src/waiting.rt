// What a waiting list does.
ghost use Rattle.std.specs.Prelude.{◌≡◌, ℕ, is_ok, if◌then◌else◌, Some, None, Option, nat_eq, nat_lt};
ghost use Rattle.std.specs.Map.{update};
ghost use Rattle.lists.specs.Least.{Bounded, Chosen, Without};

use crate::keys::Key;

// How many numbers the lists of this crate have room for.
pub const CAPACITY: usize = 1024;

// The number is not below the list's capacity.
#[derive(Clone, Copy, Debug, PartialEq, Eq)]
pub struct BeyondCapacity;

// A table from numbers to keys, from which the number with the least key is taken.
pub trait WaitingList<K: Key> {
    // The key that a number holds.
    ghost holds: { Self → ℕ → Option K };

    // The numbers below this can hold a key.
    ghost capacity: { Self → ℕ };

    // The capacity is no less than that of this crate's lists, and no number from the capacity on holds a key.
    ghost laws: { Bounded holds capacity };

    // No number holds a key.
    fn clear(&mut self)
        ensures capacity { capacity self.new ≡ capacity self.old }
        ensures empty { (n : ℕ) → holds self.new n ≡ None };

    // The number holds the key, in place of any that it held; or it is beyond the capacity, and nothing changes.
    fn put(&mut self, number: usize, key: K) -> Result<(), BeyondCapacity>
        ensures capacity { capacity self.new ≡ capacity self.old }
        ensures test { is_ok result ≡ nat_lt number (capacity self.old) }
        ensures table { (n : ℕ) → holds self.new n ≡ (if is_ok result then update nat_eq (holds self.old) number (Some key) n else holds self.old n) };

    // The number with the least key, the lowest such number, which then holds none.
    fn take(&mut self) -> Option<usize>
        ensures capacity { capacity self.new ≡ capacity self.old }
        ensures chosen { Chosen K.Key.sooner (holds self.old) result }
        ensures table { Without (holds self.old) (holds self.new) result };
}
