// What a row does.
ghost use Rattle.std.specs.Prelude.{◌≡◌, ℕ, None, slice_index_or};
ghost use Rattle.lists.specs.Capacity.{capacity_limit};
ghost use Rattle.lists.specs.Least.{Chosen};
ghost use Rattle.lists.specs.Rows.{row_holds, row_laws};
ghost use Rattle.lists.specs.Scan.{better_of};

use super::Row;
use crate::keys::Key;
use crate::waiting::{BeyondCapacity, CAPACITY, WaitingList};

impl<K: Key> Row<K> {
    // A row in which no number holds a key.
    pub fn new() -> Self
        ensures { (n : ℕ) → row_holds result n ≡ None }
    {
        Row {
            keys: [None; CAPACITY],
        }
    }
}

impl<K: Key> WaitingList<K> for Row<K> {
    ghost holds = { row_holds };

    ghost capacity = { λ _. capacity_limit };

    ghost laws = { row_laws };

    fn clear(&mut self) {
        self.keys.fill(None);
    }

    fn put(&mut self, number: usize, key: K) -> Result<(), BeyondCapacity> {
        if number >= CAPACITY {
            return Err(BeyondCapacity);
        }
        self.keys[number] = Some(key);
        Ok(())
    }

    fn take(&mut self) -> Option<usize> {
        let number = first_least(&self.keys)?;
        self.keys[number] = None;
        Some(number)
    }
}

// The lowest number whose key no other key comes before.
fn first_least<K: Key>(keys: &[Option<K>]) -> Option<usize>
    ensures { Chosen K.Key.sooner (λ n. slice_index_or keys.now n None) result }
{
    let mut best = None;
    for (number, key) in keys.iter().enumerate() {
        best = better(best, number, *key);
    }
    best.map(|(number, _)| number)
}

// The best so far, or the number if its key comes before.
fn better<K: Key>(best: Option<(usize, K)>, number: usize, key: Option<K>) -> Option<(usize, K)>
    ensures { result ≡ better_of K.Key.sooner best number key }
{
    let Some(key) = key else {
        return best;
    };
    if best.is_none_or(|(_, low)| key.precedes(&low)) {
        Some((number, key))
    } else {
        best
    }
}
