// The heap as a waiting list: one that is known to be in the order of its keys.
ghost use Rattle.std.specs.Prelude.{◌≡◌, ℕ, None};
ghost use Rattle.lists.specs.Capacity.{capacity_limit};
ghost use Rattle.lists.specs.Tables.{heap_holds, through, InOrder};

use crate::heap::Heap;
use crate::keys::{DistanceKey, Key, SearchKey};
use crate::waiting::{BeyondCapacity, CAPACITY, WaitingList};

#[derive(Drop)]
pub struct OrderedHeap<K: Key> {
    heap: Heap<K>,
    ghost ordered: { InOrder K.sooner heap },
}

pub type SearchHeap = OrderedHeap<SearchKey>;

pub type DistanceHeap = OrderedHeap<DistanceKey>;

impl<K: Key> OrderedHeap<K> {
    // A heap in which no number holds a key.
    pub fn new() -> Self
        ensures { (n : ℕ) → heap_holds result.heap n ≡ None }
    {
        OrderedHeap { heap: Heap::new() }
    }
}

impl<K: Key> WaitingList<K> for OrderedHeap<K> {
    ghost holds = { λ s. heap_holds s.heap };

    ghost capacity = { λ _. capacity_limit };

    ghost laws = { through (λ s. s.heap) };

    fn clear(&mut self) {
        self.heap.clear();
    }

    fn put(&mut self, number: usize, key: K) -> Result<(), BeyondCapacity> {
        if number >= CAPACITY {
            return Err(BeyondCapacity);
        }
        let heap = &mut self.heap;
        let start = heap.enter(number, key);
        let at = heap.rise(start);
        heap.sink(at);
        Ok(())
    }

    fn take(&mut self) -> Option<usize> {
        let heap = &mut self.heap;
        let number = heap.leave();
        heap.sink(0);
        number
    }
}
