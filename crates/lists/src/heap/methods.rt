// What a heap does.
ghost use Rattle.std.specs.Prelude.{◌≡◌, ℕ, ◌<◌, length, Some, None, slice_index, slice_set};
ghost use Rattle.lists.specs.Capacity.{capacity_limit};
ghost use Rattle.lists.specs.Heaps.{Loose, High};
ghost use Rattle.lists.specs.Least.{Chosen, Without};
ghost use Rattle.lists.specs.Tables.{heap_holds, heap_order, heap_earlier, InOrder};

use super::Heap;
use crate::keys::Key;
use crate::waiting::CAPACITY;
use std::array;

// Each number at its own place.
fn in_order() -> [u16; CAPACITY]
    ensures length { length result ≡ capacity_limit }
    ensures places { (i : ℕ) → i < capacity_limit → slice_index result i ≡ i }
{
    array::from_fn(|number| number as u16)
}

impl<K: Key> Heap<K> {
    // A heap in which no number holds a key.
    pub(crate) fn new() -> Self
        ensures count { result.count ≡ 0 }
        ensures empty { (n : ℕ) → heap_holds result n ≡ None }
    {
        let order = in_order();
        Heap {
            keys: [None; CAPACITY],
            order,
            places: order,
            count: 0,
        }
    }

    // Gives the number the key, and says at which place the number now stands, be it the right one or not.
    pub(crate) fn enter(&mut self, number: usize, key: K) -> usize
        requires within { number < capacity_limit }
        requires order { InOrder K.Key.sooner self.old }
        ensures keys { self.new.keys ≡ slice_set self.old.keys number (Some key) }
        ensures within { result < self.new.count }
        ensures loose { Loose (heap_earlier K.Key.sooner self.new) (heap_order self.new) self.new.count result }
    {
        let at = self.places[number] as usize;
        let last = self.count;
        if at < last {
            self.keys[number] = Some(key);
            return at;
        }
        self.exchange(at, last);
        self.keys[number] = Some(key);
        self.count = last + 1;
        last
    }

    // Takes the number at the top out, and puts the last one there, be it the right place or not.
    pub(crate) fn leave(&mut self) -> Option<usize>
        requires { InOrder K.Key.sooner self.old }
        ensures chosen { Chosen K.Key.sooner (heap_holds self.old) result }
        ensures table { Without (heap_holds self.old) (heap_holds self.new) result }
        ensures high { High (heap_earlier K.Key.sooner self.new) (heap_order self.new) self.new.count 0 }
    {
        if self.count == 0 {
            return None;
        }
        let last = self.count - 1;
        let number = self.order[0] as usize;
        self.exchange(0, last);
        self.keys[number] = None;
        self.count = last;
        Some(number)
    }

    // No number holds a key.
    pub(crate) fn clear(&mut self)
        ensures count { self.new.count ≡ 0 }
        ensures empty { (n : ℕ) → heap_holds self.new n ≡ None }
    {
        self.keys.fill(None);
        self.count = 0;
    }
}
