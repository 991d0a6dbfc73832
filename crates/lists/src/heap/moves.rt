// How numbers move within the heap. A place is a plain number: a struct that knows its bound would be opened in each sum and clause.
ghost use Rattle.std.specs.Prelude.{◌≡◌, ◌<◌, nat_lt};
ghost use Rattle.std.proofs.lemmas.List.Edits.{Swapped};
ghost use Rattle.lists.specs.Capacity.{capacity_limit};
ghost use Rattle.lists.specs.Heaps.{ahead, Loose, High, Upward, FirstBelow, Downward};
ghost use Rattle.lists.specs.Tables.{heap_earlier, heap_order, InOrder};

use super::Heap;
use crate::keys::Key;

// Whether the first key comes before the second, or the two tie and `lower` holds; where there is no key, it comes last.
fn comes_first<K: Key>(x: Option<K>, y: Option<K>, lower: bool) -> bool
    ensures { result ≡ ahead K.Key.sooner x y lower }
{
    match (x, y) {
        (Some(x), Some(y)) => x.precedes(&y) || (!y.precedes(&x) && lower),
        (Some(_), None) => true,
        (None, Some(_)) => false,
        (None, None) => lower,
    }
}

impl<K: Key> Heap<K> {
    // Whether the number at the one place comes before the number at the other.
    fn before(&self, i: usize, j: usize) -> bool
        requires within { i < capacity_limit }
        requires other { j < capacity_limit }
        ensures { result ≡ heap_earlier K.Key.sooner self.now (heap_order self.now i) (heap_order self.now j) }
    {
        let a = self.order[i];
        let b = self.order[j];
        comes_first(self.keys[a as usize], self.keys[b as usize], a < b)
    }

    // Lets the numbers at two places change places: both hold a key, or neither does.
    pub(super) fn exchange(&mut self, i: usize, j: usize)
        requires within { i < capacity_limit }
        requires other { j < capacity_limit }
        requires alike { nat_lt i self.old.count ≡ nat_lt j self.old.count }
        ensures keys { self.new.keys ≡ self.old.keys }
        ensures count { self.new.count ≡ self.old.count }
        ensures order { Swapped (heap_order self.old) (heap_order self.new) i j }
    {
        // Written one by one: with `swap` on both arrays a fill and drain took a quarter longer.
        let a = self.order[i];
        let b = self.order[j];
        self.order[i] = b;
        self.order[j] = a;
        self.places[a as usize] = j as u16;
        self.places[b as usize] = i as u16;
    }

    // The place above, if the number at this place comes before the one there.
    fn above(&self, at: usize) -> Option<usize>
        requires { at < capacity_limit }
        ensures { Upward (heap_earlier K.Key.sooner self.now) (heap_order self.now) at result }
    {
        let parent = at.checked_sub(1)? / 2;
        self.before(at, parent).then_some(parent)
    }

    // Moves the number at a place up for as long as it comes before the one above, and says where it then stands.
    pub(crate) fn rise(&mut self, start: usize) -> usize
        requires within { start < self.old.count }
        requires loose { Loose (heap_earlier K.Key.sooner self.old) (heap_order self.old) self.old.count start }
        ensures keys { self.new.keys ≡ self.old.keys }
        ensures count { self.new.count ≡ self.old.count }
        ensures within { result < self.new.count }
        ensures high { High (heap_earlier K.Key.sooner self.new) (heap_order self.new) self.new.count result }
    {
        let mut at = start;
        while let Some(parent) = self.above(at) {
            self.exchange(at, parent);
            at = parent;
        }
        at
    }

    // The place below whose number comes before the other's.
    fn first_below(&self, at: usize) -> Option<usize>
        requires { at < capacity_limit }
        ensures { FirstBelow (heap_earlier K.Key.sooner self.now) (heap_order self.now) self.now.count at result }
    {
        let left = 2 * at + 1;
        if left >= self.count {
            return None;
        }
        let right = left + 1;
        if right >= self.count {
            return Some(left);
        }
        if self.before(right, left) {
            return Some(right);
        }
        Some(left)
    }

    // The same, if its number comes before the one at this place.
    fn below(&self, at: usize) -> Option<usize>
        requires { at < capacity_limit }
        ensures { Downward (heap_earlier K.Key.sooner self.now) (heap_order self.now) self.now.count at result }
    {
        let child = self.first_below(at)?;
        self.before(child, at).then_some(child)
    }

    // Moves the number at a place down for as long as one below comes before it.
    pub(crate) fn sink(&mut self, start: usize)
        requires within { start < capacity_limit }
        requires high { High (heap_earlier K.Key.sooner self.old) (heap_order self.old) self.old.count start }
        ensures keys { self.new.keys ≡ self.old.keys }
        ensures count { self.new.count ≡ self.old.count }
        ensures order { InOrder K.Key.sooner self.new }
    {
        let mut at = start;
        while let Some(child) = self.below(at) {
            self.exchange(at, child);
            at = child;
        }
    }
}
