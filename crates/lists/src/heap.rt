// The arrays of an indexed binary heap, over any sort of key. While a number moves they are not in order, so the order is a fact of
// the waiting list in `crate::heaps`, which holds them.
ghost use Rattle.std.specs.Prelude.{◌≡◌, ◌≤◌, length};
ghost use Rattle.lists.specs.Capacity.{capacity_limit};
ghost use Rattle.lists.specs.Tidy.{Listed, Fronted};

use crate::waiting::CAPACITY;

mod methods;
mod moves;

// Fixed arrays and a count: no list allocates, and its memory is part of a stated budget.
#[derive(Drop)]
pub(crate) struct Heap<K> {
    // The key of each number.
    keys: [Option<K>; CAPACITY],
    // Every number, those that hold a key in front.
    order: [u16; CAPACITY],
    // Where each number stands in `order`.
    places: [u16; CAPACITY],
    // How many numbers hold a key.
    count: usize,
    ghost full: { (length keys ≡ capacity_limit) × (length order ≡ capacity_limit) × (length places ≡ capacity_limit) × (count ≤ capacity_limit) },
    ghost listed: { Listed order places },
    ghost placed: { Listed places order },
    ghost fronted: { Fronted keys places count },
}
