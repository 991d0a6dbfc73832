// A waiting list that is scanned from end to end.
ghost use Rattle.std.specs.Prelude.{◌≡◌, length};
ghost use Rattle.lists.specs.Capacity.{capacity_limit};

mod methods;

use crate::waiting::CAPACITY;

// A fixed array, as no list allocates.
#[derive(Drop)]
pub struct Row<K> {
    keys: [Option<K>; CAPACITY],
    ghost full: { length keys ≡ capacity_limit },
}
