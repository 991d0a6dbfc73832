// The distance of the pair of facts of two factors.
ghost use Rattle.estimators.specs.Columns.{LowTable};

use crate::limits::NODES;
use crate::two_factors::TwoFactors;

mod methods;

// The distances of the pairs of facts of two factors.
#[derive(Drop)]
pub struct Pair<L> {
    waiting: L,
    factors: TwoFactors,
    // How many facts the second factor has, and 0 before it is made ready: pairs go by number, row by row, in a table of fixed size.
    across: u8,
    table: [Option<u32>; NODES],
    ghost low: { LowTable table },
}
