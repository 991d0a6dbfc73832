// The largest distance over the factors of a task.
use crate::fact_costs::FactCosts;

mod methods;

// The distance of each fact of each factor.
#[derive(Drop)]
pub struct Longest<L> {
    waiting: L,
    distances: FactCosts,
}
