// Estimators: what a state of a task costs at least, up to a goal.
#![tactic(auto)]

pub mod blank;
mod distances;
pub mod estimator;
mod fact_costs;
pub mod greater;
mod incoming;
mod limits;
pub mod longest;
mod one_factor;
pub mod pair;
mod product;
mod projection;
mod table;
mod two_factors;
