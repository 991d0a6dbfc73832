// The worked examples of runs: what is to be said of them is proved, and of two of their sites said.
ghost use Rattle.planner_trials.specs.SearchWorked.{SearchWorked};

use samples::files::{changed, sample_site};
use samples::trial::Trial;

// Carries the statement on the worked examples.
fn worked() -> u8
    ensures { SearchWorked }
{
    4
}

pub(crate) fn try_worked_sites(rt: &HostRuntime) -> anyhow::Result<()> {
    let heap = rt.alloc();
    let count = worked();
    println!(rt; "{count} worked examples\n")?;
    let closed = changed(heap, sample_site(), 11..14, &[])?;
    println!(rt; "{}", Trial::of_site("without a goal in factor 0", &closed))?;
    let done = changed(heap, sample_site(), 6..7, &[1])?;
    println!(rt; "{}", Trial::of_site("from a goal state", &done))?;
    Ok(())
}
