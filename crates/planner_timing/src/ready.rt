// Estimators are made ready for a task.
use estimators::estimator::Estimator;
use estimators::greater::Greater;
use estimators::longest::Longest;
use estimators::pair::Pair;
use lists::heaps::DistanceHeap;
use site::read::read_site;
use task::task::Task;

// Makes an estimator ready some times, and adds up the estimates of the start state.
fn repeat<E: Estimator>(estimator: &mut E, task: &Task, rounds: u32) -> u64 {
    let start = task.start_state();
    let mut sum = 0u64;
    for _ in 0..rounds {
        estimator.ready(task);
        let estimate = estimator.estimate(task, &start);
        sum = sum.wrapping_add(estimate.map_or(0, u64::from));
    }
    sum
}

// By longest, by the pair of factors 0 and 1, or by the greater of both; 0 for a site that is refused. Which of them is a
// number since this is called from C.
#[unsafe(no_mangle)]
pub extern "C" fn make_ready(site: &[u8], which: u8, rounds: u32) -> u64 {
    let Ok(task) = read_site(site) else {
        return 0;
    };
    let mut longest = Longest::new(DistanceHeap::new());
    let mut pair = Pair::new(DistanceHeap::new(), 0, 1);
    match which {
        0 => repeat(&mut longest, &task, rounds),
        1 => repeat(&mut pair, &task, rounds),
        _ => repeat(&mut Greater::new(longest, pair), &task, rounds),
    }
}
