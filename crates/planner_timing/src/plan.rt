// Sites are planned, with blank, the bare ranking and the heap.
use estimators::blank::Blank;
use lists::heaps::SearchHeap;
use planner::call::Call;
use planner::planner::Planner;

// So many takes end every run.
const TAKES: u16 = 1025;

// Loads a site and runs to the end, some times; the cost, the entries and the labels tried of the last run, as the digits of one number.
#[unsafe(no_mangle)]
pub extern "C" fn plan_site(site: &[u8], rounds: u32) -> u64 {
    let mut planner = Planner::new(Blank, SearchHeap::new());
    for _ in 0..rounds {
        let _ = planner.call(Call::Load(site));
        let _ = planner.call(Call::Start);
        let _ = planner.call(Call::Work(TAKES));
    }
    let cost = planner.cost().map_or(0, u64::from);
    let counts = planner.counts();
    cost.wrapping_mul(1000000000000)
        .wrapping_add((counts.entries as u64).wrapping_mul(1000000))
        .wrapping_add(u64::from(counts.tried))
}
