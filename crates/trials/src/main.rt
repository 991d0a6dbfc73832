// Trials: the judgement of sample files, proved as facts about the definitions and run; and both waiting lists side by side.
#![tactic(auto)]

mod limits;
mod rankings;
mod show;
mod sites;
mod waiting;
mod worked;

use samples::files::{sample_ranking, sample_site};

fn main(rt: HostRuntime) -> anyhow::Result<()> {
    run(&rt)
}

fn run(rt: &HostRuntime) -> anyhow::Result<()> {
    let site = sample_site();
    let ranking = sample_ranking();
    worked::try_worked_rankings(rt, site, ranking)?;
    worked::try_worked_sites(rt, site)?;
    rankings::try_rankings(rt, site, ranking)?;
    rankings::try_ranking_files(rt, site)?;
    try_sites(rt, site)?;
    waiting::try_search_lists(rt)?;
    waiting::try_distance_lists(rt)
}

fn try_sites(rt: &HostRuntime, site: &[u8]) -> anyhow::Result<()> {
    sites::try_order(rt, site)?;
    sites::try_ranges(rt, site)?;
    sites::try_repeats(rt, site)?;
    sites::try_ends(rt, site)?;
    limits::try_labels(rt)?;
    limits::try_lengths(rt, site)
}
