// Trials: the estimators beside distances that are found by rounds of relaxation, and the planner on worked examples.
#![tactic(auto)]

mod estimates;
mod phases;
mod relaxing;
mod tasks;
mod visits;
mod worked;

fn main(rt: HostRuntime) -> anyhow::Result<()> {
    run(&rt)
}

fn run(rt: &HostRuntime) -> anyhow::Result<()> {
    worked::try_worked_sites(rt)?;
    estimates::try_worked(rt)?;
    estimates::try_random(rt)?;
    try_planner(rt)
}

fn try_planner(rt: &HostRuntime) -> anyhow::Result<()> {
    visits::try_samples(rt)?;
    visits::try_ten(rt)?;
    visits::try_other_lists(rt)?;
    phases::try_phases(rt)?;
    phases::try_questions(rt)?;
    phases::try_rows(rt)
}
