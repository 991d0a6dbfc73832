// How a trial is printed: its name, and the line of its judgement.
use explain::explanation::Line;
use ranking::judge::{Judgement, judge, judge_site};

fn show(rt: &HostRuntime, name: &str, judgement: Judgement) -> anyhow::Result<()> {
    let line = Line(judgement);
    println!(rt; "{name}: {line}")?;
    Ok(())
}

pub(crate) fn show_site(rt: &HostRuntime, name: &str, site: &[u8]) -> anyhow::Result<()> {
    show(rt, name, judge_site(site))
}

pub(crate) fn show_ranking(
    rt: &HostRuntime,
    name: &str,
    site: &[u8],
    ranking: &[u8],
) -> anyhow::Result<()> {
    show(rt, name, judge(site, ranking))
}
