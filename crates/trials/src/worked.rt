// The worked examples: what is to be said of each is proved, and then said.
ghost use Rattle.samples.specs.Worked.{Worked};

use samples::files::changed;
use samples::trial::Trial;

// Carries the statement on the worked examples.
fn worked() -> u8
    ensures { Worked }
{
    11
}

pub(crate) fn try_worked_rankings(
    rt: &HostRuntime,
    site: &[u8],
    ranking: &[u8],
) -> anyhow::Result<()> {
    let heap = rt.alloc();
    let count = worked();
    println!(rt; "{count} worked examples\n")?;
    println!(rt;
        "{}",
        Trial::of_ranking("the sample ranking", site, ranking)
    )?;
    let open = changed(heap, ranking, 12..16, &[])?;
    println!(rt;
        "{}",
        Trial::of_ranking("without its last pair", site, &open)
    )?;
    let goal = [b'P', 0, 1, 0, b'E'];
    println!(rt;
        "{}",
        Trial::of_ranking("only 1 under 0 in factor 0", site, &goal)
    )?;
    let reply = [b'P', 1, 1, 0, b'E'];
    println!(rt;
        "{}",
        Trial::of_ranking("only 1 under 0 in factor 1", site, &reply)
    )?;
    let dear = changed(heap, site, 26..27, &[31])?;
    println!(rt;
        "{}",
        Trial::of_ranking("the same with label 1 at cost 31", &dear, &reply)
    )?;
    Ok(())
}

pub(crate) fn try_worked_sites(rt: &HostRuntime, site: &[u8]) -> anyhow::Result<()> {
    let heap = rt.alloc();
    println!(rt; "{}", Trial::of_site("the empty file", &[]))?;
    println!(rt; "{}", Trial::of_site("45 alone", &[b'E']))?;
    let longer = changed(heap, site, 60..60, &[0])?;
    println!(rt; "{}", Trial::of_site("a byte added", &longer))?;
    let unpriced = changed(heap, site, 27..31, &[])?;
    println!(rt; "{}", Trial::of_site("without the second C", &unpriced))?;
    Ok(())
}
