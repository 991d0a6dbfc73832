// Rankings for the sample site.
use crate::show::show_ranking;
use samples::files::changed;

pub(crate) fn try_rankings(rt: &HostRuntime, site: &[u8], ranking: &[u8]) -> anyhow::Result<()> {
    show_ranking(rt, "no pair", site, &[b'E'])?;
    show_ranking(rt, "a fact under itself", site, &[b'P', 1, 2, 2, b'E'])?;
    let again = changed(rt.alloc(), ranking, 16..16, &[b'P', 0, 0, 1])?;
    show_ranking(rt, "a pair listed again", site, &again)?;
    let both = changed(rt.alloc(), ranking, 16..16, &[b'P', 1, 2, 1])?;
    show_ranking(rt, "1 and 2 under each other", site, &both)?;
    let label_one = changed(rt.alloc(), site, 25..27, &[0xFF, 0xFF])?;
    show_ranking(
        rt,
        "label 1 at cost 65535",
        &label_one,
        &[b'P', 1, 1, 0, b'E'],
    )?;
    Ok(())
}

pub(crate) fn try_ranking_files(rt: &HostRuntime, site: &[u8]) -> anyhow::Result<()> {
    let files: &[(&str, &[u8])] = &[
        ("an empty ranking file", &[]),
        ("a letter of site files", &[b'G', 0, 1, b'E']),
        ("a pair cut short", &[b'P', 0, 0]),
        ("a ranking without end", &[b'P', 0, 0, 1]),
        ("a byte after the end", &[b'E', b'E']),
        ("a third factor", &[b'P', 2, 0, 0, b'E']),
        ("a lower fact out of range", &[b'P', 0, 2, 0, b'E']),
        (
            "an upper fact out of range",
            &[b'P', 0, 0, 1, b'P', 1, 0, 3, b'E'],
        ),
    ];
    for (name, ranking) in files {
        show_ranking(rt, name, site, ranking)?;
    }
    show_ranking(rt, "a ranking for no site", &[], &[b'E'])
}
