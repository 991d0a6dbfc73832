// Site files that differ from the sample in one place.
use crate::show::show_site;
use samples::files::changed;
use std::ops::Range;

// A name, the places of the sample whose bytes are replaced, and the bytes that come there.
type Change<'a> = (&'a str, Range<usize>, &'a [u8]);

fn try_changes(rt: &HostRuntime, site: &[u8], changes: &[Change]) -> anyhow::Result<()> {
    for (name, places, new) in changes {
        let file = changed(rt.alloc(), site, places.start..places.end, new)?;
        show_site(rt, name, &file)?;
    }
    Ok(())
}

// The order of the commands.
pub(crate) fn try_order(rt: &HostRuntime, site: &[u8]) -> anyhow::Result<()> {
    try_changes(
        rt,
        site,
        &[
            ("no sizes", 0..3, &[]),
            ("sizes twice", 3..3, &[b'T', 2, 2]),
            ("the second factor first", 3..7, &[]),
            ("a factor twice", 7..7, &[b'F', 0, 2, 0]),
            ("a factor too many", 11..11, &[b'F', 2, 1, 0]),
            ("a goal before the last factor", 7..7, &[b'G', 0, 0]),
            ("the end before the last factor", 7..60, &[b'E']),
            ("out of turn and out of range", 7..7, &[b'F', 0, 99, 99]),
            (
                "costs before goals",
                11..31,
                b"C\x02\x00\x1EC\x01\x00\x1EG\x01\x02G\x01\x01G\x01\x00G\x00\x01",
            ),
        ],
    )
}

// The ranges of the operands.
pub(crate) fn try_ranges(rt: &HostRuntime, site: &[u8]) -> anyhow::Result<()> {
    try_changes(
        rt,
        site,
        &[
            ("no factors", 1..2, &[0]),
            ("13 factors", 1..2, &[13]),
            ("no labels", 2..3, &[0]),
            ("a factor without facts", 3..7, &[b'F', 0, 0, 0]),
            ("17 facts", 5..6, &[17]),
            ("a start that is no fact", 6..7, &[2]),
            ("a goal that is no fact", 13..14, &[2]),
            ("a goal of no factor", 12..13, &[2]),
            ("a cost of stay", 24..25, &[0]),
            ("a cost of no label", 24..25, &[3]),
            ("a transition from no fact", 34..35, &[2]),
            ("a transition to no fact", 35..36, &[2]),
            ("a transition by stay", 33..34, &[0]),
            ("self-loops of no factor", 42..43, &[2]),
        ],
    )
}

// What is given twice.
pub(crate) fn try_repeats(rt: &HostRuntime, site: &[u8]) -> anyhow::Result<()> {
    try_changes(
        rt,
        site,
        &[
            ("a goal fact twice", 14..14, &[b'G', 0, 1]),
            ("a cost twice", 27..27, &[b'C', 1, 0, 30]),
            ("a transition twice", 36..36, &[b'M', 0, 1, 0, 0]),
            ("self-loops after a transition", 36..36, &[b'S', 0, 1]),
            ("a transition after self-loops", 44..44, &[b'M', 1, 1, 0, 1]),
            ("self-loops twice", 44..44, &[b'S', 1, 1]),
            ("out of range before given twice", 14..14, &[b'G', 2, 1]),
        ],
    )
}

// Letters, operands and the end.
pub(crate) fn try_ends(rt: &HostRuntime, site: &[u8]) -> anyhow::Result<()> {
    try_changes(
        rt,
        site,
        &[
            ("an unknown letter", 11..12, &[b'g']),
            ("a letter of ranking files", 11..12, &[b'P']),
            ("the last command cut short", 57..60, &[]),
            ("no end", 59..60, &[]),
            ("an end too early", 14..14, &[b'E']),
            (
                "a label without cost, and a byte after the end",
                27..60,
                &[b'E', 0],
            ),
        ],
    )
}
