// The largest files that are read, and those that are one larger.
use crate::show::{show_ranking, show_site};
use std::alloc::{AllocError, Global};

// A site of one factor with one fact, and labels that cost nothing.
fn labelled(heap: Global, labels: u8) -> Result<Vec<u8>, AllocError> {
    let mut site = vec![in heap; b'T', 1, labels, b'F', 0, 1, 0]?;
    for label in 1..=labels {
        site.extend_from_slice(&[b'C', label, 0, 0])?;
    }
    site.push(b'E')?;
    Ok(site)
}

// A site of many factors, each with 16 facts, and one label that keeps them all.
fn wide(heap: Global, factors: u8) -> Result<Vec<u8>, AllocError> {
    let mut site = vec![in heap; b'T', factors, 1]?;
    for factor in 0..factors {
        site.extend_from_slice(&[b'F', factor, 16, 15])?;
    }
    for factor in 0..factors {
        site.extend_from_slice(&[b'S', factor, 1, b'G', factor, 0])?;
    }
    site.extend_from_slice(&[b'C', 1, 0xFF, 0xFF, b'E'])?;
    Ok(site)
}

// A ranking file that lists one pair over and over.
fn long(heap: Global, pairs: usize) -> Result<Vec<u8>, AllocError> {
    let mut ranking = [b'P', 1, 2, 2].repeat(heap, pairs)?;
    ranking.push(b'E')?;
    Ok(ranking)
}

pub(crate) fn try_labels(rt: &HostRuntime) -> anyhow::Result<()> {
    let heap = rt.alloc();
    show_site(rt, "63 labels", &labelled(heap, 63)?)?;
    show_site(rt, "64 labels", &labelled(heap, 64)?)?;
    show_site(rt, "12 factors of 16 facts", &wide(heap, 12)?)?;
    show_site(rt, "13 factors of 16 facts", &wide(heap, 13)?)
}

pub(crate) fn try_lengths(rt: &HostRuntime, site: &[u8]) -> anyhow::Result<()> {
    let heap = rt.alloc();
    show_ranking(rt, "a ranking of 65533 bytes", site, &long(heap, 16383)?)?;
    show_ranking(rt, "a ranking of 65537 bytes", site, &long(heap, 16384)?)?;
    show_site(rt, "a site of 65537 bytes", &long(heap, 16384)?)
}
