// Random site files: small tasks, some without a plan.
use samples::random::Random;
use std::alloc::{AllocError, Global};
use std::array;

// A label in a factor: self-loops, nothing, or some transitions.
fn push_moves(
    site: &mut Vec<u8>,
    random: &mut Random,
    factor: u8,
    label: u8,
    facts: u8,
) -> Result<(), AllocError> {
    if random.below(3) == 0 {
        return site.extend_from_slice(&[b'S', factor, label]);
    }
    for from in 0..facts {
        if random.below(4) != 0 {
            site.extend_from_slice(&[b'M', factor, label, from, random.below(facts)])?;
        }
    }
    Ok(())
}

// What a file says of one factor after the sizes: about half of its facts are goals.
fn push_factor(
    site: &mut Vec<u8>,
    random: &mut Random,
    factor: u8,
    facts: u8,
    labels: u8,
) -> Result<(), AllocError> {
    for fact in 0..facts {
        if random.below(2) == 0 {
            site.extend_from_slice(&[b'G', factor, fact])?;
        }
    }
    for label in 1..=labels {
        push_moves(site, random, factor, label, facts)?;
    }
    Ok(())
}

// A site of 1 to 3 factors of 1 to 5 facts, and 1 to 6 labels of cost 0 to 9.
pub(crate) fn random_site(heap: Global, random: &mut Random) -> Result<Vec<u8>, AllocError> {
    let factors = random.below(3) + 1;
    let labels = random.below(6) + 1;
    let mut site = vec![in heap; b'T', factors, labels]?;
    let sizes: [u8; 3] = array::from_fn(|_| random.below(5) + 1);
    for (factor, facts) in (0..factors).zip(sizes) {
        site.extend_from_slice(&[b'F', factor, facts, random.below(facts)])?;
    }
    for label in 1..=labels {
        site.extend_from_slice(&[b'C', label, 0, random.below(10)])?;
    }
    for (factor, facts) in (0..factors).zip(sizes) {
        push_factor(&mut site, random, factor, facts, labels)?;
    }
    site.push(b'E')?;
    Ok(site)
}
