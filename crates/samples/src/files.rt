// The sample files, and files that differ from them in one place.
ghost use Rattle.std.specs.Prelude.{◌≡◌, ◌++◌, IfOk, take, drop};
ghost use Rattle.samples.specs.Samples as sample;

use std::alloc::{AllocError, Global};
use std::ops::Range;

// Each command stands on a line of its own.
const SITE: &[u8; 60] = b"T\x02\x02\
    F\x00\x02\x00\
    F\x01\x03\x02\
    G\x00\x01\
    G\x01\x00\
    G\x01\x01\
    G\x01\x02\
    C\x01\x00\x1E\
    C\x02\x00\x1E\
    M\x00\x01\x00\x01\
    M\x00\x01\x01\x00\
    S\x01\x01\
    M\x00\x02\x00\x01\
    M\x01\x02\x02\x01\
    M\x01\x02\x01\x00\
    E";

const RANKING: &[u8; 17] = b"P\x00\x00\x01\
    P\x01\x00\x01\
    P\x01\x01\x02\
    P\x01\x00\x02\
    E";

// The sample site: two factors of 2 and 3 facts, and two labels of cost 30.
pub fn sample_site() -> &'static [u8]
    ensures { result.now ≡ sample.site }
{
    SITE
}

// The sample ranking, for the sample site.
pub fn sample_ranking() -> &'static [u8]
    ensures { result.now ≡ sample.ranking }
{
    RANKING
}

// The bytes with others in place of those at some places.
pub fn changed(
    alloc: Global,
    bytes: &[u8],
    places: Range<usize>,
    new: &[u8],
) -> Result<Vec<u8>, AllocError>
    ensures { IfOk result (λ file. file.items ≡ take places.start bytes.now ++ new.now ++ drop places.end bytes.now) }
{
    let mut file = Vec::new(alloc);
    file.extend_from_slice(&bytes[..places.start.min(bytes.len())])?;
    file.extend_from_slice(new)?;
    file.extend_from_slice(&bytes[places.end.min(bytes.len())..])?;
    Ok(file)
}

#[cfg(test)]
mod tests {
    use super::*;
    use std::test::Fail;

    #[test]
    fn changes(rt: HostRuntime) -> Result<(), Fail> {
        for (places, file) in [
            (0..0, "xyabc"),
            (1..2, "axyc"),
            (3..9, "abcxy"),
            (5..9, "abcxy"),
        ] {
            let made = changed(rt.alloc(), b"abc", places, b"xy")?;
            assert_eq!(rt; made.as_slice(), file.as_bytes());
        }
        Ok(())
    }
}
