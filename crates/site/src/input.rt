// The two files of one input: a site file, and then a ranking file, each behind its length.
ghost use Rattle.std.specs.Prelude.{◌≡◌};
ghost use Rattle.site.specs.Inputs.{front, site_part, ranking_part};

// The file at the front of an input, and what follows it. Two bytes of length come first, the high byte first. A length
// beyond the input means the rest, and an incomplete one 0.
fn split_front(input: &[u8]) -> (&[u8], &[u8])
    ensures file { result.0.now ≡ (front input.now).0 }
    ensures rest { result.1.now ≡ (front input.now).1 }
{
    let &[high, low, ref rest @ ..] = input else {
        return (&[], &[]);
    };
    let length = usize::from(u16::from_be_bytes([high, low])).min(rest.len());
    (&rest[..length], &rest[length..])
}

// The site file and the ranking file of an input.
pub fn split_input(input: &[u8]) -> (&[u8], &[u8])
    ensures site { result.0.now ≡ site_part input.now }
    ensures ranking { result.1.now ≡ ranking_part input.now }
{
    let (site, rest) = split_front(input);
    let (ranking, _) = split_front(rest);
    (site, ranking)
}
