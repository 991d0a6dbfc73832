// The commands of a ranking file.
ghost use Rattle.std.specs.Prelude.{◌≡◌, ◌++◌, Some, MatchResult};
ghost use Rattle.site.specs.Files.{unreadable};
ghost use Rattle.ranking.specs.RankingFile.{bytes_of, operands};

use site::refusal::Fault;

#[derive(Clone, Copy, Debug, PartialEq, Eq)]
pub enum Listing {
    // `lower` stands under `upper`.
    Pair { factor: u8, lower: u8, upper: u8 },
    End,
}

impl Listing {
    // The first command of the bytes, and what follows it.
    pub(crate) fn next(bytes: &[u8]) -> Result<(Listing, &[u8]), Fault>
        ensures { MatchResult result (λ p. bytes.now ≡ bytes_of p.0 ++ p.1.now) (λ fault. unreadable operands bytes.now ≡ Some fault) }
    {
        let [letter, rest @ ..] = bytes else {
            return Err(Fault::Truncated);
        };
        match *letter as char {
            'P' => match rest {
                [factor, lower, upper, rest @ ..] => Ok((
                    Listing::Pair {
                        factor: *factor,
                        lower: *lower,
                        upper: *upper,
                    },
                    rest,
                )),
                _ => Err(Fault::Truncated),
            },
            'E' => Ok((Listing::End, rest)),
            _ => Err(Fault::UnknownLetter),
        }
    }
}
