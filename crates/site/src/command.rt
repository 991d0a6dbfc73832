// The commands of a site file.
ghost use Rattle.std.specs.Prelude.{◌≡◌, ◌++◌, Some, MatchResult};
ghost use Rattle.site.specs.Files.{unreadable, Took};
ghost use Rattle.site.specs.SiteFile.{bytes_of, operands};

use crate::refusal::Fault;

#[derive(Clone, Copy, Debug, PartialEq, Eq)]
pub enum Command {
    Sizes {
        factors: u8,
        labels: u8,
    },
    Facts {
        factor: u8,
        facts: u8,
        start: u8,
    },
    Goal {
        factor: u8,
        fact: u8,
    },
    Cost {
        label: u8,
        cost: u16,
    },
    Move {
        factor: u8,
        label: u8,
        from: u8,
        to: u8,
    },
    Loop {
        factor: u8,
        label: u8,
    },
    End,
}

impl Command {
    // The first command of the bytes, and what follows it.
    pub(crate) fn next(bytes: &[u8]) -> Result<(Command, &[u8]), Fault>
        ensures { MatchResult result (λ p. bytes.now ≡ bytes_of p.0 ++ p.1.now) (λ fault. unreadable operands bytes.now ≡ Some fault) }
    {
        let [letter, rest @ ..] = bytes else {
            return Err(Fault::Truncated);
        };
        match *letter as char {
            'T' => Command::sizes(rest),
            'F' => Command::facts(rest),
            'G' => Command::goal(rest),
            'C' => Command::cost(rest),
            'M' => Command::transition(rest),
            'S' => Command::self_loop(rest),
            'E' => Ok((Command::End, rest)),
            _ => Err(Fault::UnknownLetter),
        }
    }

    // A function for each letter: in one match each letter would have its own answer to missing operands.

    // What follows the letter T.
    fn sizes(bytes: &[u8]) -> Result<(Command, &[u8]), Fault>
        ensures { Took bytes_of 84 2 bytes.now result }
    {
        let &[factors, labels, ref rest @ ..] = bytes else {
            return Err(Fault::Truncated);
        };
        Ok((Command::Sizes { factors, labels }, rest))
    }

    // What follows the letter F.
    fn facts(bytes: &[u8]) -> Result<(Command, &[u8]), Fault>
        ensures { Took bytes_of 70 3 bytes.now result }
    {
        let &[factor, facts, start, ref rest @ ..] = bytes else {
            return Err(Fault::Truncated);
        };
        Ok((
            Command::Facts {
                factor,
                facts,
                start,
            },
            rest,
        ))
    }

    // What follows the letter G.
    fn goal(bytes: &[u8]) -> Result<(Command, &[u8]), Fault>
        ensures { Took bytes_of 71 2 bytes.now result }
    {
        let &[factor, fact, ref rest @ ..] = bytes else {
            return Err(Fault::Truncated);
        };
        Ok((Command::Goal { factor, fact }, rest))
    }

    // What follows the letter C.
    fn cost(bytes: &[u8]) -> Result<(Command, &[u8]), Fault>
        ensures { Took bytes_of 67 3 bytes.now result }
    {
        let &[label, high, low, ref rest @ ..] = bytes else {
            return Err(Fault::Truncated);
        };
        let cost = u16::from_be_bytes([high, low]);
        Ok((Command::Cost { label, cost }, rest))
    }

    // What follows the letter M.
    fn transition(bytes: &[u8]) -> Result<(Command, &[u8]), Fault>
        ensures { Took bytes_of 77 4 bytes.now result }
    {
        let &[factor, label, from, to, ref rest @ ..] = bytes else {
            return Err(Fault::Truncated);
        };
        Ok((
            Command::Move {
                factor,
                label,
                from,
                to,
            },
            rest,
        ))
    }

    // What follows the letter S.
    fn self_loop(bytes: &[u8]) -> Result<(Command, &[u8]), Fault>
        ensures { Took bytes_of 83 2 bytes.now result }
    {
        let &[factor, label, ref rest @ ..] = bytes else {
            return Err(Fault::Truncated);
        };
        Ok((Command::Loop { factor, label }, rest))
    }
}
