// A trial as it is printed.
ghost use Rattle.std.specs.Prelude.{◌≡◌, true, false, Some, None};
ghost use Rattle.ranking.specs.Judging.{Judged};

use explain::explanation::{Explanation, Line};
use ranking::judge::{judge, judge_site};
use std::fmt;

// The name of a trial, and its judgement: as a line, and in plain words.
#[derive(Clone, Copy)]
pub struct Trial<'a> {
    pub name: &'a str,
    pub explanation: Explanation,
}

impl<'a> Trial<'a> {
    // A site file by itself.
    pub fn of_site(name: &'a str, site: &[u8]) -> Self
        ensures named { result.name.now ≡ name.now }
        ensures judged { Judged site.now None result.explanation.judgement }
        ensures alone { result.explanation.offered ≡ false }
    {
        let explanation = Explanation {
            judgement: judge_site(site),
            offered: false,
        };
        Trial { name, explanation }
    }

    // A site file and a ranking for it.
    pub fn of_ranking(name: &'a str, site: &[u8], ranking: &[u8]) -> Self
        ensures named { result.name.now ≡ name.now }
        ensures judged { Judged site.now (Some ranking.now) result.explanation.judgement }
        ensures offered { result.explanation.offered ≡ true }
    {
        let explanation = Explanation {
            judgement: judge(site, ranking),
            offered: true,
        };
        Trial { name, explanation }
    }
}

impl fmt::Display for Trial<'_> {
    fn fmt<W: fmt::Write>(&self, f: &mut fmt::Formatter<W>) -> fmt::Result {
        let name = self.name;
        let line = Line(self.explanation.judgement);
        let explanation = self.explanation;
        write!(f, "{name}: {line}\n{explanation}\n")
    }
}
