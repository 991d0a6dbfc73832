// The judgement of a site file and of a ranking.
ghost use Rattle.std.specs.Prelude.{Some, None};
ghost use Rattle.task.specs.Meaning.{meaning};
ghost use Rattle.ranking.specs.Judging.{Judged, Only, RankingJudged, Reliable};

use crate::order::Ranking;
use site::read::read_site;
use site::refusal::Refusal;
use task::task::Task;

// Which of two files is refused, and why.
#[derive(Clone, Copy, Debug, PartialEq, Eq)]
pub enum Rejection {
    Site(Refusal),
    Ranking(Refusal),
}

// The site file describes a task, and the ranking, if one was offered, may be relied on for it; or one of them is refused.
pub type Judgement = Result<(), Rejection>;

// A planner does as much and keeps the ranking; each of the two promises something else of two lines.
fn judge_ranking(task: &Task, bytes: &[u8]) -> Result<(), Refusal>
    ensures { RankingJudged (meaning task.now) bytes.now result }
{
    let ranking = Ranking::read(task, bytes)?;
    ranking.check(task)
}

// What is to be said of a site file by itself. Not `judge` without a ranking, of which nothing could be relied on.
pub fn judge_site(site: &[u8]) -> Judgement
    ensures verdict { Judged site.now None result }
    ensures only { Only site.now None result }
{
    read_site(site).map_err(Rejection::Site)?;
    Ok(())
}

// What is to be said of a site file and of a ranking for it.
pub fn judge(site: &[u8], ranking: &[u8]) -> Judgement
    ensures verdict { Judged site.now (Some ranking.now) result }
    ensures only { Only site.now (Some ranking.now) result }
    ensures reliable { Reliable site.now ranking.now result }
{
    let task = read_site(site).map_err(Rejection::Site)?;
    judge_ranking(&task, ranking).map_err(Rejection::Ranking)
}
