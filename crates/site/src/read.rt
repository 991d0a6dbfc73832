// A site file is read into a task.
ghost use Rattle.std.specs.Result.{MatchResult};
ghost use Rattle.site.specs.Files.{Rejected};
ghost use Rattle.site.specs.SiteFile.{site_file};
ghost use Rattle.site.specs.Saying.{SiteRead};

use crate::commands::read_file;
use crate::draft::Draft;
use crate::refusal::Refusal;
use task::task::Task;

// The task that a site file describes, or why the file is refused.
pub fn read_site(bytes: &[u8]) -> Result<Task, Refusal>
    ensures { MatchResult result (λ task. SiteRead bytes.now task) (λ refusal. Rejected site_file bytes.now refusal) }
{
    let draft: Draft = read_file(&(), bytes)?;
    Ok(draft.finish())
}
