// office SITE [RANKING]: says whether a site file describes a task, and whether a ranking may be relied on for it.
// Without arguments both files come from standard input, each behind two bytes of length.
#![tactic(auto)]

use anyhow::anyhow;
use explain::explanation::{Explanation, Line};
use ranking::judge::{judge, judge_site};
use site::input::split_input;
use site::limits::FILE_BYTES;
use std::io::Read;
use std::process::ExitCode;
use std::{env, fs};

const USAGE: &str = "usage: office SITE [RANKING], or office < INPUT";

// The bytes of a file. A file that cannot be read is named on standard error.
fn read_file(rt: &HostRuntime, name: &str) -> anyhow::Result<Vec<u8>> {
    fs::read(rt, name).or_else(|error| {
        eprintln!(rt; "office: cannot read {name}: {error}")?;
        Err(error.into())
    })
}

// Says what is judged of a site file, and of a ranking if one is offered, and what that means. Only an accepted input is a success.
fn say(rt: &HostRuntime, site: &[u8], ranking: Option<&[u8]>) -> anyhow::Result<()> {
    let judgement = ranking.map_or_else(|| judge_site(site), |ranking| judge(site, ranking));
    let line = Line(judgement);
    let explanation = Explanation {
        judgement,
        offered: ranking.is_some(),
    };
    println!(rt; "{line}\n{explanation}")?;
    judgement.map_err(|_| anyhow!("refused"))
}

fn judge_files(rt: &HostRuntime, site: &str, ranking: Option<String>) -> anyhow::Result<()> {
    let site = read_file(rt, site)?;
    let ranking = ranking
        .map(|name| read_file(rt, name.as_str()))
        .transpose()?;
    say(rt, &site, ranking.as_deref())
}

fn judge_input(rt: &HostRuntime) -> anyhow::Result<()> {
    let mut input = Vec::new(rt.alloc());
    rt.stdin().take(FILE_BYTES as u64).read_to_end(&mut input)?;
    let (site, ranking) = split_input(&input);
    say(rt, site, (!ranking.is_empty()).then_some(ranking))
}

fn run(rt: &HostRuntime) -> anyhow::Result<()> {
    let mut args = env::args(rt)?;
    let _ = args.next();
    let Some(site) = args.next() else {
        return judge_input(rt);
    };
    let ranking = args.next();
    if args.next().is_some() {
        eprintln!(rt; "office: {USAGE}")?;
        return Err(anyhow!("{USAGE}"));
    }
    judge_files(rt, site.as_str(), ranking)
}

// What is wrong was said where it was found, so an error is not printed again.
fn main(rt: HostRuntime) -> ExitCode {
    if run(&rt).is_ok() {
        ExitCode::SUCCESS
    } else {
        ExitCode::FAILURE
    }
}
