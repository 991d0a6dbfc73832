// The tables that the commands of a site file fill.
ghost use Rattle.std.specs.Prelude.{◌≡◌, ℕ, ◌<◌, ◌≤◌, true, false, Some};
ghost use Rattle.task.specs.Limits.{factor_limit, fact_limit, label_limit};
ghost use Rattle.task.specs.Tables.{goals, entry, targets};
ghost use Rattle.site.specs.Changes.{put};
ghost use Rattle.site.specs.SiteFile.{nothing, adds, leads, misplaced, outside};
ghost use Rattle.site.specs.Drafts.{described, Limited};

use crate::command::Command;
use task::factor::Factor;
use task::limits::{FACTORS, LABEL_SLOTS};
use task::row::Row;

#[derive(Clone, Copy)]
pub(crate) struct Tables {
    // Fixed tables with their counts beside them, since the box has no heap. There are no factors before the command that says how many.
    pub(crate) factors: u8,
    pub(crate) labels: u8,
    // How many factors have their facts.
    pub(crate) declared: u8,
    // What each label costs, once that is given.
    pub(crate) costs: [Option<u16>; LABEL_SLOTS],
    pub(crate) parts: [Factor; FACTORS],
}

// Here labels and facts are numbers that were found to be in range; a type for such a number would be taken apart where it is made.

// Has a label lead from a row's fact to a fact.
fn lead(row: &mut Row, label: u8, to: u8)
    requires { label ≤ label_limit }
    ensures goal { row.new.goal ≡ row.old.goal }
    ensures next { targets row.new ≡ put label (Some to) (targets row.old) }
{
    row.next[label as usize] = Some(to);
}

// Makes a fact a goal fact.
fn mark(part: &mut Factor, fact: u8)
    requires { fact < fact_limit }
    ensures facts { part.new.facts ≡ part.old.facts }
    ensures start { part.new.start ≡ part.old.start }
    ensures goals { goals part.new ≡ put fact true (goals part.old) }
    ensures moves { entry part.new ≡ entry part.old }
{
    part.rows[fact as usize].goal = true;
}

// Has a label lead from a fact of this factor to a fact.
fn connect(part: &mut Factor, label: u8, from: u8, to: u8)
    requires label { label ≤ label_limit }
    requires from { from < fact_limit }
    ensures facts { part.new.facts ≡ part.old.facts }
    ensures start { part.new.start ≡ part.old.start }
    ensures goals { goals part.new ≡ goals part.old }
    ensures moves { entry part.new ≡ put label (put from (Some to) (entry part.old label)) (entry part.old) }
{
    lead(&mut part.rows[from as usize], label, to);
}

impl Tables {
    // Tables before the first command.
    pub(crate) fn new() -> Tables
        ensures { described result ≡ nothing }
    {
        Tables {
            factors: 0,
            labels: 0,
            declared: 0,
            costs: [None; LABEL_SLOTS],
            parts: [Factor::new(0, 0); FACTORS],
        }
    }

    // The same in one of the factors.
    fn connect(&mut self, factor: u8, label: u8, from: u8, to: u8)
        requires factor { factor < factor_limit }
        requires label { label ≤ label_limit }
        requires from { from < fact_limit }
        ensures { described self.new ≡ leads factor label (put from (Some to) ((described self.old).moves factor label)) (described self.old) }
    {
        connect(&mut self.parts[factor as usize], label, from, to);
    }

    // Has a label keep each fact of a factor.
    fn keep(&mut self, factor: u8, label: u8)
        requires limited { Limited (described self.old) }
        requires factor { factor < self.old.factors }
        requires label { label ≤ self.old.labels }
        ensures { described self.new ≡ adds (Command.Loop factor label) (described self.old) }
    {
        // By number, since the number is what is written.
        for fact in 0..self.parts[factor as usize].facts {
            self.connect(factor, label, fact, fact);
        }
    }

    // Adds what a command gives.
    pub(crate) fn add(&mut self, command: Command)
        requires limited { Limited (described self.old) }
        requires placed { misplaced (described self.old) command ≡ false }
        requires inside { outside (described self.old) command ≡ false }
        ensures { described self.new ≡ adds command (described self.old) }
    {
        match command {
            Command::Sizes { factors, labels } => {
                self.factors = factors;
                self.labels = labels;
            }
            Command::Facts {
                factor,
                facts,
                start,
            } => {
                self.declared += 1;
                self.parts[factor as usize].facts = facts;
                self.parts[factor as usize].start = start;
            }
            Command::Goal { factor, fact } => mark(&mut self.parts[factor as usize], fact),
            Command::Cost { label, cost } => self.costs[label as usize] = Some(cost),
            Command::Move {
                factor,
                label,
                from,
                to,
            } => self.connect(factor, label, from, to),
            Command::Loop { factor, label } => self.keep(factor, label),
            Command::End => {}
        }
    }
}
