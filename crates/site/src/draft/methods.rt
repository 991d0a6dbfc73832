// How a draft takes the commands of a site file.
ghost use Rattle.std.specs.Prelude.{◌≡◌, ℕ, ◌<◌, ◌≤◌, true, false, is_some, Decides, slice_index};
ghost use Rattle.std.specs.Option.{unwrap_or};
ghost use Rattle.task.specs.Meaning.{meaning};
ghost use Rattle.site.specs.SiteFile.{some, misplaced, outside, repeated, has_label, has_fact, early, task, describes, site_file, spelled, Priced};
ghost use Rattle.site.specs.Drafts.{described};

use super::Draft;
use crate::command::Command;
use crate::commands::FromCommands;
use crate::refusal::Fault;
use crate::tables::Tables;
use task::limits::{FACTORS, FACTS, LABEL_SLOTS, LABELS};
use task::task::Task;

impl Draft {
    // Whether a command comes too early or too late.
    fn misplaced(&self, command: Command) -> bool
        ensures { result ≡ misplaced (described self.now.tables) command }
    {
        match command {
            Command::Sizes { .. } => self.tables.factors != 0,
            Command::Facts { factor, .. } => factor != self.tables.declared
                || factor >= self.tables.factors,
            _ => self.tables.factors == 0 || self.tables.declared < self.tables.factors,
        }
    }

    fn has_label(&self, label: u8) -> bool
        ensures { result ≡ has_label (described self.now.tables) label }
    {
        1 <= label && label <= self.tables.labels
    }

    fn has_fact(&self, factor: u8, fact: u8) -> bool
        ensures { result ≡ has_fact (described self.now.tables) factor fact }
    {
        factor < self.tables.factors && fact < self.tables.parts[factor as usize].facts
    }

    // Whether an operand of a command is out of range.
    fn outside(&self, command: Command) -> bool
        ensures { result ≡ outside (described self.now.tables) command }
    {
        match command {
            Command::Sizes { factors, labels } => factors < 1
                || usize::from(factors) > FACTORS
                || labels < 1
                || usize::from(labels) > LABELS,
            Command::Facts { facts, start, .. } => usize::from(facts) > FACTS || start >= facts,
            Command::Goal { factor, fact } => !self.has_fact(factor, fact),
            Command::Cost { label, .. } => !self.has_label(label),
            Command::Move {
                factor,
                label,
                from,
                to,
            } => {
                !(self.has_label(label) && self.has_fact(factor, from) && self.has_fact(factor, to))
            }
            Command::Loop { factor, label } => !self.has_label(label)
                || factor >= self.tables.factors,
            Command::End => false,
        }
    }

    // Whether a label leads anywhere from a fact.
    fn moves(&self, factor: u8, label: u8, fact: u8) -> bool
        requires label { label ≤ self.now.tables.labels }
        requires fact { has_fact (described self.now.tables) factor fact ≡ true }
        ensures { result ≡ is_some ((described self.now.tables).moves factor label fact) }
    {
        self.tables.parts[factor as usize].rows[fact as usize].next[label as usize].is_some()
    }

    // Whether a label leads anywhere from some fact of a factor.
    fn moves_some(&self, factor: u8, label: u8) -> bool
        requires label { label ≤ self.now.tables.labels }
        requires factor { factor < self.now.tables.factors }
        ensures { result ≡ some (λ x. is_some ((described self.now.tables).moves factor label x)) ((described self.now.tables).facts factor) }
    {
        let part = &self.tables.parts[factor as usize];
        for row in &part.rows[..part.facts as usize] {
            if row.next[label as usize].is_some() {
                return true;
            }
        }
        false
    }

    // Whether a command gives what was given before.
    fn repeated(&self, command: Command) -> bool
        requires { outside (described self.now.tables) command ≡ false }
        ensures { result ≡ repeated (described self.now.tables) command }
    {
        match command {
            Command::Goal { factor, fact } => self
                .tables
                .parts[factor as usize].rows[fact as usize].goal,
            Command::Cost { label, .. } => self.tables.costs[label as usize].is_some(),
            Command::Move {
                factor,
                label,
                from,
                ..
            } => self.moves(factor, label, from),
            Command::Loop { factor, label } => self.moves_some(factor, label),
            _ => false,
        }
    }

    // Whether each label has a cost.
    pub(crate) fn priced(&self) -> bool
        ensures { Decides result (Priced (described self.now.tables)) }
    {
        let costs = &self.tables.costs[..self.tables.labels as usize + 1];
        // Stay, label 0, needs none.
        for (label, cost) in costs.iter().enumerate() {
            if label != 0 && cost.is_none() {
                return false;
            }
        }
        true
    }

    // The cost of each label, and 0 where there is none.
    fn prices(&self) -> [u16; LABEL_SLOTS]
        ensures { (l : ℕ) → slice_index result l ≡ unwrap_or ((described self.now.tables).cost l) 0 }
    {
        self.tables.costs.map(|cost| cost.unwrap_or(0))
    }

    // The task, once its file has ended.
    pub(crate) fn finish(&self) -> Task
        requires { early (described self.now.tables) ≡ false }
        ensures { meaning result ≡ task (described self.now.tables) }
    {
        Task {
            factors: self.tables.factors,
            labels: self.tables.labels,
            costs: self.prices(),
            parts: self.tables.parts,
        }
    }
}

impl FromCommands<()> for Draft {
    type Command = Command;

    ghost format = { λ _. site_file };

    ghost spelled = { λ _. spelled };

    ghost holds = { λ draft cs. described draft.tables ≡ describes cs };

    fn new() -> Draft {
        Draft {
            tables: Tables::new(),
        }
    }

    fn next(bytes: &[u8]) -> Result<(Command, &[u8]), Fault> {
        Command::next(bytes)
    }

    fn take(&mut self, _of: &(), command: Command) -> Result<(), Fault> {
        if self.misplaced(command) {
            return Err(Fault::Misplaced);
        }
        if self.outside(command) {
            return Err(Fault::OutOfRange);
        }
        if self.repeated(command) {
            return Err(Fault::Repeated);
        }
        self.tables.add(command);
        Ok(())
    }

    fn is_end(command: Command) -> bool {
        matches!(command, Command::End)
    }

    fn is_whole(&self, _of: &()) -> bool {
        self.priced()
    }
}
