// What the facts of the factors cost.
ghost use Rattle.std.specs.Prelude.{◌≡◌, ℕ, ◌<◌, ◌≤◌, ◌≢◌, length, None, Some};
ghost use Rattle.std.specs.List.{fold, zip};
ghost use Rattle.task.specs.Limits.{factor_limit, fact_limit};
ghost use Rattle.estimators.specs.Columns.{cell, LowColumns, LowTable};
ghost use Rattle.estimators.specs.Longest.{enlarged};
ghost use Rattle.estimators.specs.Measuring.{reading};

use crate::greater::greater_of;
use crate::limits::NODES;
use crate::table::look_up;
use task::limits::{FACTORS, FACTS};

// For each factor, the cost of each of its facts, `None` for a hopeless one.
#[derive(Clone, Copy)]
pub(crate) struct FactCosts {
    pub(crate) columns: [[Option<u32>; FACTS]; FACTORS],
    ghost full: { length columns ≡ factor_limit },
    ghost low: { LowColumns columns },
}

impl FactCosts {
    // Every fact is hopeless.
    pub(crate) fn hopeless() -> Self
        ensures { (j x : ℕ) → cell result.columns j x ≡ None }
    {
        FactCosts {
            columns: [[None; FACTS]; FACTORS],
        }
    }

    // Gives the facts of a factor the first costs of a table.
    pub(crate) fn put(&mut self, factor: u8, table: &[Option<u32>; NODES])
        requires factor { factor < factor_limit }
        requires low { LowTable table.now }
        ensures given { (x : ℕ) → x < fact_limit → cell self.new.columns factor x ≡ reading table.now x }
        ensures others { (j x : ℕ) → (j ≢ factor) → cell self.new.columns j x ≡ cell self.old.columns j x }
    {
        let mut column = [None; FACTS];
        column.copy_from_slice(&table[..FACTS]);
        self.columns[factor as usize] = column;
    }

    // The greatest cost of the facts of a state, by factor; hopeless where one is.
    pub(crate) fn greatest(&self, facts: &[u8]) -> Option<u32>
        requires { length facts.now ≤ factor_limit }
        ensures { result ≡ fold enlarged (Some 0) (zip self.now.columns facts.now) }
    {
        self.columns
            .iter()
            .zip(facts)
            .fold(Some(0), |greatest, (column, fact)| {
                greater_of(greatest, look_up(column, *fact as usize))
            })
    }
}
