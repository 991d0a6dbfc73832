// Which facts of a factor stand under which: where a stands under b, b is at least as good as a.
ghost use Rattle.ranking.specs.Tables.{Reflexive};

use task::limits::{FACTORS, FACTS};

// Of one fact: by fact, whether it stands under that. Each level of the table is a type, for the calls that it has.
#[derive(Clone, Copy)]
pub struct Above {
    pub facts: [bool; FACTS],
}

// Of one factor, by fact.
#[derive(Clone, Copy)]
pub struct Order {
    pub rows: [Above; FACTS],
}

// By factor. Each fact stands under itself.
#[derive(Clone, Copy)]
pub struct Ranking {
    pub parts: [Order; FACTORS],
    ghost own: { Reflexive parts },
}
