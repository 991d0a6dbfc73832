// What is explained.
use ranking::judge::Judgement;
use site::refusal::Refusal;

// What a judgement means, and what to look at.
#[derive(Clone, Copy, Debug, PartialEq, Eq)]
pub struct Explanation {
    pub judgement: Judgement,
    // Whether a ranking was offered with the site file: what is said of an accepted input differs by it.
    pub offered: bool,
}

// The line that a program prints of a judgement.
#[derive(Clone, Copy, Debug, PartialEq, Eq)]
pub struct Line(pub Judgement);

// The place of a refusal.
#[derive(Clone, Copy, Debug, PartialEq, Eq)]
pub struct Location(pub Refusal);
