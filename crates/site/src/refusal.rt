// Why an input is refused.

// The layer that found what is wrong.
#[derive(Clone, Copy, Debug, PartialEq, Eq)]
pub enum Layer {
    Reader,
    Site,
    Ranking,
}

// What is wrong in a file of commands.
#[derive(Clone, Copy, Debug, PartialEq, Eq)]
pub enum Fault {
    // The file is longer than any may be.
    TooLong,
    // No command of this kind of file has the letter.
    UnknownLetter,
    // Operands are missing, or the file has no end command.
    Truncated,
    // Bytes follow the end command.
    Trailing,
    // The command comes too early, or too late.
    Misplaced,
    // An operand of a command of a site file is out of range.
    OutOfRange,
    // An operand of a command of a ranking file is out of range.
    PairOutOfRange,
    // What the command gives was given before.
    Repeated,
    // The file ends, and a label has no cost.
    Unpriced,
}

#[derive(Clone, Copy, Debug, PartialEq, Eq)]
pub enum Refusal {
    // A file has a fault at this offset.
    File { fault: Fault, at: usize },
    // A chain leads from `a` to `b`, and `a` is not under `b`.
    Chain { factor: u8, a: u8, b: u8 },
    // `a` is a goal fact, and `b`, which it is under, is none.
    Goal { factor: u8, a: u8, b: u8 },
    // `b` has no reply to the transition by `label` of `a`, which is under it.
    Reply { factor: u8, a: u8, b: u8, label: u8 },
}

// Where an input is wrong: at an offset in a file, or at two facts of a factor and a label.
#[derive(Clone, Copy, Debug, PartialEq, Eq)]
pub enum Place {
    Offset(usize),
    Facts { factor: u8, a: u8, b: u8, label: u8 },
}

// A refusal as it is reported.
#[derive(Clone, Copy, Debug, PartialEq, Eq)]
pub struct Report {
    // A number, since refusals have official ones, and those are what is reported.
    pub number: u8,
    pub layer: Layer,
    pub place: Place,
}
