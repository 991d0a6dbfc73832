// What is wrong, and what to look at. Each refusal has words of its own; what they say is read, not proved.
use site::refusal::{Fault, Refusal};

// What is wrong at the place of a refusal.
pub(crate) fn complaint(refusal: Refusal) -> &'static str {
    match refusal {
        Refusal::File { fault, .. } => file_complaint(fault),
        Refusal::Chain { .. } =>
            "the chain rule is broken. The first fact stands under a fact that stands under the second, but not under the second itself.",
        Refusal::Goal { .. } =>
            "the goal rule is broken. The first fact is a goal fact, and the second, which should be at least as good, is none.",
        Refusal::Reply { .. } =>
            "the reply rule is broken. The first fact has a transition by this label, and the second has no reply to it.",
    }
}

fn file_complaint(fault: Fault) -> &'static str {
    match fault {
        Fault::TooLong => "the file is longer than 65535 bytes.",
        Fault::UnknownLetter => "no command of this kind of file has the letter that stands here.",
        Fault::Truncated =>
            "operands are missing here, or the file ends without its end command E.",
        Fault::Trailing => "bytes follow the end command E.",
        Fault::Misplaced => "this command stands out of turn.",
        Fault::OutOfRange => "an operand of this command is out of range.",
        Fault::PairOutOfRange => "this pair names a factor or a fact that the task lacks.",
        Fault::Repeated => "what this command gives was given before.",
        Fault::Unpriced => "the file ends here, and a label has no cost.",
    }
}

// What to look at.
pub(crate) fn advice(refusal: Refusal) -> &'static str {
    match refusal {
        Refusal::File { fault, .. } => file_advice(fault),
        Refusal::Chain { .. } => "Add this pair to the ranking, or take out a pair of the chain.",
        Refusal::Goal { .. } =>
            "Take this pair out of the ranking, or make the second fact a goal fact of the site.",
        Refusal::Reply { .. } =>
            "A reply is a label, or stay, that costs no more, leads to a fact at least as good, and serves for this label in every other factor: look at the costs, and at the transitions in the other factors.",
    }
}

fn file_advice(fault: Fault) -> &'static str {
    match fault {
        Fault::TooLong => "No task needs so many commands: look for commands that repeat.",
        Fault::UnknownLetter =>
            "Look at the letter, and at the number of operands of the command before it.",
        Fault::Truncated =>
            "Look at the operands of the last command, and for E (45) at the very end.",
        Fault::Trailing =>
            "Take out what follows E (45), or look for an operand too few before it.",
        Fault::Misplaced =>
            "T comes first, then one F for each factor in rising order, then all others.",
        Fault::OutOfRange => "Factors and facts count from 0, labels from 1: compare with T and F.",
        Fault::PairOutOfRange =>
            "Factors and facts count from 0: compare with T and F of the site file.",
        Fault::Repeated =>
            "Each goal fact, cost and transition is given once, and S gives one at every fact.",
        Fault::Unpriced => "Give each label from 1 up one command C.",
    }
}
