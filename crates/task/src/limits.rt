// The sizes of the box's tables. A task that needs more is refused.
pub const FACTORS: usize = 12;

pub const FACTS: usize = 16;
// Besides stay.
pub const LABELS: usize = 63;
// By label, stay included.
pub const LABEL_SLOTS: usize = LABELS + 1;
