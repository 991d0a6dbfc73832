// How far a run has come.
#[derive(Clone, Copy, Debug, Default, PartialEq, Eq)]
pub struct Counts {
    pub entries: usize,
    // How many entries were taken, and how many labels made a step from these.
    pub taken: u32,
    pub tried: u32,
}
