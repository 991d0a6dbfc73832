// What a planner is asked to do.
#[derive(Clone, Copy, Debug, PartialEq, Eq)]
pub enum Call<'a> {
    // A site file.
    Load(&'a [u8]),
    // A ranking file.
    Offer(&'a [u8]),
    Withdraw,
    Start,
    // Takes in a row.
    Work(u16),
    Stop,
}
