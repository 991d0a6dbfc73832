// A reply that is wanted: to the transition by a label to a fact of a factor, from another fact.
#[derive(Clone, Copy)]
pub(crate) struct Wanted {
    pub(crate) factor: u8,
    pub(crate) label: u8,
    pub(crate) to: u8,
    pub(crate) from: u8,
}
