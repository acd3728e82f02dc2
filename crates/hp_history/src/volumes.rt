//! Volumes of sealed records.
use crate::records::Records;
use hp_plain::Image;

/// What a seal hands out: the state that the records began with, the records, and how many came
/// before them.
#[derive(Drop)]
pub struct Volume {
    /// The number of all earlier records.
    pub before: u64,
    /// The state that the records began with.
    pub base: Image,
    /// The records, oldest first.
    pub records: Records,
}
