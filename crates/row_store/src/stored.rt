use history::{End, Version};

/// A version, and its last end, as contracts see a `Slot`. The end does not count where its transaction
/// was aborted.
#[derive(Debug, Drop)]
pub struct Stored {
    pub version: Version,
    pub ended: Option<End>,
}
