//! The result of a command.

/// The text that a command writes, and the exit status.
#[derive(Drop)]
pub struct TextAndStatus {
    /// The text.
    pub text: String,
    /// The exit status.
    pub status: u8,
}
