//! What replies to lines.
ghost use Rattle.std.specs.Prelude.{◌≡◌, ◌<◌, List, ℕ, OnErr, OnOk, length};
ghost use Rattle.hp_streams.specs.Talks.{RepliesTo, line_limit};

use std::alloc::{AllocError, Global};

/// Replies to lines.
pub trait Talk {
    /// The line may get this reply, which turns the first talk into the second.
    ghost replies: { Self → (line : List ℕ) → (reply : List ℕ) → Self → Type 0 };

    /// What is replied if memory runs out.
    ghost lost_text: { List ℕ };

    /// Returns what is replied if memory runs out, with its newline.
    fn lost(&self) -> &'static str
        ensures { result.now ≡ lost_text };

    /// Appends the reply to a line, which need not be UTF-8. An error means that memory ran out:
    /// nothing was appended, and the reply is the text of `lost`.
    fn reply(&mut self, alloc: Global, line: &[u8], out: &mut Vec<u8>) -> Result<(), AllocError>
        ensures ok { OnOk result
            (RepliesTo replies self.old line.now out.old.items self.new out.new.items) }
        ensures err { OnErr result (replies self.old line.now lost_text self.new) }
        ensures kept { OnErr result (out.new.items ≡ out.old.items) };

    /// Appends the reply to a line that was not kept, since it has more than 65,536 bytes. After an
    /// error nothing was appended, and the reply is the text of `lost`.
    fn reply_to_long(&mut self, alloc: Global, out: &mut Vec<u8>) -> Result<(), AllocError>
        ensures ok { OnOk result ((line : List ℕ) → line_limit < length line
            → RepliesTo replies self.old line out.old.items self.new out.new.items) }
        ensures err { OnErr result ((line : List ℕ) → line_limit < length line
            → replies self.old line lost_text self.new) }
        ensures kept { OnErr result (out.new.items ≡ out.old.items) };
}
