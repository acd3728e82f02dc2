//! The law that what `auto_online_blocks` shows can be written back.
ghost use Rattle.hp_text.specs.Laws.{AutoIsWrittenBack};

/// Writing the text of `auto_online_blocks` back to the file asks for the policy that it already
/// shows.
pub fn auto_is_written_back()
    ensures { AutoIsWrittenBack }
{}
