//! Tells a text to a sink. Which text is deserved is decided elsewhere.

ghost use Rattle.tv_answers.specs.Texts.{memory_text};
ghost use Rattle.tv_top.specs.Answers.{Told};

use tv_answers::status::Status;
use tv_outside::{Sink, write_all};

const MEMORY_TEXT: &[u8] = b"refused memory\n";

/// Writes the whole text; the status is that of the text, or that of a failed write.
pub(crate) fn tell<K: Sink>(sink: &mut K, text: &[u8], status: Status) -> Status
    ensures { Told (record { before = K.seen sink.old; after = K.seen sink.new })
        text.now status result }
{
    match write_all(sink, text) {
        Ok(()) => status,
        Err(_) => Status::WriteFault,
    }
}

/// Writes the line of want of memory, which itself takes none.
#[tactic(auto, unfolding(tv_spec_text::specs::Lines::line_text))]
pub(crate) fn tell_memory<K: Sink>(sink: &mut K) -> Status
    ensures { Told (record { before = K.seen sink.old; after = K.seen sink.new })
        memory_text Status.Memory result }
{
    tell(sink, MEMORY_TEXT, Status::Memory)
}
