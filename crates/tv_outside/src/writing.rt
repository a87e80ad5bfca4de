//! Writes a whole text to a sink.
//! It does not split the text by itself: each write offers all that is not taken yet.

ghost use Rattle.tv_outside.specs.Writing.{Gives};

use crate::{Failed, Sink};

/// Writes all of `text`; where a write fails, the sink has a beginning of it, and no more is written.
pub fn write_all<K: Sink>(sink: &mut K, text: &[u8]) -> Result<(), Failed>
    ensures { Gives (K.seen sink.old) (K.seen sink.new) text.now result }
{
    let mut done = 0;
    'writes: while done < text.len() {
        let count = sink.write(&text[done..])?;
        done += count;
    }
    Ok(())
}
