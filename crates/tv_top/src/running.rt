//! The top call: words and a source in, one text out to a sink, and a status.

ghost use Rattle.std.specs.Prelude.{map, string_bytes};
ghost use Rattle.tv_top.specs.Answers.{Answers};
ghost use Rattle.tv_top.specs.Completeness.{Completes};

use crate::pieces::tell_listing;
use crate::reply::reply;
use crate::telling::{tell, tell_memory};
use std::alloc::Global;
use tv_answers::answer::{Failure, Outcome};
use tv_answers::status::Status;
use tv_outside::{Sink, Source};

const READ_TEXT: &[u8] = b"refused read\n";

/// Carries out the command that the words give, over the source's bytes or a grid, and writes its report or one refusal.
///
/// The words are read first; then, where the command is about a file or a report, the source to its end; then the whole text is
/// made; last it is written. Want of memory may come at any time before that. A report of box configurations is made and
/// written piece by piece: its head, each configuration, its end. Want of memory may come before each piece, and its line then
/// follows the pieces that were written.
pub fn run<S: Source, K: Sink>(
    alloc: Global,
    words: &[String],
    source: &mut S,
    sink: &mut K,
) -> Status
    ensures answers { Answers (map string_bytes words.now)
        (record { before = S.seen source.old; after = S.seen source.new })
        (record { before = K.seen sink.old; after = K.seen sink.new }) result }
    ensures complete { Completes (map string_bytes words.now)
        (record { before = S.seen source.old; after = S.seen source.new })
        (record { before = K.seen sink.old; after = K.seen sink.new }) result }
{
    carry_out(alloc, words, source, sink)
}

#[tactic(auto, unfolding(tv_spec_text::specs::Lines::line_text))]
fn carry_out<S: Source, K: Sink>(
    alloc: Global,
    words: &[String],
    source: &mut S,
    sink: &mut K,
) -> Status
    ensures { Answers (map string_bytes words.now)
        (record { before = S.seen source.old; after = S.seen source.new })
        (record { before = K.seen sink.old; after = K.seen sink.new }) result }
{
    match reply(alloc, words, source) {
        Ok(Outcome::Text(answer)) => tell(sink, &answer.text, answer.status),
        Ok(Outcome::Pieces(listing)) => tell_listing(alloc, sink, listing),
        Err(Failure::Memory) => tell_memory(sink),
        Err(Failure::Read) => tell(sink, READ_TEXT, Status::ReadFault),
    }
}
