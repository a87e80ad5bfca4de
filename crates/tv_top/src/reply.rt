//! What a run is to tell: a report, or one refusal. Nothing is written here, and each command's report is made elsewhere.

ghost use Rattle.std.specs.Prelude.{◌≡◌, ℕ, List, map, string_bytes};
ghost use Rattle.tv_words.specs.Commands.{Subject, OfFile, Asks, IsAsked, IsOrder, subject_of};
ghost use Rattle.tv_top.specs.Answers.{Reads};
ghost use Rattle.tv_top.specs.Replies.{IsAnswered, IsJudged, Replies};

use crate::verification::over_report;
use std::alloc::Global;
use tv_acceptance::accept;
use tv_answers::answer::{Failure, Listing, Outcome, in_text, refuse, reject};
use tv_answers::check::check_answer;
use tv_answers::classes::class_of;
use tv_answers::grids::{generate_answer, summary_answer};
use tv_answers::gv::gv_answer;
use tv_answers::series::series_answer;
use tv_answers::status::Status;
use tv_degrees::grade::GradedWeb;
use tv_lattice::fault::{FileFault, InputError};
use tv_outside::{ReadEnd, Source, read_all};
use tv_spec_plane::limits::MOST_BYTES;
use tv_text::refusal::Refusal;
use tv_words::{Command, Entries, WordsError, parse_words};

/// What the words and the source deserve. The words are looked at first, and nothing is read where they are refused.
pub(crate) fn reply<S: Source>(
    alloc: Global,
    words: &[String],
    source: &mut S,
) -> Result<Outcome, Failure>
    ensures deserved { Replies (map string_bytes words.now)
        (record { before = S.seen source.old; after = S.seen source.new }) result }
    ensures reads { Reads (map string_bytes words.now)
        (record { before = S.seen source.old; after = S.seen source.new }) }
{
    match parse_words(alloc, words) {
        Ok(command) => answer_to(alloc, command, source),
        Err(WordsError::At(place)) => in_text(refuse(alloc, Status::Words, &Refusal::Words(place))),
        Err(WordsError::Memory) => Err(Failure::Memory),
    }
}

// A command about a grid reads nothing.
fn answer_to<S: Source>(alloc: Global, command: Command, source: &mut S) -> Result<Outcome, Failure>
    requires { IsAsked command }
    ensures deserved { (ws : List (List ℕ)) → Asks ws command →
        Replies ws (record { before = S.seen source.old; after = S.seen source.new }) result }
    ensures reads { (ws : List (List ℕ)) → Asks ws command →
        Reads ws (record { before = S.seen source.old; after = S.seen source.new }) }
{
    match command {
        Command::Check => over_source(alloc, command, source),
        Command::Series { .. } => over_source(alloc, command, source),
        Command::Gv { .. } => over_source(alloc, command, source),
        Command::Boxes { .. } => over_source(alloc, command, source),
        Command::Generate { side } => in_text(generate_answer(alloc, side)),
        Command::Summary { side, degree, upto } => {
            in_text(summary_answer(alloc, side, degree, upto))
        }
        Command::Verify => over_report(alloc, source),
    }
}

fn over_source<S: Source>(
    alloc: Global,
    command: Command,
    source: &mut S,
) -> Result<Outcome, Failure>
    requires asked { IsAsked command }
    requires file { subject_of command ≡ OfFile }
    ensures deserved { (ws : List (List ℕ)) → Asks ws command →
        Replies ws (record { before = S.seen source.old; after = S.seen source.new }) result }
    ensures reads { (ws : List (List ℕ)) → Asks ws command →
        Reads ws (record { before = S.seen source.old; after = S.seen source.new }) }
{
    match read_all(alloc, source, MOST_BYTES) {
        Ok(bytes) => judge(alloc, &bytes, command),
        Err(ReadEnd::TooLong) => in_text(reject(alloc, FileFault::TooLong)),
        Err(ReadEnd::Fault) => Err(Failure::Read),
        Err(ReadEnd::Memory) => Err(Failure::Memory),
    }
}

fn judge(alloc: Global, bytes: &[u8], command: Command) -> Result<Outcome, Failure>
    requires asked { IsAsked command }
    requires file { subject_of command ≡ OfFile }
    ensures { IsJudged command bytes.now result }
{
    match accept(alloc, bytes) {
        Ok(web) => over_web(alloc, web, command),
        Err(InputError::Fault(fault)) => in_text(reject(alloc, fault)),
        Err(InputError::Memory) => Err(Failure::Memory),
    }
}

// One row for each command that is about a file.
fn over_web(alloc: Global, web: GradedWeb, command: Command) -> Result<Outcome, Failure>
    requires asked { IsAsked command }
    requires file { subject_of command ≡ OfFile }
    ensures { IsAnswered command web result }
{
    match command {
        Command::Check => in_text(check_answer(alloc, &web)),
        Command::Series { kind, degree, upto } => {
            in_text(series_answer(alloc, &web, kind, degree, upto))
        }
        Command::Gv { degree, upto } => in_text(gv_answer(alloc, &web, degree, upto)),
        Command::Boxes { chi, class } => boxes_answer(alloc, web, chi, class),
        Command::Generate { .. } => unreachable!(),
        Command::Summary { .. } => unreachable!(),
        Command::Verify => unreachable!(),
    }
}

// The listing of that class, or the place of the words that shows that the class doesn't suit the web.
fn boxes_answer(
    alloc: Global,
    web: GradedWeb,
    chi: i64,
    entries: Entries,
) -> Result<Outcome, Failure>
    requires order { IsOrder chi }
    ensures { IsAnswered (Command.Boxes chi entries) web result }
{
    match class_of(&web, entries) {
        Ok(class) => Ok(Outcome::Pieces(Listing { web, class, chi })),
        Err(place) => in_text(refuse(alloc, Status::Words, &Refusal::Words(place))),
    }
}
