//! Tells the report of box configurations piece by piece: each piece is made, written and let go before the next is made.
//! How configurations are found and printed is not looked at here.

ghost use Rattle.std.specs.Prelude.{◌∷◌, [], List, codes};
ghost use Rattle.tv_spec_text.specs.Lines.{text_of};
ghost use Rattle.tv_spec_boxes.specs.Configurations.{Configuration, configurations};
ghost use Rattle.tv_spec_boxes.specs.Assignments.{no_legs};
ghost use Rattle.tv_top.specs.Answers.{Told};
ghost use Rattle.tv_answers.specs.Boxes.{Suits};
ghost use Rattle.tv_words.specs.Commands.{IsOrder};
ghost use Rattle.tv_top.specs.Listings.{IsTold, Finishes, Steps};

use crate::telling::{tell, tell_memory};
use std::alloc::Global;
use tv_answers::answer::Listing;
use tv_answers::status::Status;
use tv_boxes::{Config, Lister};
use tv_degrees::grade::GradedWeb;
use tv_lattice::class::Class;
use tv_outside::{Sink, write_all};
use tv_reports::boxes::{print_boxes_head, print_config};
use tv_words::Command;

const END_TEXT: &[u8] = b"end\n";

/// What a telling comes to after one more piece.
#[derive(Drop)]
enum Step {
    /// A configuration was told.
    Further,
    /// Nothing more is to be told.
    Finished(Status),
}

/// Tells the head, each configuration, and the end. Where memory is wanting for the next piece, its line comes in place of
/// that piece; after a write that failed nothing comes.
pub(crate) fn tell_listing<K: Sink>(alloc: Global, sink: &mut K, listing: Listing) -> Status
    requires suits { Suits listing.web listing.class }
    requires order { IsOrder listing.chi }
    ensures { IsTold (Command.Boxes listing.chi listing.class) listing.web
        (record { before = K.seen sink.old; after = K.seen sink.new }) result }
{
    let Listing { web, class, chi } = listing;
    let Ok(head) = print_boxes_head(alloc, &web, &class, chi) else {
        return tell_memory(sink);
    };
    if write_all(sink, &head).is_err() {
        return Status::WriteFault;
    }
    tell_configurations(alloc, sink, &web, class, chi)
}

// What follows the head.
fn tell_configurations<K: Sink>(
    alloc: Global,
    sink: &mut K,
    web: &GradedWeb,
    class: Class,
    chi: i64,
) -> Status
    requires suits { Suits web.now class }
    requires order { IsOrder chi }
    ensures { Finishes web.now (configurations web.now (no_legs web.now) class chi)
        (record { before = K.seen sink.old; after = K.seen sink.new }) result }
{
    match Lister::start(alloc, web, class, chi) {
        Ok(lister) => tell_all(alloc, sink, web, lister),
        Err(_) => tell_memory(sink),
    }
}

// The configurations that are still to come, and the end.
fn tell_all<K: Sink>(alloc: Global, sink: &mut K, web: &GradedWeb, lister: Lister<'_>) -> Status
    ensures { Finishes web.now lister.entry
        (record { before = K.seen sink.old; after = K.seen sink.new }) result }
{
    let mut lister = lister;
    'pieces: loop {
        match tell_next(alloc, sink, web, &mut lister) {
            Step::Further => {}
            Step::Finished(status) => return status,
        }
    }
}

// One configuration, or the end behind the last.
fn tell_next<K: Sink>(alloc: Global, sink: &mut K, web: &GradedWeb, lister: &mut Lister<'_>) -> Step
    ensures { Steps web.now lister.old lister.new
        (record { before = K.seen sink.old; after = K.seen sink.new }) result }
{
    match lister.next() {
        Ok(Some(config)) => tell_config(alloc, sink, web, &config),
        Ok(None) => Step::Finished(tell_end(sink)),
        Err(_) => Step::Finished(tell_memory(sink)),
    }
}

// The last line.
#[tactic(auto, unfolding(tv_spec_text::specs::Lines::line_text))]
fn tell_end<K: Sink>(sink: &mut K) -> Status
    ensures { Told (record { before = K.seen sink.old; after = K.seen sink.new })
        (text_of ((codes "end" ∷ []) ∷ [])) Status.Done result }
{
    tell(sink, END_TEXT, Status::Done)
}

// The next configuration, whatever comes behind it.
fn tell_config<K: Sink>(alloc: Global, sink: &mut K, web: &GradedWeb, config: &Config) -> Step
    ensures { (others : List Configuration) → Steps web.now (config.now ∷ others) others
        (record { before = K.seen sink.old; after = K.seen sink.new }) result }
{
    let Ok(piece) = print_config(alloc, web, config.legs(), config.extras()) else {
        return Step::Finished(tell_memory(sink));
    };
    match write_all(sink, &piece) {
        Ok(()) => Step::Further,
        Err(_) => Step::Finished(Status::WriteFault),
    }
}
