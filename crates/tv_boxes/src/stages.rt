//! The stages between an assignment and the next one. Each call for memory keeps its stage until it is done, so that an error
//! loses nothing that is still to come.

ghost use Rattle.std.specs.Prelude.{◌≡◌, ◌≤◌, ◌≤ℤ◌, ◌+ℤ◌, pos, length, unsigned_abs, IfOk, OnErr, MatchResult};
ghost use Rattle.tv_spec_plane.specs.Web.{degree_of};
ghost use Rattle.tv_spec_boxes.specs.Assignments.{no_legs};
ghost use Rattle.tv_spec_boxes.specs.Configurations.{configurations};
ghost use Rattle.tv_boxes.specs.Next.{IsNext};
ghost use Rattle.tv_boxes.specs.Stages.{to_come, IsLister, IsAt, IsSame, IsMoved};
ghost use Rattle.tv_boxes.specs.declared.stages.Stage.TheVariants.{Between, Chosen, Listing, Standing};

use crate::config::{Config, copy_of};
use std::alloc::{AllocError, Global};
use tv_assignment::{Assignment, all_legs, start_of};
use tv_class_assignments::Assignments;
use tv_degrees::grade::GradedWeb;
use tv_extras::fillings::Fillings;
use tv_extras::search::MOST_BOXES;
use tv_lattice::class::Class;
use tv_spec_plane::limits::{GREATEST_DEGREE, GREATEST_ORDER};

/// How far the assignment at hand is.
#[derive(Clone, Copy, Drop)]
pub(crate) enum Stage {
    /// All its configurations have been given.
    Between,
    /// None has been given, and its corners are to be prepared.
    Chosen,
    /// Those of the fillings that are still to come have not been given.
    Listing,
    /// Nor has that of the filling that was reached last.
    Standing,
}

/// What a step comes to.
#[derive(Drop)]
pub(crate) enum Move {
    /// The same is still to come.
    Further,
    /// The next configuration.
    Found(Config),
    /// Nothing is to come.
    Ended,
}

/// The assignments that are still to come, and the one at hand with its fillings.
#[derive(Drop)]
pub(crate) struct Stages<'a> {
    alloc: Global,
    web: &'a GradedWeb,
    chi: i64,
    all: Assignments<'a>,
    stage: Stage,
    assignment: Assignment,
    fillings: Fillings,
}

impl<'a> Stages<'a> {
    /// All configurations are still to come.
    pub(crate) fn start(
        alloc: Global,
        web: &'a GradedWeb,
        class: Class,
        chi: i64,
    ) -> Result<Stages<'a>, AllocError>
        requires one_each { length class ≡ length web.now.points }
        requires degree { degree_of web.now.heights class ≤ℤ pos GREATEST_DEGREE }
        requires chi { unsigned_abs chi ≤ GREATEST_ORDER }
        ensures valid { IfOk result (λ s. IsLister s) }
        ensures value { IfOk result (λ s. to_come s ≡ configurations web.now (no_legs web.now) class chi) }
    {
        web.known();
        let all = Assignments::start(alloc, web, class)?;
        let fillings = Fillings::start(alloc, Vec::new(alloc), 0)?;
        Ok(Stages {
            alloc,
            web,
            chi,
            all,
            stage: Stage::Between,
            assignment: Assignment::new(Vec::new(alloc)),
            fillings,
        })
    }

    /// The next configuration, or None where none is to come.
    pub(crate) fn next(&mut self) -> Result<Option<Config>, AllocError>
        requires { IsLister self.old }
        ensures valid { IsLister self.new }
        ensures ok { IfOk result (λ found. IsNext (to_come self.old) found (to_come self.new)) }
        ensures err { OnErr result (to_come self.new ≡ to_come self.old) }
    {
        'steps: loop {
            match self.step()? {
                Move::Further => {}
                Move::Found(config) => return Ok(Some(config)),
                Move::Ended => return Ok(None),
            }
        }
    }

    fn step(&mut self) -> Result<Move, AllocError>
        requires { IsLister self.old }
        ensures { MatchResult result (λ m. IsMoved m self.old self.new) (λ _. IsSame self.old self.new) }
    {
        match self.stage {
            Stage::Between => self.choose(),
            Stage::Chosen => self.prepare(),
            Stage::Listing => self.fill(),
            Stage::Standing => self.copy(),
        }
    }

    // The next assignment, if there is one.
    fn choose(&mut self) -> Result<Move, AllocError>
        requires { IsAt Between self.old }
        ensures { MatchResult result (λ m. IsMoved m self.old self.new) (λ _. IsSame self.old self.new) }
    {
        let Some(assignment) = self.all.next()? else {
            return Ok(Move::Ended);
        };
        self.assignment = assignment;
        self.stage = Stage::Chosen;
        Ok(Move::Further)
    }

    // The fillings of its corners by the boxes that are left; none where it starts beyond the Euler characteristic.
    fn prepare(&mut self) -> Result<Move, AllocError>
        requires { IsAt Chosen self.old }
        ensures { MatchResult result (λ m. IsMoved m self.old self.new) (λ _. IsSame self.old self.new) }
    {
        let legs = all_legs(self.alloc, self.web, &self.assignment)?;
        let start = start_of(self.web, &self.assignment, &legs);
        if start > self.chi {
            self.stage = Stage::Between;
            return Ok(Move::Further);
        }
        self.fillings = Fillings::start(self.alloc, legs, boxes_left(start, self.chi))?;
        self.stage = Stage::Listing;
        Ok(Move::Further)
    }

    // The next filling, or none: then the assignment is done.
    fn fill(&mut self) -> Result<Move, AllocError>
        requires { IsAt Listing self.old }
        ensures { MatchResult result (λ m. IsMoved m self.old self.new) (λ _. IsSame self.old self.new) }
    {
        if self.fillings.next()? {
            self.stage = Stage::Standing;
        } else {
            self.stage = Stage::Between;
        }
        Ok(Move::Further)
    }

    // A copy of the configuration that was reached last.
    fn copy(&mut self) -> Result<Move, AllocError>
        requires { IsAt Standing self.old }
        ensures { MatchResult result (λ m. IsMoved m self.old self.new) (λ _. IsSame self.old self.new) }
    {
        let config = copy_of(self.alloc, &self.assignment, &self.fillings)?;
        self.stage = Stage::Listing;
        Ok(Move::Found(config))
    }
}

// How many boxes bring the start to the Euler characteristic.
fn boxes_left(start: i64, chi: i64) -> u32
    requires start { unsigned_abs start ≤ 10000000 }
    requires chi { unsigned_abs chi ≤ GREATEST_ORDER }
    requires within { start ≤ℤ chi }
    ensures value { start +ℤ pos result ≡ chi }
    ensures few { result ≤ MOST_BOXES }
{
    (chi - start) as u32
}
