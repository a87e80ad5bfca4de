//! The lister of the configurations of a class and Euler characteristic: what is still to come is its value.

ghost use Rattle.std.specs.Prelude.{◌≡◌, ◌≤◌, ◌≤ℤ◌, pos, length, unsigned_abs, IfOk, OnErr};
ghost use Rattle.tv_spec_plane.specs.Web.{degree_of};
ghost use Rattle.tv_spec_boxes.specs.Assignments.{no_legs};
ghost use Rattle.tv_spec_boxes.specs.Configurations.{configurations};
ghost use Rattle.tv_boxes.specs.Next.{IsNext};

use crate::config::Config;
use crate::stages::Stages;
use std::alloc::{AllocError, Global};
use std::marker::Model;
use tv_degrees::grade::GradedWeb;
use tv_lattice::class::Class;
use tv_spec_plane::limits::{GREATEST_DEGREE, GREATEST_ORDER};

/// The configurations that are still to come, in the order of `configurations`.
#[derive(Drop)]
pub struct Lister<'a> {
    stages: Stages<'a>,
}

impl<'a> Model for Lister<'a> {
    ghost use Rattle.std.specs.Prelude.{List};
    ghost use Rattle.tv_spec_boxes.specs.Configurations.{Configuration};
    ghost use Rattle.tv_boxes.specs.Stages.{to_come, IsLister};

    ghost Value = { List Configuration };

    ghost view = { λ s. to_come s.stages };

    ghost invariant = { λ s. IsLister s.stages };
}

impl<'a> Lister<'a> {
    /// All configurations of the class and of the Euler characteristic `chi`, with no diagram on an open edge; none where the
    /// degree of the class is below 0. It errs only for want of memory.
    pub fn start(
        alloc: Global,
        web: &'a GradedWeb,
        class: Class,
        chi: i64,
    ) -> Result<Lister<'a>, AllocError>
        requires one_each { length class ≡ length web.now.points }
        requires degree { degree_of web.now.heights class ≤ℤ pos GREATEST_DEGREE }
        requires chi { unsigned_abs chi ≤ GREATEST_ORDER }
        ensures { IfOk result (λ all. all ≡ configurations web.now (no_legs web.now) class chi) }
    {
        let stages = Stages::start(alloc, web, class, chi)?;
        Ok(Lister { stages })
    }

    /// The next one; None after the last, and ever after. After an error the next call gives what this one would have given.
    pub fn next(&mut self) -> Result<Option<Config>, AllocError>
        ensures ok { IfOk result (λ found. IsNext self.old found self.new) }
        ensures err { OnErr result (self.new ≡ self.old) }
    {
        self.stages.next()
    }
}
