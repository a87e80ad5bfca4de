//! What is told of one choice on the pending edges. It is made elsewhere.

ghost use Rattle.std.specs.Prelude.{◌≡◌};

use std::marker::Model;
use tv_assignment::Assignment;
use tv_graded::Graded;
use tv_ring::Ring;

/// A choice of diagrams on the pending edges, in their order, with the family of its signed sums.
#[derive(Drop)]
pub struct State<C: Ring> {
    choice: Assignment,
    family: Graded<C>,
}

impl<C: Ring> Model for State<C> {
    ghost use Rattle.tv_frontier.specs.Frontiers.{ChosenFamily};

    ghost Value = { ChosenFamily C };

    ghost view = { λ s. record { choice = s.choice; family = s.family } };
}

impl<C: Ring> State<C> {
    pub(crate) fn new(choice: Assignment, family: Graded<C>) -> State<C>
        ensures choice { result.choice ≡ choice }
        ensures family { result.family ≡ family }
    {
        State { choice, family }
    }

    /// The diagrams, one for each pending edge.
    pub fn choice(&self) -> &Assignment
        ensures { result.now ≡ self.now.choice }
    {
        &self.choice
    }

    /// The signed sums, class by class.
    pub fn family(&self) -> &Graded<C>
        ensures { result.now ≡ self.now.family }
    {
        &self.family
    }
}
