//! Corners, each at one of its sets: the fillings of several corners one after the other. The set of the first corner stays
//! until the further corners have no filling left for what it leaves them.

ghost use Rattle.std.specs.Prelude.{◌≡◌, ◌<◌, ◌≤◌, false, length, MatchResult};
ghost use Rattle.tv_spec_boxes.specs.Configurations.{fillings};
ghost use Rattle.tv_extras.specs.Sized.{sized, IsSized, IsSizedSame, Advances};
ghost use Rattle.tv_extras.specs.Nodes.{to_fill, legs_of, AreNodes, IsKept, IsSameFill, Gives, GivesInside, IsMovedOn, IsUnmoved, IsRestarted};

use crate::sized::SizedSets;
use std::alloc::AllocError;
use tv_cells::cell::Cell;

/// A corner at one of its sets, and whether the further corners are at a filling beside that set.
#[derive(Drop)]
pub struct Node {
    sets: SizedSets,
    inside: bool,
}

impl Node {
    /// The corner with these sets, at none of them.
    pub fn new(sets: SizedSets) -> Node
        ensures sets { result.sets ≡ sets }
        ensures inside { result.inside ≡ false }
    {
        Node {
            sets,
            inside: false,
        }
    }

    /// The set that it is at.
    pub fn chosen(&self) -> &[Cell]
        ensures { result.now ≡ self.now.sets.search.chosen.items }
    {
        self.sets.chosen()
    }

    fn restart(&mut self, first: u32, last: u32)
        requires valid { IsSized self.old.sets }
        requires first { first ≤ last }
        requires last { last ≤ self.old.sets.most }
        ensures { IsRestarted first last self.old self.new }
    {
        self.sets.restart(first, last);
        self.inside = false;
    }

    // The next set, inside which the further corners begin.
    fn advance(&mut self) -> Result<bool, AllocError>
        requires { IsSized self.old.sets }
        ensures { MatchResult result (λ found. IsMovedOn found self.old self.new) (λ _. IsUnmoved self.old self.new) }
    {
        let found = self.sets.advance()?;
        self.inside = found;
        Ok(found)
    }

    // The next set of the last corner.
    fn advance_last(&mut self) -> Result<bool, AllocError>
        requires { IsSized self.old.sets }
        ensures inside { self.new.inside ≡ self.old.inside }
        ensures moved { MatchResult result (λ found. Advances found self.old.sets self.new.sets) (λ _. IsSizedSame self.old.sets self.new.sets) }
    {
        self.sets.advance()
    }
}

/// Goes on to the next filling, of which each corner then is at its set, or tells that no more come.
#[cycle(filling)]
pub fn next(nodes: &mut [Node], most: u32) -> Result<bool, AllocError>
    requires { AreNodes most nodes.old }
    ensures { MatchResult result (λ found. Gives most found nodes.old nodes.new) (λ _. IsSameFill most nodes.old nodes.new) }
{
    let Some((node, later)) = nodes.split_first_mut() else {
        return Ok(false);
    };
    if later.is_empty() {
        return node.advance_last();
    }
    'sets: loop {
        if next_inside(node, later, most)? {
            return Ok(true);
        }
        if !node.advance()? {
            return Ok(false);
        }
        enter(later, most, node.sets.left());
    }
}

// The next filling of the further corners beside the set of the first one.
#[cycle(filling)]
fn next_inside(node: &Node, later: &mut [Node], most: u32) -> Result<bool, AllocError>
    requires { AreNodes most later.old }
    ensures { MatchResult result (λ found. GivesInside most node.now found later.old later.new) (λ _. IsSameFill most later.old later.new) }
{
    if node.inside {
        next(later, most)
    } else {
        Ok(false)
    }
}

/// Begins again with all fillings by that many boxes: the last corner at their number, each other at none.
pub fn enter(nodes: &mut [Node], most: u32, boxes: u32)
    requires valid { AreNodes most nodes.old }
    requires some { 0 < length nodes.old }
    requires boxes { boxes ≤ most }
    ensures kept { IsKept most nodes.old nodes.new }
    ensures all { to_fill nodes.new ≡ fillings (legs_of nodes.old) most boxes }
{
    let Some((node, later)) = nodes.split_first_mut() else {
        return;
    };
    if later.is_empty() {
        node.restart(boxes, boxes);
    } else {
        node.restart(0, boxes);
    }
}
