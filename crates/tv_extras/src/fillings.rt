//! The fillings of several corners by a given number of boxes, one after the other, in order: a set of extras at each corner.
//! It holds one of them, and no list.

ghost use Rattle.std.specs.Prelude.{◌≡◌, ◌<◌, ◌≤◌, [], length, slice_index_or, IfOk, MatchResult};
ghost use Rattle.std.specs.List.{AllByRecursion};
ghost use Rattle.tv_spec_boxes.specs.Configurations.{fillings};
ghost use Rattle.tv_extras.specs.Nodes.{legs_of};
ghost use Rattle.tv_extras.specs.Standing.{Standing, standing, IsFillings, Reaches, IsFresh};

use crate::nodes;
use crate::nodes::Node;
use crate::search::MOST_BOXES;
use crate::sized::SizedSets;
use std::alloc::{AllocError, Global};
use std::marker::Model;
use tv_cells::cell::Cell;
use tv_cells::legs::Legs;

/// The filling that was reached last, and those that are still to come.
#[derive(Drop)]
pub struct Fillings {
    nodes: Vec<Node>,
    most: u32,
    pending: bool,
}

impl Model for Fillings {
    ghost Value = { Standing };

    ghost view = { λ f. standing f.pending f.nodes.items };

    ghost invariant = { λ f. IsFillings f.most f.pending f.nodes.items };
}

impl Fillings {
    /// All fillings of corners with these legs by `boxes` boxes together: of two sets at the first corner at which they differ
    /// that of fewer boxes first, then that with the earlier cell.
    pub fn start(alloc: Global, legs: Vec<Legs>, boxes: u32) -> Result<Fillings, AllocError>
        requires { boxes ≤ MOST_BOXES }
        ensures corners { IfOk result (λ f. length f.current ≡ length legs.items) }
        ensures value { IfOk result (λ f. f.to_come ≡ fillings legs.items boxes boxes) }
    {
        let mut nodes = fresh(alloc, legs, boxes)?;
        if nodes.is_empty() {
            return Ok(Fillings {
                nodes,
                most: boxes,
                pending: boxes == 0,
            });
        }
        nodes::enter(nodes.as_mut_slice(), boxes, boxes);
        Ok(Fillings {
            nodes,
            most: boxes,
            pending: false,
        })
    }

    /// Goes on to the next filling, or tells that no more come, then and ever after. Where memory fails the fillings to come
    /// stay the same, so that the next call gives what this one would have given.
    pub fn next(&mut self) -> Result<bool, AllocError>
        ensures corners { length self.new.current ≡ length self.old.current }
        ensures found { MatchResult result (λ found. Reaches found self.old self.new) (λ _. self.new.to_come ≡ self.old.to_come) }
    {
        if self.pending {
            self.pending = false;
            return Ok(true);
        }
        nodes::next(self.nodes.as_mut_slice(), self.most)
    }

    /// The number of corners.
    pub fn len(&self) -> usize
        ensures { result ≡ length self.now.current }
    {
        self.nodes.len()
    }

    /// The set at that corner, its cells in order, of the filling that was reached last. Before the first filling, after the
    /// last one, and after an error, it is any set.
    pub fn at(&self, corner: usize) -> &[Cell]
        requires { corner < length self.now.current }
        ensures { result.now ≡ slice_index_or self.now.current corner [] }
    {
        self.nodes[corner].chosen()
    }
}

// Each corner at no set, in the order of the legs.
fn fresh(alloc: Global, legs: Vec<Legs>, most: u32) -> Result<Vec<Node>, AllocError>
    requires { most ≤ MOST_BOXES }
    ensures fresh { IfOk result (λ nodes. AllByRecursion (IsFresh most) nodes.items) }
    ensures legs { IfOk result (λ nodes. legs_of nodes.items ≡ legs.items) }
{
    let mut nodes = Vec::new(alloc);
    for corner in legs {
        nodes.push(Node::new(SizedSets::start(alloc, corner, most)?))?;
    }
    Ok(nodes)
}
