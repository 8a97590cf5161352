//! The operations on a place for a graph.
ghost use Rattle.std.specs.Prelude.{◌≡◌, IfOk, IfErr, MatchResult};
ghost use Rattle.std.specs.declared.option.Option.TheVariants.{Some};
ghost use Rattle.spt_c.specs.Owners.{held};
ghost use Rattle.spt_c.specs.Place.{kept, held_by, IsInUse, IsFree, IsTaken};

use super::KeptGraph;
use crate::shared::{HeldGraph, SharedGraph};
use crate::slot::Slot;
use crate::word::{load, store, swap};
use sp_graph::Graph;
use std::alloc::{AllocError, Global};
use std::mem::replace;

const NONE: u64 = 0;

const KEPT: u64 = 1;

const IN_USE: u64 = 2;

/// Another call uses the place.
#[derive(Clone, Copy, Debug, PartialEq, Eq)]
pub struct InUse;

/// What a call finds in a place.
#[derive(Drop)]
pub enum Taken {
    /// The graph that the place kept. The call uses the place from now on.
    Graph(HeldGraph),
    /// The place keeps no graph.
    Nothing,
    /// Another call uses the place.
    InUse,
}

impl KeptGraph {
    /// Takes the place for a call, and returns the graph that it kept, if any.
    pub fn begin(&mut self, alloc: Global) -> Result<Option<HeldGraph>, InUse>
        ensures free { IfOk result (λ out. IsFree self.old × (held_by out ≡ kept self.old)) }
        ensures taken { IfOk result (λ _. IsInUse self.new) }
        ensures in_use { IfErr result (λ _. IsInUse self.old × (self.new ≡ self.old)) }
    {
        match swap(&mut self.state, IN_USE) {
            IN_USE => Err(InUse),
            KEPT => {
                let slot = replace(&mut self.slot, Slot::none());
                Ok(Some(HeldGraph {
                    shared: slot.into_box(alloc),
                }))
            }
            _ => Ok(None),
        }
    }

    /// Takes the place for a call, with the graph that it kept. A place that keeps no graph isn't taken or written.
    pub fn take(&mut self, alloc: Global) -> Taken
        ensures { IsTaken self.old self.new result }
    {
        if load(&mut self.state) == NONE {
            return Taken::Nothing;
        }
        match self.begin(alloc) {
            Ok(Some(held)) => Taken::Graph(held),
            Ok(None) => {
                self.end(None);
                Taken::Nothing
            }
            Err(InUse) => Taken::InUse,
        }
    }

    /// Gives the place back. It then keeps this graph, or none.
    pub fn end(&mut self, graph: Option<HeldGraph>)
        requires { IsInUse self.old }
        ensures kept { kept self.new ≡ held_by graph }
        ensures free { IsFree self.new }
    {
        match graph {
            Some(HeldGraph { shared }) => {
                replace(&mut self.slot, Slot::of(shared)).end();
                store(&mut self.state, KEPT);
            }
            None => store(&mut self.state, NONE),
        }
    }

    /// Gives the place back with a graph in place of what it kept before. If there is no memory, it keeps that.
    pub fn end_with(
        &mut self,
        alloc: Global,
        graph: Graph,
        before: Option<HeldGraph>,
    ) -> Result<(), AllocError>
        requires { IsInUse self.old }
        ensures kept { MatchResult result (λ _. kept self.new ≡ Some graph)
            (λ _. kept self.new ≡ held_by before) }
        ensures free { IsFree self.new }
    {
        match HeldGraph::of(alloc, graph) {
            Ok(made) => {
                self.end(Some(made));
                drop(before);
                Ok(())
            }
            Err(error) => {
                self.end(before);
                Err(error)
            }
        }
    }
}

impl HeldGraph {
    /// Makes the first owner of a graph. It fails if there is no memory.
    pub fn of(alloc: Global, graph: Graph) -> Result<HeldGraph, AllocError>
        ensures { IfOk result (λ made. held made ≡ graph) }
    {
        Ok(HeldGraph {
            shared: Box::new(alloc, SharedGraph::new(alloc, graph)?)?,
        })
    }

    /// Makes one more owner of the same graph. It fails if there is no memory.
    pub fn another(&self, alloc: Global) -> Result<HeldGraph, AllocError>
        ensures { IfOk result (λ other. held other ≡ held self.now) }
    {
        Ok(HeldGraph {
            shared: Box::new(alloc, self.shared.another()?)?,
        })
    }
}
