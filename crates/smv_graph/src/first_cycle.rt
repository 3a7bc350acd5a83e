//! The first of the shortest cycles through a module.
ghost use Rattle.std.specs.Prelude.{◌≡◌, ◌≤◌, ℕ, List, Some, length, IfOk, MatchOption};
ghost use Rattle.smv_meaning.specs.Walks.{IsWalk, IsOnCycle};
ghost use Rattle.smv_meaning.specs.FirstCycles.{IsFirstCycle};
ghost use Rattle.smv_graph.specs.Graph.{Leads, row_of};
ghost use Rattle.smv_graph.specs.Distances.{AreDistances};
ghost use Rattle.smv_graph.specs.Choices.{GoesBefore, LeadsAt, IsChosen};

use crate::Graph;
use crate::choice::{StepOrder, choose, nearest};
use indexmap::IndexMap;
use std::alloc::{AllocError, Global};

impl Graph {
    /// The first step from a module to one that is so far away.
    fn next_step(
        &self,
        order: StepOrder,
        distances: &IndexMap<usize, usize>,
        here: usize,
        distance: usize,
    ) -> usize
        requires { (b : ℕ) × LeadsAt distances.now.entries (row_of self.now here) distance b }
        ensures { IsChosen order distances.now.entries (row_of self.now here) distance (Some result) }
    {
        match choose(order, distances, self.row(here), distance) {
            Some(next) => next,
            None => unreachable!(),
        }
    }

    /// The first of the shortest walks from a module back to it, with so many modules between.
    fn walk_back(
        &self,
        alloc: Global,
        order: StepOrder,
        distances: &IndexMap<usize, usize>,
        start: usize,
        count: usize,
    ) -> Result<Vec<usize>, AllocError>
        requires distances { AreDistances self.now start distances.now.entries }
        requires there { (xs : List ℕ) × IsWalk (Leads self.now) start xs start × (length xs ≡ count) }
        requires least { (xs : List ℕ) → IsWalk (Leads self.now) start xs start → count ≤ length xs }
        ensures { IfOk result (λ v.
            IsFirstCycle (Leads self.now) (GoesBefore order self.now) start v.items) }
    {
        let mut between = Vec::new(alloc);
        let mut here = start;
        let mut left = count;
        while left > 0 {
            here = self.next_step(order, distances, here, left);
            between.push(here)?;
            left -= 1;
        }
        Ok(between)
    }

    /// The first of the shortest cycles through a module, if it is on one: the modules between.
    ///
    /// # Errors
    ///
    /// `AllocError` where memory was refused.
    pub fn first_cycle(
        &self,
        alloc: Global,
        order: StepOrder,
        start: usize,
    ) -> Result<Option<Vec<usize>>, AllocError>
        ensures { IfOk result (λ o. MatchOption o (¬ IsOnCycle (Leads self.now) start) (λ v.
            IsFirstCycle (Leads self.now) (GoesBefore order self.now) start v.items)) }
    {
        let distances = self.distances(alloc, start)?;
        let Some(count) = nearest(&distances, self.row(start)) else {
            return Ok(None);
        };
        let between = self.walk_back(alloc, order, &distances, start, count)?;
        Ok(Some(between))
    }
}
