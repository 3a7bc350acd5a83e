//! How far modules are from one to which they lead, by one sweep in breadth over the arrows the other
//! way round.
ghost use Rattle.std.specs.Prelude.{◌≡◌, ◌<◌, ◌++◌, ◌∷◌, [], ℕ, List, Some, is_some, if◌then◌else◌, nat_eq, length, slice_get, IfOk, OnOk};
ghost use Rattle.std.specs.Map.{lookup};
ghost use Rattle.smv_graph.specs.Distances.{AreDistances, AreNoted};

use crate::Graph;
use indexmap::IndexMap;
use std::alloc::{AllocError, Global};

/// Notes how far a module is, unless it is noted already.
fn note(
    distances: &mut IndexMap<usize, usize>,
    number: usize,
    distance: usize,
) -> Result<(), AllocError>
    ensures { OnOk result (distances.new.entries
        ≡ (if is_some (lookup (nat_eq number) distances.old.entries) then distances.old.entries
        else distances.old.entries ++ (number, distance) ∷ [])) }
{
    match distances.get(&number) {
        Some(_) => Ok(()),
        None => {
            distances.insert(number, distance)?;
            Ok(())
        }
    }
}

/// Notes the modules of a row, all at one distance.
fn note_row(
    distances: &mut IndexMap<usize, usize>,
    row: &[Option<usize>],
    distance: usize,
) -> Result<(), AllocError>
    ensures { OnOk result (AreNoted distances.old.entries row.now distance distances.new.entries) }
{
    for target in row {
        match target {
            Some(number) => note(distances, *number, distance)?,
            None => {}
        }
    }
    Ok(())
}

/// A module that is noted, and its distance.
fn entry_at(distances: &IndexMap<usize, usize>, place: usize) -> (usize, usize)
    requires { place < length distances.now.entries }
    ensures { slice_get distances.now.entries place ≡ Some result }
{
    match distances.get_index(place) {
        Some((number, distance)) => (*number, *distance),
        None => unreachable!(),
    }
}

impl Graph {
    /// The modules that lead to one, each with the least number of steps, nearer ones first.
    pub(crate) fn distances(
        &self,
        alloc: Global,
        target: usize,
    ) -> Result<IndexMap<usize, usize>, AllocError>
        ensures { IfOk result (λ m. AreDistances self.now target m.entries) }
    {
        let back = self.reversed(alloc)?;
        let mut distances = IndexMap::new(alloc);
        note(&mut distances, target, 0)?;
        let mut next = 0;
        while next < distances.len() {
            let (number, distance) = entry_at(&distances, next);
            note_row(&mut distances, back.row(number), distance + 1)?;
            next += 1;
        }
        Ok(distances)
    }
}
