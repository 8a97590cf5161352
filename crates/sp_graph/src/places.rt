//! The rows of a graph in places.
//!
//! A vertex has four places of 8 bytes, in one list by vertex. Two free places come first: the system gives large lists at 16
//! bytes behind the beginning of a page, so the four places of a vertex then lie in one cache line.
ghost use Rattle.std.specs.Prelude.{◌≡◌, ℕ, ◌+◌, ◌*◌, ◌≤◌, ◌∷◌, ◌++◌, [], length, All, IfOk, OnOk};
ghost use Rattle.sp_graph.specs.Placed.{few_at, KeepsRows};

use crate::graph::Graph;
use crate::place::{Few, Place};
use std::alloc::{AllocError, Global};

// The number of free places before those of the first vertex.
const FREE: usize = 2;

// Appends the four places of the next vertex.
fn push_few(places: &mut Vec<Place>, few: Few) -> Result<(), AllocError>
    ensures { OnOk result (places.new.items
        ≡ places.old.items ++ few.first ∷ few.second ∷ few.third ∷ few.fourth ∷ []) }
{
    places.push(few.first)?;
    places.push(few.second)?;
    places.push(few.third)?;
    places.push(few.fourth)?;
    Ok(())
}

/// Returns the rows of a graph in places. It takes linear time, and fails if there is no memory for the places.
pub(crate) fn place_rows(alloc: Global, graph: &Graph) -> Result<Vec<Place>, AllocError>
    ensures { IfOk result (λ places. KeepsRows graph.now.n graph.now.arcs places.items) }
{
    let n = graph.n();
    let mut places = Vec::with_capacity(alloc, Few::PLACES * n as usize + FREE)?;
    places.push(Place::NONE)?;
    places.push(Place::NONE)?;
    for index in 0..n {
        push_few(&mut places, Few::of(graph.row(index + 1)))?;
    }
    Ok(places)
}

/// Returns the places of a vertex.
pub(crate) fn few_of(places: &[Place], vertex: u32) -> Few
    requires vertex { 1 ≤ vertex }
    requires size { 4 * vertex + 2 ≤ length places.now }
    ensures { (default : Place) → result ≡ few_at places.now vertex default }
{
    let first = Few::PLACES * vertex as usize - FREE;
    Few {
        first: places[first],
        second: places[first + 1],
        third: places[first + 2],
        fourth: places[first + 3],
    }
}
