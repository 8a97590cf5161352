//! Routes: the distance of a target, and the vertices on the way to it.
ghost use Rattle.std.specs.Prelude.{◌≡◌, All, IfOk};
ghost use Rattle.sp_paths.specs.Paths.{IsVertex};
ghost use Rattle.sp_answer.specs.Routed.{IsRouteAnswerFor};
ghost use Rattle.sp_lists.specs.Limits.{IsCount, reach};
ghost use Rattle.sp_lists.specs.Routes.{distance_in, route_in, with_front, route_slices, slices_of, lists_of, AreRouteLists, IsRouteOf, AreRoutesOf};

use crate::outcomes::Outcome;
use crate::prepared::Prepared;
use crate::queries::Query;
use crate::targets::find_routes;
use sp_answer::RouteAnswer;
use std::alloc::{AllocError, Global};

/// The distance of a target, and the number of vertices on the route to it. If no walk leads to the target, they are the greatest
/// number and 0.
#[derive(Clone, Copy, Debug, PartialEq, Eq)]
pub struct RouteSize {
    pub dist: u64,
    pub count: usize,
}

/// What is asked for: the routes from the source to these targets.
#[derive(Clone, Copy)]
pub struct RoutesQuestion<'a> {
    pub source: u32,
    pub targets: &'a [u32],
}

// Answers as they are written: their distances, the places where their routes end, and the vertices of all routes.
#[derive(Drop)]
struct RouteLists {
    dist: Vec<u64>,
    ends: Vec<u64>,
    vertices: Vec<u32>,
}

// Copies a list to the front of a slice, if the slice has places for all of it. Otherwise it writes nothing.
fn put_front<T: Copy>(items: &[T], there: &mut [T])
    ensures { there.new ≡ with_front items.now there.old }
{
    if items.len() <= there.len() {
        there[..items.len()].copy_from_slice(items);
    }
}

// Returns the number that is written for the distance of an answer.
fn distance_in(answer: &RouteAnswer) -> u64
    ensures { result ≡ distance_in answer.now }
{
    match answer {
        RouteAnswer::Found { dist, .. } => *dist,
        RouteAnswer::TooFar(_) => u64::MAX - 1,
        RouteAnswer::NoWalk => u64::MAX,
    }
}

// Returns the vertices of the route, or none if there is no route.
fn route_in(answer: &RouteAnswer) -> &[u32]
    ensures { result.now ≡ route_in answer.now }
{
    match answer {
        RouteAnswer::Found { route, .. } => route.as_slice(),
        RouteAnswer::TooFar(_) | RouteAnswer::NoWalk => &[],
    }
}

// Returns the answer for a target, with its route.
fn find_route(
    alloc: Global,
    prepared: Prepared,
    source: u32,
    target: u32,
) -> Result<RouteAnswer, AllocError>
    requires n { IsCount prepared.graph.now.n }
    requires source { IsVertex prepared.graph.now.n source }
    requires target { IsVertex prepared.graph.now.n target }
    ensures { IfOk result (IsRouteAnswerFor prepared.entry.graph.now source target
        (reach prepared.entry.graph.now.n)) }
{
    let targets = [target];
    let mut answers = find_routes(alloc, prepared, source, &targets)?;
    Ok(answers.swap_remove(0))
}

/// Checks what is asked, and writes the route from the source to the target to the front of the slice, if there is room for it;
/// otherwise it writes nothing. It returns the distance and the number of vertices, or why there are none.
pub fn write_route(
    alloc: Global,
    prepared: Prepared,
    source: u32,
    target: u32,
    vertices: &mut [u32],
) -> Result<RouteSize, Outcome>
    ensures { IsRouteOf prepared.entry.graph.now source target vertices.old vertices.new result }
{
    let query = Query {
        sources: &[source],
        targets: &[target],
        delta: 0,
        limit: None,
        rows: 0,
        columns: 0,
    };
    if let Some(told) = query.refusal(prepared.n(), 0) {
        return Err(told);
    }
    match find_route(alloc, prepared, source, target) {
        Ok(RouteAnswer::Found { dist, route }) => {
            put_front(route.as_slice(), vertices);
            let count = route.len();
            Ok(RouteSize { dist, count })
        }
        Ok(RouteAnswer::TooFar(vertex)) => Err(Outcome::TooFar(vertex)),
        Ok(RouteAnswer::NoWalk) => Ok(RouteSize {
            dist: u64::MAX,
            count: 0,
        }),
        Err(_) => Err(Outcome::Memory),
    }
}

// Returns the answers as they are written.
fn lists_of(alloc: Global, answers: &[RouteAnswer]) -> Result<RouteLists, AllocError>
    ensures { IfOk result (λ lists. slices_of lists ≡ lists_of answers.now) }
{
    let mut lists = RouteLists {
        dist: Vec::with_capacity(alloc, answers.len())?,
        ends: Vec::with_capacity(alloc, answers.len())?,
        vertices: Vec::new(alloc),
    };
    for answer in answers {
        lists.dist.push(distance_in(answer))?;
        lists.vertices.extend_from_slice(route_in(answer))?;
        lists.ends.push(lists.vertices.len() as u64)?;
    }
    Ok(lists)
}

// Returns the answers for the targets of a source as they are written, by one search for all of them.
fn find_lists(
    alloc: Global,
    prepared: Prepared,
    source: u32,
    targets: &[u32],
) -> Result<RouteLists, AllocError>
    requires n { IsCount prepared.graph.now.n }
    requires source { IsVertex prepared.graph.now.n source }
    requires targets { All (IsVertex prepared.graph.now.n) targets.now }
    ensures { IfOk result (λ lists. AreRouteLists (reach prepared.entry.graph.now.n)
        prepared.entry.graph.now source targets.now (slices_of lists)) }
{
    let answers = find_routes(alloc, prepared, source, targets)?;
    lists_of(alloc, answers.as_slice())
}

/// Checks what is asked, and writes for each target its distance, the place where its route ends, and the routes, one after
/// another, if there is room for all of them; otherwise it writes no route. It returns why nothing is written, if nothing is.
pub fn write_routes(
    alloc: Global,
    prepared: Prepared,
    asked: RoutesQuestion,
    dist: &mut [u64],
    ends: &mut [u64],
    vertices: &mut [u32],
) -> Outcome
    ensures { AreRoutesOf prepared.entry.graph.now asked.entry.source asked.entry.targets.now
        (route_slices dist.old ends.old vertices.old)
        (route_slices dist.new ends.new vertices.new) result }
{
    let RoutesQuestion { source, targets } = asked;
    let query = Query {
        sources: &[source],
        targets,
        delta: 0,
        limit: None,
        rows: 1,
        columns: targets.len(),
    };
    if let Some(told) = query.refusal(prepared.n(), dist.len().min(ends.len())) {
        return told;
    }
    match find_lists(alloc, prepared, source, targets) {
        Ok(lists) => {
            put_front(lists.dist.as_slice(), dist);
            put_front(lists.ends.as_slice(), ends);
            put_front(lists.vertices.as_slice(), vertices);
            Outcome::Done
        }
        Err(_) => Outcome::Memory,
    }
}
