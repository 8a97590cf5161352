//! The answers for pairs in a network. If arcs have to be turned round for a few pairs, pairs whose ends are near each
//! other are answered without doing so.
ghost use Rattle.std.specs.Prelude.{◌≡◌, ◌≤◌, true, All, IfOk, IfSome};
ghost use Rattle.std.specs.List.{AllZip};
ghost use Rattle.sp_word.specs.Word.{is_layout, max_pred};
ghost use Rattle.sp_paths.specs.Bags.{AreSame};
ghost use Rattle.sp_dimacs.specs.Graph.{IsNetworkUpTo, graph_of};
ghost use Rattle.sp_network.specs.Network.{directed, most_of};
ghost use Rattle.sp_pairs.specs.Slots.{IsClosed, IsPairOf, AreHeld};
ghost use Rattle.sp_pairs.specs.Near.{IsClosedFor};

use crate::asking::{PairState, find_answers};
use crate::near::near_answer;
use crate::told::PairLine;
use sp_dimacs::GrFile;
use sp_graph::Graph;
use sp_jobs::{Listener, Progress, Settings};
use sp_network::{Direction, Network};
use sp_run::RunsTeams;
use sp_serial::SearchBuffers;
use sp_word::{Meter, ThreadsAndSleep};
use std::alloc::{AllocError, Global};

// For more pairs the arcs are turned at once. If one of the pairs were far, the searches for the others would be
// wasted.
const FEW: usize = 8;

// Finds what is known of pairs in the turned form of this graph, if the ends of each pair are near each other.
fn near_slots<const P: u32, A: PairLine<P>>(
    alloc: Global,
    graph: &Graph,
    pairs: &[(u32, u32)],
) -> Result<Option<Vec<PairState<A>>>, AllocError>
    requires layout { is_layout P ≡ true }
    requires n { graph.now.n ≤ max_pred P }
    requires pairs { All (IsPairOf graph.now.n) pairs.now }
    ensures { IfOk result (λ found. IfSome found
        (λ slots. AllZip (IsClosedFor A.is_answer graph.now) pairs.now slots.items)) }
{
    let mut room = SearchBuffers::<P>::new(alloc, graph)?;
    let mut slots = Vec::new(alloc);
    for (source, target) in pairs {
        let Some(answer) = near_answer::<P, A>(alloc, &mut room, graph, *source, *target)? else {
            return Ok(None);
        };
        slots.push(PairState::Known(answer))?;
    }
    Ok(Some(slots))
}

// Finds what is known of pairs in a network whose arcs have to be turned round, in the network as it is, if the pairs
// are few and their ends are near each other. The network is returned with the arcs that it had, in any order.
fn near_in<const P: u32, A: PairLine<P>, R: ThreadsAndSleep, L: Listener>(
    rt: &R,
    alloc: Global,
    file: Network,
    pairs: &[(u32, u32)],
    settings: &Settings<P, L>,
) -> Result<(Network, Option<Vec<PairState<A>>>), AllocError>
    requires layout { is_layout P ≡ true }
    requires network { IsNetworkUpTo P (most_of settings.now.direction) file }
    requires pairs { All (IsPairOf file.n) pairs.now }
    ensures network { IfOk result
        (λ kept. IsNetworkUpTo P (most_of settings.now.direction) kept.0) }
    ensures same { IfOk result
        (λ kept. AreSame (directed settings.now.direction (graph_of kept.0))
        (directed settings.now.direction (graph_of file))) }
    ensures held { IfOk result (λ kept. IfSome kept.1 (λ slots.
        AreHeld A.is_answer (directed settings.now.direction (graph_of file))
        pairs.now slots.items)) }
    ensures closed { IfOk result (λ kept. IfSome kept.1 (λ slots. All IsClosed slots.items)) }
{
    let Direction::Towards = settings.direction else {
        return Ok((file, None));
    };
    if pairs.len() > FEW || !file.knows_rows() {
        return Ok((file, None));
    }
    let n = file.n();
    let graph = file.build(rt, alloc, settings.workers)?;
    let slots = near_slots::<P, A>(alloc, &graph, pairs).unwrap_or(None);
    if slots.is_some() {
        settings.listener.hear(Progress::Graph {
            vertices: n,
            arcs: graph.m(),
        });
    }
    let arcs = graph.into_arcs();
    Ok((Network::of_lines(GrFile { n, arcs }), slots))
}

/// Finds the answers for pairs of a network with its arcs in the requested direction, in the order of the pairs.
pub(crate) fn find_slots<const P: u32, A: PairLine<P>, R: RunsTeams<P>, L: Listener>(
    rt: &R,
    alloc: Global,
    file: Network,
    pairs: &[(u32, u32)],
    settings: &Settings<P, L>,
) -> Result<Vec<PairState<A>>, AllocError>
    requires handle { R.is_shared }
    requires layout { is_layout P ≡ true }
    requires network { IsNetworkUpTo P (most_of settings.now.direction) file }
    requires pairs { All (IsPairOf file.n) pairs.now }
    ensures held { IfOk result (λ slots.
        AreHeld A.is_answer (directed settings.now.direction (graph_of file))
        pairs.now slots.items) }
    ensures closed { IfOk result (λ slots. All IsClosed slots.items) }
{
    let (file, near) = near_in::<P, A, R, L>(rt, alloc, file, pairs, settings)?;
    if let Some(slots) = near {
        return Ok(slots);
    }
    let graph = settings.build(rt, alloc, file)?;
    let uncounted = Meter::new();
    let job = settings.job(rt, &graph, &uncounted);
    find_answers::<P, A, _, L>(alloc, &job, settings.listener, pairs)
}
