//! The functions that C calls.
ghost use Rattle.std.specs.Prelude.{◌≡◌, ◌≢◌, ◌∷◌, [], Result};
ghost use Rattle.std.specs.declared.option.Option.TheVariants.{None};
ghost use Rattle.spt_c.specs.Place.{kept, IsInUse, IsFree, IsSame};
ghost use Rattle.spt_c.specs.InUse.{answer_in_use, batch_in_use, part_in_use, found_in_use, route_in_use, counts_in_use, packed_in_use, saved_in_use};
ghost use Rattle.sp_lists.specs.Limits.{IsCount, reach};
ghost use Rattle.sp_lists.specs.Blocks.{slices, KeepsFrom};
ghost use Rattle.sp_lists.specs.ForestQuestion.{lists};
ghost use Rattle.sp_lists.specs.Listed.{listing};
ghost use Rattle.sp_lists.specs.declared.outcomes.BatchOutcome.{BatchOutcome};
ghost use Rattle.sp_lists.specs.declared.outcomes.ListingOutcome.{ListingOutcome};
ghost use Rattle.sp_lists.specs.declared.outcomes.Outcome.{Outcome};
ghost use Rattle.sp_lists.specs.declared.cells.Cell.{Cell};
ghost use Rattle.sp_lists.specs.declared.routes.RouteSize.{RouteSize};
ghost use Rattle.sp_lists.specs.Routes.{route_slices};
ghost use Rattle.spt_c.specs.Asked.{asked};
ghost use Rattle.spt_c.specs.Outcome.{IsTold, answer_of, batch_of};
ghost use Rattle.spt_c.specs.Checked.{IsChecked};
ghost use Rattle.spt_c.specs.KeptLists.{limit_of, part_of, IsPartOfKept, IsListOfKept, IsForestOfKept, IsMatrixOfKept};
ghost use Rattle.spt_c.specs.Found.{IsFound, IsFoundOfKept, found_of};
ghost use Rattle.spt_c.specs.Routes.{route_of, IsRouteOfKept, AreRoutesOfKept};
ghost use Rattle.spt_c.specs.Texts.{IsRead, text_of};
ghost use Rattle.spt_c.specs.Kept.{made_of, IsMade, IsShared, counts_of, IsToldOfKept};
ghost use Rattle.sp_network.specs.Turned.{IsTurned, IsBothWays};
ghost use Rattle.spt_c.specs.Turning.{IsMadeFrom};
ghost use Rattle.spt_c.specs.Packing.{IsLoaded, IsSaved, packed_of, saved_of};
ghost use Rattle.spt_c.specs.declared.making.KeepOutcome.{KeepOutcome};
ghost use Rattle.spt_c.specs.declared.packing.LoadAnswer.{LoadAnswer};
ghost use Rattle.spt_c.specs.declared.packing.SaveAnswer.{SaveAnswer};
ghost use Rattle.spt_c.specs.declared.texts.TextAnswer.{TextAnswer};

use crate::answers::{SptAnswer, SptBatch, SptPart};
use crate::arcs::SptArc;
use crate::calls::{TreesRequest, limit_of, solve, solve_known};
use crate::checking::check;
use crate::counts::{SptCounts, counts};
use crate::found::{SptFound, find, find_known};
use crate::kept::of_kept;
use crate::making::{clear, make, share};
use crate::packing::{SaveAnswer, SptPacked, SptSaved, load, save};
use crate::place::{KeptGraph, Taken};
use crate::routes::SptRoute;
use crate::texts::{SptText, read_graph};
use crate::turning::{keep_both_ways, keep_turned};
use sp_lists::{
    BatchOutcome, ForestQuestion, ListingOutcome, Outcome, PartQuestion, RoutesQuestion, is_count,
    list_part, reach, write_forest, write_matrix, write_part, write_route, write_routes,
};
use std::alloc::Global;

/// Returns the library's version as a number: 10,000 times its first part plus 100 times its second part.
#[unsafe(no_mangle)]
pub extern "C" fn spt_version() -> u32
    ensures { result ≡ 10600 }
{
    10_600
}

/// Returns the greatest distance in a graph of n vertices, or 0 if no graph can have n vertices.
#[unsafe(no_mangle)]
pub extern "C" fn spt_reach(n: u32) -> u64
    ensures some { IsCount n → result ≡ reach n }
    ensures none { (IsCount n → ⊥) → result ≡ 0 }
{
    if is_count(n) { reach(n) } else { 0 }
}

/// Writes the shortest-path tree from a source. If there is none, returns why, and writes nothing. Each slice needs a
/// place for each vertex. Delta is tested, and has no other effect.
#[unsafe(no_mangle)]
pub extern "C" fn spt_tree(
    alloc: Global,
    arcs: &[SptArc],
    n: u32,
    source: u32,
    delta: u64,
    dist: &mut [u64],
    pred: &mut [u32],
) -> SptAnswer
    ensures told { (batch : BatchOutcome) × (result ≡ answer_of batch.told)
        × IsTold (asked arcs.now n (source ∷ []) delta)
        (slices dist.old pred.old) (slices dist.new pred.new) batch }
    ensures unchanged { result.status ≢ 0
        → KeepsFrom 0 (slices dist.old pred.old) (slices dist.new pred.new) }
{
    let sources = [source];
    let question = TreesRequest {
        arcs,
        n,
        sources: &sources,
        delta,
    };
    let batch = solve(alloc, &question, dist, pred);
    SptAnswer::of(batch.told)
}

/// Writes the shortest-path trees from several sources, up to the first source that has none. For each source, each
/// slice needs a block with a place for each vertex.
#[unsafe(no_mangle)]
pub extern "C" fn spt_trees(
    alloc: Global,
    arcs: &[SptArc],
    n: u32,
    sources: &[u32],
    delta: u64,
    dist: &mut [u64],
    pred: &mut [u32],
) -> SptBatch
    ensures { (batch : BatchOutcome) × (result ≡ batch_of batch)
        × IsTold (asked arcs.now n sources.now delta)
        (slices dist.old pred.old) (slices dist.new pred.new) batch }
{
    let wanted = TreesRequest {
        arcs,
        n,
        sources,
        delta,
    };
    let batch = solve(alloc, &wanted, dist, pred);
    SptBatch::of(batch)
}

/// Reads the graph in the text of a `.gr` file, and writes its arcs to the slice; or reports the first error in the
/// text.
#[unsafe(no_mangle)]
pub extern "C" fn spt_gr(alloc: Global, text: &[u8], arcs: &mut [SptArc]) -> SptText
    ensures { (read : TextAnswer) × (result ≡ text_of read)
        × IsRead text.now arcs.old arcs.new read }
{
    let read = read_graph(alloc, text, arcs);
    read.told()
}

/// Returns the distance and the predecessor of a target in the shortest-path tree from a source, or why there are none.
/// The run ends as soon as they are known. Delta is tested, and has no other effect.
#[unsafe(no_mangle)]
pub extern "C" fn spt_pair(
    alloc: Global,
    arcs: &[SptArc],
    n: u32,
    source: u32,
    target: u32,
    delta: u64,
) -> SptFound
    ensures { (found : Result Cell Outcome) × (result ≡ found_of found)
        × IsFound n arcs.now source target delta found }
{
    let found = find(alloc, arcs, n, source, target, delta);
    SptFound::of(found)
}

/// Checks whether the slices hold the shortest-path tree from a source. If they don't, returns the first vertex where
/// they differ from it.
#[unsafe(no_mangle)]
pub extern "C" fn spt_check(
    alloc: Global,
    arcs: &[SptArc],
    n: u32,
    source: u32,
    dist: &[u64],
    pred: &[u32],
) -> SptAnswer
    ensures { (told : Outcome) × (result ≡ answer_of told)
        × IsChecked n arcs.now source (slices dist.now pred.now) told }
{
    let told = check(alloc, arcs, n, source, dist, pred);
    SptAnswer::of(told)
}

/// Keeps the graph of n vertices with these arcs, in place of what was kept. If that fails, the status says why, and
/// the place keeps what it kept.
#[unsafe(no_mangle)]
pub extern "C" fn spt_graph_new(
    alloc: Global,
    arcs: &[SptArc],
    n: u32,
    graph: &mut KeptGraph,
) -> SptAnswer
    ensures in_use { IsInUse graph.old → (result ≡ answer_in_use) × (graph.new ≡ graph.old) }
    ensures made { IsFree graph.old → (made : KeepOutcome) × (result ≡ made_of made)
        × IsMade n arcs.now (kept graph.old) (kept graph.new) made }
    ensures free { IsFree graph.old → IsFree graph.new }
{
    let made = make(alloc, arcs, n, graph);
    made.answer()
}

/// Keeps the same graph in a second place as well, in place of what that place kept. Each place may be used by a thread
/// of its own. If there is no memory, both places keep what they kept.
#[unsafe(no_mangle)]
pub extern "C" fn spt_graph_share(
    alloc: Global,
    from: &mut KeptGraph,
    to: &mut KeptGraph,
) -> SptAnswer
    ensures in_use_from { IsInUse from.old → (result ≡ answer_in_use) × IsSame to.old to.new }
    ensures in_use_to { IsInUse to.old → (result ≡ answer_in_use) × IsSame to.old to.new }
    ensures to { IsFree from.old → IsFree to.old → (made : KeepOutcome) × (result ≡ made_of made)
        × IsShared (kept from.old) (kept to.old) (kept to.new) made }
    ensures free { IsFree to.old → IsFree to.new }
    ensures same { IsSame from.old from.new }
{
    let made = share(alloc, from, to);
    made.answer()
}

/// Keeps no graph any more. The memory is freed with the last place that keeps the graph. Returns the status. The contract
/// says only what the place then keeps. No clause can state that memory is freed, so a body that forgot the pointer would
/// meet it too.
#[unsafe(no_mangle)]
pub extern "C" fn spt_graph_free(alloc: Global, graph: &mut KeptGraph) -> u32
    ensures in_use { IsInUse graph.old → (result ≡ 12) × (graph.new ≡ graph.old) }
    ensures free { IsFree graph.old → (result ≡ 0) × (kept graph.new ≡ None) × IsFree graph.new }
{
    clear(alloc, graph)
}

/// Writes the shortest-path trees from several sources in the kept graph, up to the first source that has none. For
/// each source, each slice needs a block with a place for each vertex. Delta is tested, and has no other effect.
#[unsafe(no_mangle)]
pub extern "C" fn spt_graph_trees(
    alloc: Global,
    graph: &mut KeptGraph,
    sources: &[u32],
    delta: u64,
    dist: &mut [u64],
    pred: &mut [u32],
) -> SptBatch
    ensures told { IsFree graph.old → (batch : BatchOutcome) × (result ≡ batch_of batch)
        × IsToldOfKept (kept graph.old) sources.now delta
        (slices dist.old pred.old) (slices dist.new pred.new) batch }
    ensures in_use { IsInUse graph.old
        → (result ≡ batch_in_use) × (dist.new ≡ dist.old) × (pred.new ≡ pred.old) }
    ensures same { IsSame graph.old graph.new }
{
    of_kept!(alloc, graph, held => SptBatch::of(solve_known(alloc, held.prepared(), sources, delta, dist, pred)), SptBatch::of(BatchOutcome::none(Outcome::NoGraph)), SptBatch::in_use())
}

/// Returns the distance and the predecessor of a target in the shortest-path tree from a source in the kept graph, or
/// why there are none. The run ends as soon as they are known. Delta is tested, and has no other effect.
#[unsafe(no_mangle)]
pub extern "C" fn spt_graph_pair(
    alloc: Global,
    graph: &mut KeptGraph,
    source: u32,
    target: u32,
    delta: u64,
) -> SptFound
    ensures told { IsFree graph.old → (found : Result Cell Outcome) × (result ≡ found_of found)
        × IsFoundOfKept (kept graph.old) source target delta found }
    ensures in_use { IsInUse graph.old → result ≡ found_in_use }
    ensures same { IsSame graph.old graph.new }
{
    of_kept!(alloc, graph, held => SptFound::of(find_known(alloc, held.prepared(), source, target, delta)), SptFound::of(Err(Outcome::NoGraph)), SptFound::in_use())
}

/// Writes the vertices of the route from a source to a target in the kept graph to the front of the slice: those of the
/// shortest path that takes, read from the target backwards, the smallest vertex each time. If the slice has too few
/// places, writes nothing; either way the result has their number.
#[unsafe(no_mangle)]
pub extern "C" fn spt_graph_route(
    alloc: Global,
    graph: &mut KeptGraph,
    source: u32,
    target: u32,
    vertices: &mut [u32],
) -> SptRoute
    ensures told { IsFree graph.old → (size : Result RouteSize Outcome) × (result ≡ route_of size)
        × IsRouteOfKept (kept graph.old) source target vertices.old vertices.new size }
    ensures in_use { IsInUse graph.old
        → (result ≡ route_in_use) × (vertices.new ≡ vertices.old) }
    ensures same { IsSame graph.old graph.new }
{
    of_kept!(alloc, graph, held => SptRoute::of(write_route(alloc, held.prepared(), source, target, vertices)), SptRoute::of(Err(Outcome::NoGraph)), SptRoute::in_use())
}

/// Writes the routes from a source to several targets in the kept graph, by one search: each target's distance, as
/// `spt_graph_matrix` has it, the place where its route ends, and the vertices of the routes, one after another. If the
/// slice for the vertices has too few places for all of them, writes none.
#[unsafe(no_mangle)]
pub extern "C" fn spt_graph_routes(
    alloc: Global,
    graph: &mut KeptGraph,
    source: u32,
    targets: &[u32],
    dist: &mut [u64],
    ends: &mut [u64],
    vertices: &mut [u32],
) -> SptAnswer
    ensures told { IsFree graph.old → (told : Outcome) × (result ≡ answer_of told)
        × AreRoutesOfKept (kept graph.old) source targets.now
        (route_slices dist.old ends.old vertices.old)
        (route_slices dist.new ends.new vertices.new) told }
    ensures in_use { IsInUse graph.old → (result ≡ answer_in_use)
        × (dist.new ≡ dist.old) × (ends.new ≡ ends.old) × (vertices.new ≡ vertices.old) }
    ensures same { IsSame graph.old graph.new }
{
    let asked = RoutesQuestion { source, targets };
    of_kept!(alloc, graph, held => SptAnswer::of(write_routes(alloc, held.prepared(), asked, dist, ends, vertices)), SptAnswer::of(Outcome::NoGraph), SptAnswer::in_use())
}

/// Returns the numbers of vertices and arcs of the kept graph.
#[unsafe(no_mangle)]
pub extern "C" fn spt_graph_counts(alloc: Global, graph: &mut KeptGraph) -> SptCounts
    ensures counts { IsFree graph.old → result ≡ counts_of (kept graph.old) }
    ensures in_use { IsInUse graph.old → result ≡ counts_in_use }
    ensures same { IsSame graph.old graph.new }
{
    counts(alloc, graph)
}

/// Writes the part of the shortest-path tree from a source that is within the limit, in the kept graph. Each vertex
/// whose least length is at most the limit has its distance and its predecessor in the tree, and every other vertex is
/// unreached. Each slice needs a place for each vertex. Delta is tested, and has no other effect.
#[unsafe(no_mangle)]
pub extern "C" fn spt_graph_within(
    alloc: Global,
    graph: &mut KeptGraph,
    source: u32,
    limit: u64,
    delta: u64,
    dist: &mut [u64],
    pred: &mut [u32],
) -> SptAnswer
    ensures told { IsFree graph.old → (told : Outcome) × (result ≡ answer_of told)
        × IsPartOfKept (kept graph.old) source limit delta
        (slices dist.old pred.old) (slices dist.new pred.new) told }
    ensures in_use { IsInUse graph.old
        → (result ≡ answer_in_use) × (dist.new ≡ dist.old) × (pred.new ≡ pred.old) }
    ensures same { IsSame graph.old graph.new }
{
    let part = PartQuestion {
        source,
        limit,
        delta,
    };
    of_kept!(alloc, graph, held => SptAnswer::of(write_part(alloc, held.prepared(), part, dist, pred)), SptAnswer::of(Outcome::NoGraph), SptAnswer::in_use())
}

/// Lists the part of the shortest-path tree from a source that is within the limit, in the kept graph: the vertices
/// whose least length is at most the limit, in increasing order, each with its distance and its predecessor in the
/// tree. If the slices have too few places, writes nothing, and returns the number of vertices.
#[unsafe(no_mangle)]
pub extern "C" fn spt_graph_part(
    alloc: Global,
    graph: &mut KeptGraph,
    source: u32,
    limit: u64,
    vertex: &mut [u32],
    dist: &mut [u64],
    pred: &mut [u32],
) -> SptPart
    ensures told { IsFree graph.old → (listed : ListingOutcome) × (result ≡ part_of listed)
        × IsListOfKept (kept graph.old) source limit 0
        (listing vertex.old dist.old pred.old) (listing vertex.new dist.new pred.new) listed }
    ensures in_use { IsInUse graph.old → (result ≡ part_in_use)
        × (vertex.new ≡ vertex.old) × (dist.new ≡ dist.old) × (pred.new ≡ pred.old) }
    ensures same { IsSame graph.old graph.new }
{
    let part = PartQuestion {
        source,
        limit,
        delta: 0,
    };
    of_kept!(alloc, graph, held => SptPart::of(list_part(alloc, held.prepared(), part, vertex, dist, pred)), SptPart::of(ListingOutcome::none(Outcome::NoGraph)), SptPart::in_use())
}

/// Writes the forest of shortest paths from the sources in the kept graph. Each vertex gets its least distance from any
/// of the sources, the smallest vertex before it on such a walk, and its root, the source at which its chain of
/// predecessors begins. A limit leaves out the vertices that are farther; the greatest number stands for no limit. Each
/// slice needs a place for each vertex. Delta is tested, and has no other effect.
#[unsafe(no_mangle)]
pub extern "C" fn spt_graph_nearest(
    alloc: Global,
    graph: &mut KeptGraph,
    sources: &[u32],
    limit: u64,
    delta: u64,
    dist: &mut [u64],
    pred: &mut [u32],
    root: &mut [u32],
) -> SptAnswer
    ensures told { IsFree graph.old → (told : Outcome) × (result ≡ answer_of told)
        × IsForestOfKept (kept graph.old) sources.now (limit_of limit) delta
        (lists dist.old pred.old root.old) (lists dist.new pred.new root.new) told }
    ensures in_use { IsInUse graph.old → (result ≡ answer_in_use)
        × (dist.new ≡ dist.old) × (pred.new ≡ pred.old) × (root.new ≡ root.old) }
    ensures same { IsSame graph.old graph.new }
{
    let near = ForestQuestion {
        sources,
        limit: limit_of(limit),
        delta,
    };
    of_kept!(alloc, graph, held => SptAnswer::of(write_forest(alloc, held.prepared(), near, dist, pred, root)), SptAnswer::of(Outcome::NoGraph), SptAnswer::in_use())
}

/// Writes the distances of the targets from each source in the kept graph, row by row. A distance is the greatest
/// number if no walk leads to the target. It is the number before that if the target has no distance up to the greatest
/// one and some vertex is too far. The slice needs a place for each source and target. Delta is tested, and has no
/// other effect.
#[unsafe(no_mangle)]
pub extern "C" fn spt_graph_matrix(
    alloc: Global,
    graph: &mut KeptGraph,
    sources: &[u32],
    targets: &[u32],
    delta: u64,
    dist: &mut [u64],
) -> SptBatch
    ensures told { IsFree graph.old → (batch : BatchOutcome) × (result ≡ batch_of batch)
        × IsMatrixOfKept (kept graph.old) sources.now targets.now delta
        dist.old dist.new batch }
    ensures in_use { IsInUse graph.old → (result ≡ batch_in_use) × (dist.new ≡ dist.old) }
    ensures same { IsSame graph.old graph.new }
{
    of_kept!(alloc, graph, held => SptBatch::of(write_matrix(alloc, held.prepared(), sources, targets, delta, dist)), SptBatch::of(BatchOutcome::none(Outcome::NoGraph)), SptBatch::in_use())
}

/// Keeps the graph of the second place with each arc turned round, in place of what was kept. If that fails, the status
/// says why, and both places keep what they kept.
#[unsafe(no_mangle)]
pub extern "C" fn spt_graph_turned(
    alloc: Global,
    graph: &mut KeptGraph,
    from: &mut KeptGraph,
) -> SptAnswer
    ensures in_use { IsInUse graph.old → (result ≡ answer_in_use) × IsSame graph.old graph.new }
    ensures in_use_from { IsInUse from.old
        → (result ≡ answer_in_use) × IsSame graph.old graph.new }
    ensures made { IsFree graph.old → IsFree from.old
        → (made : KeepOutcome) × (result ≡ made_of made)
        × IsMadeFrom IsTurned (kept from.old) (kept graph.old) (kept graph.new) made }
    ensures free { IsFree graph.old → IsFree graph.new }
    ensures same { IsSame from.old from.new }
{
    let made = keep_turned(alloc, graph, from);
    made.answer()
}

/// Keeps the graph of the second place with each arc leading both ways, in place of what was kept. If that fails, the
/// status says why, and both places keep what they kept.
#[unsafe(no_mangle)]
pub extern "C" fn spt_graph_both_ways(
    alloc: Global,
    graph: &mut KeptGraph,
    from: &mut KeptGraph,
) -> SptAnswer
    ensures in_use { IsInUse graph.old → (result ≡ answer_in_use) × IsSame graph.old graph.new }
    ensures in_use_from { IsInUse from.old
        → (result ≡ answer_in_use) × IsSame graph.old graph.new }
    ensures made { IsFree graph.old → IsFree from.old
        → (made : KeepOutcome) × (result ≡ made_of made)
        × IsMadeFrom IsBothWays (kept from.old) (kept graph.old) (kept graph.new) made }
    ensures free { IsFree graph.old → IsFree graph.new }
    ensures same { IsSame from.old from.new }
{
    let made = keep_both_ways(alloc, graph, from);
    made.answer()
}

/// Keeps the graph that was packed into these bytes, in place of what was kept. If that fails, the result is their
/// first error, and the place keeps what it kept.
#[unsafe(no_mangle)]
pub extern "C" fn spt_graph_load(alloc: Global, graph: &mut KeptGraph, bytes: &[u8]) -> SptPacked
    ensures in_use { IsInUse graph.old → (result ≡ packed_in_use) × (graph.new ≡ graph.old) }
    ensures loaded { IsFree graph.old → (loaded : LoadAnswer) × (result ≡ packed_of loaded)
        × IsLoaded bytes.now (kept graph.old) (kept graph.new) loaded }
    ensures free { IsFree graph.old → IsFree graph.new }
{
    let loaded = load(alloc, bytes, graph);
    loaded.told()
}

/// Writes the packed form of the kept graph to the front of the slice. If the slice has too few places, writes nothing,
/// and returns the number of places that are needed.
#[unsafe(no_mangle)]
pub extern "C" fn spt_graph_save(alloc: Global, graph: &mut KeptGraph, bytes: &mut [u8]) -> SptSaved
    ensures saved { IsFree graph.old → (saved : SaveAnswer) × (result ≡ saved_of saved)
        × IsSaved (kept graph.old) bytes.old bytes.new saved }
    ensures in_use { IsInUse graph.old → (result ≡ saved_in_use) × (bytes.new ≡ bytes.old) }
    ensures same { IsSame graph.old graph.new }
{
    of_kept!(alloc, graph, held => SptSaved::of(save(alloc, held.graph(), bytes)), SptSaved::of(SaveAnswer::NoGraph), SptSaved::of(SaveAnswer::InUse))
}
