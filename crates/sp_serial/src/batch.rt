//! Processes many entries at a time.
//!
//! If entries were processed one by one, each would wait for its word, its row and the words of its heads, since the next step
//! depends on them. Many entries are therefore processed together, in several passes. Each pass reads, for all of them, the data
//! whose places the pass before has found.
ghost use Rattle.std.specs.Prelude.{◌≡◌, ◌<◌, ◌≤◌, ◌++◌, true, false, length, take, vec_len, All, IsTrue, OnOk};
ghost use Rattle.sp_word.specs.Word.{is_layout, max_pred};
ghost use Rattle.sp_paths.specs.Paths.{IsArc, IsVertex};
ghost use Rattle.sp_paths.specs.Rows.{row_of};
ghost use Rattle.sp_serial.specs.Live.{IsTail};
ghost use Rattle.sp_serial.specs.Lowers.{AreArcs, CanLower, HasLowered};

use crate::live::{count_live, end_bits, take_live};
use crate::table::Table;
use sp_bins::{Bins, Entry};
use sp_graph::{Graph, look_up};
use sp_judge::is_arc_relaxed;
use sp_paths::Arc;
use sp_word::Word;
use std::alloc::{AllocError, Global};

// At most this many entries are processed together.
const STRETCH: usize = 64;

// Fewer entries than this are processed one by one.
const FEW: usize = 8;

// The words of fewer vertices than this fit in the caches of a core, so that reads hardly wait: all entries are then processed one
// by one.
const FAR: usize = 32_768;

// At most this many arcs are relaxed together.
const MOST: usize = 256;

// A row of at most this many arcs is added to the waiting arcs without a branch for each arc. A vertex has as many places.
const FEW_ARCS: usize = 4;

/// Memory for the entries that are processed together.
#[derive(Drop)]
pub(crate) struct BatchBuffers {
    // Room for the vertices that still have the distance of their entry.
    vertices: Vec<u32>,
    // Arcs of these vertices that wait to be relaxed.
    arcs: Vec<Arc>,
}

impl BatchBuffers {
    /// Returns an empty one, which grows as it is used.
    pub(crate) fn new(alloc: Global) -> BatchBuffers {
        BatchBuffers {
            vertices: Vec::new(alloc),
            arcs: Vec::new(alloc),
        }
    }
}

// Returns whether all arcs lead to sources, whose words no arc lowers. In doing so it reads the words of all heads: the shorter a
// loop, the more of its reads are in flight at once.
fn lead_to_sources<const P: u32>(words: &[Word<P>], arcs: &[Arc]) -> bool
    requires { All (IsArc (length words.now)) arcs.now }
{
    let mut bits: u64 = 0;
    for arc in arcs {
        bits |= look_up(words, arc.head).bits();
    }
    bits == 0
}

// Drops the relaxed arcs, which are most of the arcs. No branch depends on a head's word.
fn drop_relaxed<const P: u32>(graph: &Graph, words: &[Word<P>], arcs: &mut Vec<Arc>)
    requires layout { is_layout P ≡ true }
    requires room { graph.now.n ≤ max_pred P }
    requires size { length words.now ≡ graph.now.n }
    requires arcs { AreArcs graph.now arcs.old.items }
    ensures { AreArcs graph.now arcs.new.items }
{
    // The graph's arcs lead from vertices to vertices.
    let _ = graph.n();
    if lead_to_sources(words, arcs) {
        arcs.clear();
        return;
    }
    let mut kept: usize = 0;
    for place in 0..arcs.len() {
        let arc = arcs[place];
        let is_kept = !is_arc_relaxed(words, arc, look_up(words, arc.tail));
        arcs[kept] = arc;
        kept += usize::from(is_kept);
    }
    arcs.truncate(kept);
}

// Relaxes the waiting arcs, one after the other, and empties their list. Heads that came nearer are added to buckets.
fn relax_waiting<T: Table<P>, const P: u32>(
    graph: &Graph,
    arcs: &mut Vec<Arc>,
    table: &mut T,
    bins: &mut Bins,
) -> Result<(), AllocError>
    requires words { CanLower P graph.now (T.labels table.old) (T.IsKept table.old) }
    requires arcs { AreArcs graph.now arcs.old.items }
    ensures words { HasLowered P graph.now
        (T.labels table.old) (T.labels table.new) (T.IsKept table.new) }
    ensures arcs { OnOk result (AreArcs graph.now arcs.new.items) }
{
    // The graph's arcs lead from vertices to vertices.
    let _ = graph.n();
    drop_relaxed(graph, table.words(), arcs);
    for arc in arcs.as_slice() {
        if let Some(dist) = table.lower(*arc)? {
            let head = Entry {
                vertex: arc.head,
                dist,
            };
            bins.put_head(head, dist.saturating_sub(u64::from(arc.len)))?;
        }
    }
    arcs.clear();
    Ok(())
}

// Relaxes the waiting arcs, if there are as many as may wait.
fn relax_full<T: Table<P>, const P: u32>(
    graph: &Graph,
    arcs: &mut Vec<Arc>,
    table: &mut T,
    bins: &mut Bins,
) -> Result<(), AllocError>
    requires words { CanLower P graph.now (T.labels table.old) (T.IsKept table.old) }
    requires arcs { AreArcs graph.now arcs.old.items }
    ensures words { HasLowered P graph.now
        (T.labels table.old) (T.labels table.new) (T.IsKept table.new) }
    ensures arcs { OnOk result (AreArcs graph.now arcs.new.items) }
{
    if arcs.len() < MOST {
        return Ok(());
    }
    relax_waiting(graph, arcs, table, bins)
}

// Appends the first `count` of four arcs if there is room, and returns whether it did. It appends all four, and then drops the
// surplus, so that no branch depends on the number of arcs.
#[inline(always)]
fn put_four(four: [Arc; 4], count: usize, arcs: &mut Vec<Arc>) -> bool
    requires { count ≤ 4 }
    ensures put { IsTrue result → arcs.new.items ≡ arcs.old.items ++ take count four }
    ensures refused { result ≡ false → arcs.new ≡ arcs.old }
{
    let before = arcs.len();
    if arcs.capacity().saturating_sub(before) < FEW_ARCS {
        return false;
    }
    arcs.push_reserved(four[0]);
    arcs.push_reserved(four[1]);
    arcs.push_reserved(four[2]);
    arcs.push_reserved(four[3]);
    arcs.truncate(before + count);
    true
}

// Appends the arcs of a row if they are few and there is room, and returns whether it did.
#[inline(always)]
fn put_few(row: &[Arc], arcs: &mut Vec<Arc>) -> bool
    requires { 0 < length row.now }
    ensures put { IsTrue result → arcs.new.items ≡ arcs.old.items ++ row.now }
    ensures refused { result ≡ false → arcs.new ≡ arcs.old }
{
    let last = row.len() - 1;
    if last >= FEW_ARCS {
        return false;
    }
    let four = [row[0], row[last.min(1)], row[last.min(2)], row[last]];
    put_four(four, row.len(), arcs)
}

// Appends the arcs of a vertex if they are few and there is room, and returns whether it did.
#[inline(always)]
fn put_at_once(graph: &Graph, vertex: u32, arcs: &mut Vec<Arc>) -> bool
    requires { IsTail graph.now vertex }
    ensures put { IsTrue result → arcs.new.items ≡ arcs.old.items ++ row_of graph.now.arcs vertex }
    ensures refused { result ≡ false → arcs.new ≡ arcs.old }
{
    match graph.few(vertex) {
        Some(few) => put_four(few.arcs(vertex), few.count(), arcs),
        None => put_few(graph.row(vertex), arcs),
    }
}

// Appends the arcs of a vertex to the waiting arcs, one after the other.
fn put_each<T: Table<P>, const P: u32>(
    graph: &Graph,
    vertex: u32,
    arcs: &mut Vec<Arc>,
    table: &mut T,
    bins: &mut Bins,
) -> Result<(), AllocError>
    requires vertex { IsVertex graph.now.n vertex }
    requires words { CanLower P graph.now (T.labels table.old) (T.IsKept table.old) }
    requires arcs { AreArcs graph.now arcs.old.items }
    ensures words { HasLowered P graph.now
        (T.labels table.old) (T.labels table.new) (T.IsKept table.new) }
    ensures arcs { OnOk result (AreArcs graph.now arcs.new.items) }
{
    for arc in graph.row(vertex) {
        relax_full(graph, arcs, table, bins)?;
        arcs.push(*arc)?;
    }
    Ok(())
}

// Appends the arcs of a vertex to the waiting arcs.
fn put_row<T: Table<P>, const P: u32>(
    graph: &Graph,
    vertex: u32,
    arcs: &mut Vec<Arc>,
    table: &mut T,
    bins: &mut Bins,
) -> Result<(), AllocError>
    requires tail { IsTail graph.now vertex }
    requires words { CanLower P graph.now (T.labels table.old) (T.IsKept table.old) }
    requires arcs { AreArcs graph.now arcs.old.items }
    ensures words { HasLowered P graph.now
        (T.labels table.old) (T.labels table.new) (T.IsKept table.new) }
    ensures arcs { OnOk result (AreArcs graph.now arcs.new.items) }
{
    let is_put = put_at_once(graph, vertex, arcs);
    if is_put {
        relax_full(graph, arcs, table, bins)
    } else {
        put_each(graph, vertex, arcs, table, bins)
    }
}

// Relaxes the arcs of the vertices.
fn relax_live<T: Table<P>, const P: u32>(
    graph: &Graph,
    vertices: &[u32],
    arcs: &mut Vec<Arc>,
    table: &mut T,
    bins: &mut Bins,
) -> Result<(), AllocError>
    requires vertices { All (IsTail graph.now) vertices.now }
    requires words { CanLower P graph.now (T.labels table.old) (T.IsKept table.old) }
    ensures { HasLowered P graph.now
        (T.labels table.old) (T.labels table.new) (T.IsKept table.new) }
{
    arcs.clear();
    arcs.reserve(MOST + FEW_ARCS)?;
    for vertex in vertices {
        put_row(graph, *vertex, arcs, table, bins)?;
    }
    relax_waiting(graph, arcs, table, bins)
}

// Relaxes the arcs of a row, whose tail has this distance. Heads that came nearer are added to buckets.
fn relax_arcs<T: Table<P>, const P: u32>(
    graph: &Graph,
    row: &[Arc],
    dist: u64,
    table: &mut T,
    bins: &mut Bins,
) -> Result<(), AllocError>
    requires arcs { AreArcs graph.now row.now }
    requires words { CanLower P graph.now (T.labels table.old) (T.IsKept table.old) }
    ensures { HasLowered P graph.now
        (T.labels table.old) (T.labels table.new) (T.IsKept table.new) }
{
    // The graph's arcs lead from vertices to vertices.
    let _ = graph.n();
    for arc in row {
        if let Some(found) = table.lower(*arc)? {
            let head = Entry {
                vertex: arc.head,
                dist: found,
            };
            bins.put_head(head, dist)?;
        }
    }
    Ok(())
}

// Relaxes the arcs of an entry's vertex, if the vertex still has the entry's distance. Heads that came nearer are added to
// buckets.
fn relax_row<T: Table<P>, const P: u32>(
    graph: &Graph,
    entry: Entry,
    table: &mut T,
    bins: &mut Bins,
) -> Result<(), AllocError>
    requires { CanLower P graph.now (T.labels table.old) (T.IsKept table.old) }
    ensures { HasLowered P graph.now
        (T.labels table.old) (T.labels table.new) (T.IsKept table.new) }
{
    let Entry { vertex, dist } = entry;
    if !graph.has_vertex(vertex) || look_up(table.words(), vertex).dist() != Some(dist) {
        return Ok(());
    }
    match graph.few(vertex) {
        Some(few) => relax_arcs(graph, &few.arcs(vertex)[..few.count()], dist, table, bins),
        None => relax_arcs(graph, graph.row(vertex), dist, table, bins),
    }
}

// Relaxes the arcs of the vertex of each entry.
fn relax_each<T: Table<P>, const P: u32>(
    graph: &Graph,
    entries: &[Entry],
    table: &mut T,
    bins: &mut Bins,
) -> Result<(), AllocError>
    requires { CanLower P graph.now (T.labels table.old) (T.IsKept table.old) }
    ensures { HasLowered P graph.now
        (T.labels table.old) (T.labels table.new) (T.IsKept table.new) }
{
    for entry in entries {
        relax_row(graph, *entry, table, bins)?;
    }
    Ok(())
}

// Extends a list to `count` places, if it is shorter.
fn make_room(vertices: &mut Vec<u32>, count: usize) -> Result<(), AllocError>
    ensures { OnOk result (count ≤ vec_len vertices.new) }
{
    if vertices.len() < count {
        vertices.resize(count, 0)?;
    }
    Ok(())
}

// Relaxes the arcs of those vertices that still have their entry's distance.
fn relax_some<T: Table<P>, const P: u32>(
    graph: &Graph,
    entries: &[Entry],
    batch: &mut BatchBuffers,
    table: &mut T,
    bins: &mut Bins,
) -> Result<(), AllocError>
    requires { CanLower P graph.now (T.labels table.old) (T.IsKept table.old) }
    ensures { HasLowered P graph.now
        (T.labels table.old) (T.labels table.new) (T.IsKept table.new) }
{
    if entries.len() < FEW {
        return relax_each(graph, entries, table, bins);
    }
    // The vertices are counted before they are taken, since counting only reads. Taking them writes each vertex to a place that
    // depends on the words read before, and on many processors no later read begins while the place of a write isn't known.
    if count_live(graph, table.words(), entries) == 0 {
        return Ok(());
    }
    let BatchBuffers { vertices, arcs } = batch;
    make_room(vertices, entries.len())?;
    let live = take_live(graph, table.words(), entries, vertices);
    let live = &vertices[..live];
    if !graph.has_places() && end_bits(graph, live) == 0 {
        return Ok(());
    }
    relax_live(graph, live, arcs, table, bins)
}

/// Relaxes the arcs of the vertex of each entry, if the vertex still has the entry's distance. Heads that came nearer are added
/// to buckets.
pub(crate) fn relax_rows<T: Table<P>, const P: u32>(
    graph: &Graph,
    entries: &[Entry],
    batch: &mut BatchBuffers,
    table: &mut T,
    bins: &mut Bins,
) -> Result<(), AllocError>
    requires { CanLower P graph.now (T.labels table.old) (T.IsKept table.old) }
    ensures { HasLowered P graph.now
        (T.labels table.old) (T.labels table.new) (T.IsKept table.new) }
{
    if table.words().len() < FAR {
        return relax_each(graph, entries, table, bins);
    }
    for some in entries.chunks(STRETCH) {
        relax_some(graph, some, batch, table, bins)?;
    }
    Ok(())
}
