//! Checks that entries' vertices still have their distances, and reads ahead what relaxing them needs.
ghost use Rattle.std.specs.Prelude.{◌≡◌, ℕ, All, IfSome, IsTrue};
ghost use Rattle.sp_word.specs.Word.{Pair};
ghost use Rattle.sp_paths.specs.Paths.{IsVertex};
ghost use Rattle.sp_offer.specs.Order.{lawful};
ghost use Rattle.sp_team.specs.Law.{IsReady};
ghost use Rattle.sp_team.specs.Later.{IsLater};
ghost use Rattle.sp_team.specs.Live.{LeadsOn, MayHave};

use sp_bins::Entry;
use sp_graph::Graph;
use sp_offer::{Caller, Lawful, OfferTable};

/// Reads the distance of a vertex, if it is reached. The law allows the vertex that distance.
pub(crate) fn read_dist<L: Lawful, const P: u32>(
    table: &OfferTable<L, P>,
    vertex: u32,
    caller: &mut Caller,
) -> Option<u64>
    requires vertex { IsVertex table.now.vertices vertex }
    requires caller { caller.old.table ≡ table.now.id }
    ensures later { IsLater (lawful P (L.allows table.now.law)) caller.old caller.new }
    ensures lawful { IfSome result
        (λ dist. (pred : ℕ) × lawful P (L.allows table.now.law) vertex (Pair dist pred)) }
{
    table.read(caller, vertex).dist()
}

/// Whether the vertex of an entry still has the entry's distance.
pub(crate) fn is_live<L: Lawful, const P: u32>(
    graph: &Graph,
    table: &OfferTable<L, P>,
    entry: Entry,
    caller: &mut Caller,
) -> bool
    requires ready { IsReady P (lawful P (L.allows table.now.law)) table.now.vertices graph.now }
    requires caller { caller.old.table ≡ table.now.id }
    ensures later { IsLater (lawful P (L.allows table.now.law)) caller.old caller.new }
    ensures dist { IsTrue result
        → MayHave (lawful P (L.allows table.now.law)) entry }
{
    graph.has_vertex(entry.vertex) && read_dist(table, entry.vertex, caller) == Some(entry.dist)
}

/// Whether an arc leaves the vertex of an entry.
pub(crate) fn leads_on(graph: &Graph, entry: Entry) -> bool
    ensures { IsTrue result → LeadsOn graph.now entry }
{
    graph.has_vertex(entry.vertex) && graph.has_arcs(entry.vertex)
}

/// Reads the words of the entries' vertices, and their places or where their rows begin and end, to bring both into the cache. These
/// reads don't wait for one another. Returns for how many entries an arc leaves the vertex.
pub(crate) fn warm_vertices<L: Lawful, const P: u32>(
    graph: &Graph,
    table: &OfferTable<L, P>,
    entries: &[Entry],
    caller: &mut Caller,
) -> usize
    requires ready { IsReady P (lawful P (L.allows table.now.law)) table.now.vertices graph.now }
    requires caller { caller.old.table ≡ table.now.id }
    ensures { IsLater (lawful P (L.allows table.now.law)) caller.old caller.new }
{
    let mut leading: usize = 0;
    for entry in entries {
        if graph.has_vertex(entry.vertex) {
            let _ = read_dist(table, entry.vertex, caller);
            leading = leading.wrapping_add(usize::from(graph.has_arcs(entry.vertex)));
        }
    }
    leading
}

// Returns the bitwise or of the first heads in the rows of the entries' vertices; 0 if there is no entry.
fn first_bits(graph: &Graph, entries: &[Entry]) -> u32
    requires { All (LeadsOn graph.now) entries.now }
{
    let mut bits = 0;
    for entry in entries {
        bits |= graph.row(entry.vertex)[0].head;
    }
    bits
}

// Returns the bitwise or of the last heads in the rows of the entries' vertices; 0 if there is no entry.
fn last_bits(graph: &Graph, entries: &[Entry]) -> u32
    requires { All (LeadsOn graph.now) entries.now }
{
    let mut bits = 0;
    for entry in entries {
        let row = graph.row(entry.vertex);
        bits |= row[row.len() - 1].head;
    }
    bits
}

/// Returns the bitwise or of the first and last heads in the rows of the entries' vertices, which reads where each row begins and
/// ends; 0 if there is no entry. It uses two loops, because the shorter a loop, the more of its reads are in flight at once.
pub(crate) fn end_bits(graph: &Graph, entries: &[Entry]) -> u32
    requires { All (LeadsOn graph.now) entries.now }
{
    first_bits(graph, entries) | last_bits(graph, entries)
}
