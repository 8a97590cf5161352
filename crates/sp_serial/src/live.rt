//! Entries whose vertices still have their distances, and the reads for these vertices before their arcs are relaxed.
//!
//! No branch of these passes depends on a word, nor on where a row begins and ends, so their reads don't wait for one another.
ghost use Rattle.std.specs.Prelude.{◌≡◌, ◌≤◌, length, take, All};
ghost use Rattle.std.specs.Bool.{OnTrue};
ghost use Rattle.sp_serial.specs.Live.{IsTail};

use sp_bins::Entry;
use sp_graph::{Graph, look_up};
use sp_word::Word;

// Returns whether the vertex of an entry has arcs, and still has the entry's distance.
fn is_live<const P: u32>(graph: &Graph, words: &[Word<P>], entry: Entry) -> bool
    requires { length words.now ≡ graph.now.n }
    ensures { OnTrue result (IsTail graph.now entry.vertex) }
{
    let vertex = entry.vertex;
    if !graph.has_vertex(vertex) {
        return false;
    }
    let has_dist = look_up(words, vertex).dist() == Some(entry.dist);
    has_dist & graph.has_arcs(vertex)
}

/// Returns the number of entries whose vertex has arcs and still has the entry's distance. In doing so it reads, for all entries,
/// the vertex's word, and its places or where its row begins and ends.
pub(crate) fn count_live<const P: u32>(graph: &Graph, words: &[Word<P>], entries: &[Entry]) -> usize
    requires { length words.now ≡ graph.now.n }
{
    let mut live: usize = 0;
    for entry in entries {
        live = live.wrapping_add(usize::from(is_live(graph, words, *entry)));
    }
    live
}

/// Writes the vertices that have arcs and still have their entry's distance to the front of a list, and returns their number. The
/// places behind them hold other numbers.
pub(crate) fn take_live<const P: u32>(
    graph: &Graph,
    words: &[Word<P>],
    entries: &[Entry],
    vertices: &mut [u32],
) -> usize
    requires words { length words.now ≡ graph.now.n }
    requires room { length entries.now ≤ length vertices.old }
    ensures count { result ≤ length vertices.new }
    ensures tails { All (IsTail graph.now) (take result vertices.new) }
{
    let mut live: usize = 0;
    for entry in entries {
        vertices[live] = entry.vertex;
        live += usize::from(is_live(graph, words, *entry));
    }
    live
}

// Returns the bitwise OR of the first heads of the vertices' rows, or 0 if there is no vertex.
fn first_bits(graph: &Graph, vertices: &[u32]) -> u32
    requires { All (IsTail graph.now) vertices.now }
{
    let mut bits = 0;
    for vertex in vertices {
        bits |= graph.row(*vertex)[0].head;
    }
    bits
}

// Returns the bitwise OR of the last heads of the vertices' rows, or 0 if there is no vertex.
fn last_bits(graph: &Graph, vertices: &[u32]) -> u32
    requires { All (IsTail graph.now) vertices.now }
{
    let mut bits = 0;
    for vertex in vertices {
        let row = graph.row(*vertex);
        bits |= row[row.len() - 1].head;
    }
    bits
}

/// Returns the bitwise OR of the first and last heads of the vertices' rows, or 0 if there is no vertex. In doing so it reads the
/// first and the last arc of all these rows. There are two loops, since the shorter a loop, the more of its reads are in flight
/// at once.
pub(crate) fn end_bits(graph: &Graph, vertices: &[u32]) -> u32
    requires { All (IsTail graph.now) vertices.now }
{
    first_bits(graph, vertices) | last_bits(graph, vertices)
}
