//! The limits on the number of vertices, on vertices, places and distances.
ghost use Rattle.std.specs.Prelude.{◌≡◌, ◌≤◌, ◌*◌, ◌↔◌, IsTrue, IfSome, IfNone, All};
ghost use Rattle.sp_paths.specs.Paths.{IsVertex};
ghost use Rattle.sp_lists.specs.Limits.{IsCount, IsFirstWithout, reach};

const MOST_VERTICES: u32 = 4_294_967_294;

/// Returns whether a graph may have `n` vertices.
pub fn is_count(n: u32) -> bool
    ensures { IsTrue result ↔ IsCount n }
{
    1 <= n && n <= MOST_VERTICES
}

/// Returns whether a graph of `n` vertices has this vertex.
pub fn is_vertex(n: u32, vertex: u32) -> bool
    ensures { IsTrue result ↔ IsVertex n vertex }
{
    1 <= vertex && vertex <= n
}

/// Returns the index of the first number in a list that is no vertex of a graph of `n` vertices, if there is one.
pub fn first_non_vertex(n: u32, vertices: &[u32]) -> Option<usize>
    ensures first { IfSome result (IsFirstWithout (IsVertex n) vertices.now) }
    ensures none { IfNone result (All (IsVertex n) vertices.now) }
{
    for (place, vertex) in vertices.iter().enumerate() {
        if !is_vertex(n, *vertex) {
            return Some(place);
        }
    }
    None
}

/// Returns whether there are places for `rows` rows of `columns` places each.
pub fn fits(rows: usize, columns: usize, places: usize) -> bool
    ensures { IsTrue result ↔ (rows * columns ≤ places) }
{
    match rows.checked_mul(columns) {
        Some(needed) => needed <= places,
        None => false,
    }
}

/// Returns the greatest distance in a graph of `n` vertices, in the layout with the fewest bits for a predecessor.
pub fn reach(n: u32) -> u64
    requires { IsCount n }
    ensures { result ≡ reach n }
{
    if n <= 1_048_574 {
        17_592_186_044_414
    } else if n <= 16_777_214 {
        1_099_511_627_774
    } else if n <= 268_435_454 {
        68_719_476_734
    } else {
        4_294_967_294
    }
}
