//! Roots for the rows of a part within a limit.
ghost use Rattle.std.specs.Prelude.{◌≡◌, ◌<◌, ℕ, length, slice_index_or, IfOk, IfSome};
ghost use Rattle.std.specs.Bool.{OnTrue};
ghost use Rattle.sp_word.specs.Word.{Word as Label};
ghost use Rattle.sp_answer.specs.Table.{table_of};
ghost use Rattle.sp_paths.specs.Roots.{IsRoot};
ghost use Rattle.sp_serial.specs.Rooted.{AreKnownRoots, IsForestOf, IsRowAt, HasRow};

use sp_answer::{Forest, Tree};
use sp_word::Word;
use std::alloc::{AllocError, Global};

// Returns the place of a vertex's row, if it has one.
fn place_of<const P: u32>(rows: &[(u32, Word<P>)], vertex: u32) -> Option<usize>
    ensures { IfSome result (IsRowAt rows.now vertex) }
{
    match rows.binary_search_by_key(
        &vertex,
        |row: &(u32, Word<P>)| -> u32
            ensures { result ≡ row.now.0 }
        { row.0 },
    ) {
        Ok(place) if place < rows.len() && rows[place].0 == vertex => Some(place),
        _ => None,
    }
}

// Returns a row of the tree.
fn row_at<const P: u32>(tree: &Tree<P>, place: usize) -> (u32, Word<P>)
    requires { place < length tree.now.rows }
    ensures { (none : ℕ × Label) → slice_index_or tree.now.rows place none ≡ result }
{
    tree.rows()[place]
}

// Returns the root of a row's vertex: the vertex itself if it is a source, and otherwise the root of its predecessor, or 0 if
// that isn't known.
fn root_of<const P: u32>(tree: &Tree<P>, roots: &[u32], place: usize) -> u32
    requires place { place < length tree.now.rows }
    requires known { AreKnownRoots tree.now roots.now }
    ensures { 0 < result → (none : ℕ × Label)
        → IsRoot (table_of tree.now) (slice_index_or tree.now.rows place none).0 result }
{
    let rows = tree.rows();
    let row = row_at(tree, place);
    let (Some(dist), Some(pred)) = (row.1.dist(), row.1.pred()) else {
        return 0;
    };
    if dist == 0 {
        if pred == 0 {
            return row.0;
        }
        return 0;
    }
    match place_of(rows, pred) {
        Some(before) => roots[before],
        None => 0,
    }
}

// Returns the places of the rows by rising distance, so that each comes after that of its predecessor.
fn by_distance<const P: u32>(
    alloc: Global,
    rows: &[(u32, Word<P>)],
) -> Result<Vec<(u64, usize)>, AllocError> {
    let mut order = Vec::with_capacity(alloc, rows.len())?;
    for (place, row) in rows.iter().enumerate() {
        if let Some(dist) = row.1.dist() {
            order.push((dist, place))?;
        }
    }
    order.sort_unstable();
    Ok(order)
}

// Writes the root of a row into the list, if it is known.
fn put_root<const P: u32>(tree: &Tree<P>, roots: &mut [u32], place: usize)
    requires { AreKnownRoots tree.now roots.old }
    ensures { AreKnownRoots tree.entry.now roots.new }
{
    if place < roots.len() {
        roots[place] = root_of(tree, roots, place);
    }
}

// Writes the roots of the rows into the list, in this order of their places.
fn fill_roots<const P: u32>(tree: &Tree<P>, order: &[(u64, usize)], roots: &mut [u32])
    requires { AreKnownRoots tree.now roots.old }
    ensures { AreKnownRoots tree.entry.now roots.new }
{
    for entry in order {
        put_root(tree, roots, entry.1);
    }
}

// Returns the roots of the rows, in the order of the rows; 0 for a root that isn't known.
fn roots_of<const P: u32>(alloc: Global, tree: &Tree<P>) -> Result<Vec<u32>, AllocError>
    ensures { IfOk result (λ roots. AreKnownRoots tree.now roots.items) }
{
    let order = by_distance(alloc, tree.rows())?;
    let mut roots = vec![in alloc; 0; tree.rows().len()]?;
    fill_roots(tree, order.as_slice(), roots.as_mut_slice());
    Ok(roots)
}

// Appends a row with its root, if the root is known. Returns whether it did.
fn push_rooted<const P: u32>(
    forest: &mut Forest<P>,
    vertex: u32,
    word: Word<P>,
    root: u32,
) -> Result<bool, AllocError>
    ensures row { IfOk result (λ pushed.
        OnTrue pushed (HasRow forest.old vertex word.entry root forest.new)) }
    ensures root { IfOk result (λ pushed. OnTrue pushed (0 < root)) }
{
    let (Some(dist), Some(pred)) = (word.dist(), word.pred()) else {
        return Ok(false);
    };
    let n = forest.n();
    if root == 0 || root > n || pred > n || vertex > n || vertex <= forest.last() {
        return Ok(false);
    }
    forest.push_row(vertex, dist, pred, root)?;
    Ok(true)
}

// Returns the forest of the rows with these roots, if all roots are known.
fn forest_of<const P: u32>(
    alloc: Global,
    tree: &Tree<P>,
    roots: &[u32],
) -> Result<Option<Forest<P>>, AllocError>
    requires known { AreKnownRoots tree.now roots.now }
    ensures { IfOk result (λ found. IfSome found (IsForestOf tree.now)) }
{
    let mut forest = Forest::bare(alloc, tree.n());
    for place in 0..tree.rows().len() {
        let row = row_at(tree, place);
        if !push_rooted(&mut forest, row.0, row.1, roots[place])? {
            return Ok(None);
        }
    }
    Ok(Some(forest))
}

/// Returns the rows of a part with the root of each: where its chain of predecessors begins. It takes time only for the rows.
pub(crate) fn rooted<const P: u32>(
    alloc: Global,
    tree: &Tree<P>,
) -> Result<Option<Forest<P>>, AllocError>
    ensures { IfOk result (λ found. IfSome found (IsForestOf tree.now)) }
{
    let roots = roots_of(alloc, tree)?;
    forest_of(alloc, tree, roots.as_slice())
}
