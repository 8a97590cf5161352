//! The arcs of rows.
ghost use Rattle.std.specs.Prelude.{◌≡◌, ◌≢◌, ◌+◌, ◌*◌, ◌/◌, ◌%◌, ◌^◌, ◌<◌, ◌≤◌, ◌↔◌, ◌++◌, ◌∷◌, [], ℕ, List, true, false, length, take, slice_index, IfOk, IfErr, OnOk, IsTrue};
ghost use Rattle.sp_device.specs.Failing.{Never};
ghost use Rattle.sp_paths.specs.declared.arc.Arc.{Arc};
ghost use Rattle.sp_graph.specs.Order.{IsNoGreater};
ghost use Rattle.sp_graph.specs.Lengths.{AreLengths};
ghost use Rattle.sp_packed.specs.Packed.{head_words, arcs_words};
ghost use Rattle.sp_packed.specs.Ends.{AreEnds};
ghost use Rattle.sp_packed.specs.Rows.{IsInRow, AreRows, IsNextRow, IsNext, MayFollow, MayHead, MayStand, IsArcRefused, IsRefusedIn, IsCutIn, HasRows, words_to, arc_key, IsLastKey};
ghost use Rattle.sp_packed.specs.Reading.{ToldBehind};

use crate::blocks::{ROOM, WordBlock};
use crate::faults::{PackedFault, PackedField, PackedKind};
use sp_device::Read;
use sp_graph::Lengths;
use sp_paths::Arc;
use std::alloc::Global;

/// The arcs of rows, and their lengths.
#[derive(Drop)]
pub struct RowArcs {
    pub arcs: Vec<Arc>,
    pub lengths: Lengths,
}

// Returns the row of the arc at index `k`, which is that of `tail` or a later one.
fn row_of(ends: &[u32], n: u32, k: usize, tail: u32) -> u32
    requires ends { AreEnds n (slice_index ends.now n) ends.now }
    requires within { k < slice_index ends.now n }
    requires next { IsNextRow n ends.now k tail }
    ensures row { IsInRow ends.now k result }
    ensures next { IsNextRow n ends.now k result }
{
    let mut row = tail;
    while ends[row as usize] as usize <= k {
        row += 1;
    }
    row
}

// Returns whether an arc may follow another one.
fn is_no_greater(last: &Arc, arc: &Arc) -> bool
    ensures { IsTrue result ↔ IsNoGreater last.now arc.now }
{
    last.tail < arc.tail
        || last.tail == arc.tail
            && (last.head < arc.head || last.head == arc.head && last.len <= arc.len)
}

// Returns whether an arc may follow these.
fn may_stand(arcs: &[Arc], n: u32, arc: &Arc) -> bool
    ensures may { result ≡ true → MayStand n arcs.now arc.now }
    ensures only { result ≡ false → MayStand n arcs.now arc.now → ⊥ }
{
    if arc.head < 1 || n < arc.head || arc.len < 1 {
        return false;
    }
    let k = arcs.len();
    k == 0 || is_no_greater(&arcs[k - 1], arc)
}

// Returns whether an arc with this tail and this head may follow another one.
fn may_follow(last: &Arc, tail: u32, head: u32) -> bool
    ensures { IsTrue result ↔ MayFollow last.now tail head }
{
    last.tail < tail || last.tail == tail && last.head <= head
}

// Returns whether an arc's head may follow these arcs.
fn may_head(arcs: &[Arc], n: u32, arc: &Arc) -> bool
    ensures may { result ≡ true → MayHead n arcs.now arc.now }
    ensures only { result ≡ false → MayHead n arcs.now arc.now → ⊥ }
{
    if arc.head < 1 || n < arc.head {
        return false;
    }
    let k = arcs.len();
    k == 0 || may_follow(&arcs[k - 1], arc.tail, arc.head)
}

// Returns the number of words before the head of the arc at index `k`.
fn words_before(n: u32, k: usize) -> u64
    requires { k < 2 ^ 32 }
    ensures { result ≡ words_to n k }
{
    5 + n as u64 + 2 * k as u64
}

// Returns the fault of an arc that may not follow these.
fn arc_fault(arcs: &[Arc], n: u32, arc: &Arc) -> PackedFault
    requires few { length arcs.now < 2 ^ 32 }
    requires wrong { MayStand n arcs.now arc.now → ⊥ }
    ensures { IsArcRefused n arcs.now arc.now result }
{
    let head = words_before(n, arcs.len());
    if may_head(arcs, n, arc) {
        PackedFault::behind(head + 1, PackedKind::OutOfRange(PackedField::Length))
    } else {
        PackedFault::behind(head, PackedKind::OutOfRange(PackedField::Head))
    }
}

// Appends an arc, unless it may not follow the others.
fn push_arc(arcs: &mut Vec<Arc>, ends: &[u32], n: u32, arc: Arc) -> Result<(), PackedFault>
    requires few { length arcs.old.items < 2 ^ 32 }
    requires rows { AreRows n ends.now arcs.old.items }
    requires next { IsNext n ends.now arcs.old.items arc }
    ensures items { OnOk result (arcs.new.items ≡ arcs.old.items ++ arc ∷ []) }
    ensures rows { OnOk result (AreRows n ends.now arcs.new.items) }
    ensures refused { IfErr result (IsArcRefused n arcs.old.items arc) }
{
    if !may_stand(arcs, n, &arc) {
        return Err(arc_fault(arcs, n, &arc));
    }
    let words = words_before(n, arcs.len());
    let Ok(()) = arcs.push(arc) else {
        return Err(PackedFault::behind(words, PackedKind::Memory));
    };
    Ok(())
}

// Returns the same as `row_of`, given the end of the row of `tail`. Mostly the result is that row or the next one. This case
// takes no branch, because a processor can't predict it.
fn row_by_end(ends: &[u32], n: u32, k: usize, tail: u32, end: u32) -> u32
    requires ends { AreEnds n (slice_index ends.now n) ends.now }
    requires within { k < slice_index ends.now n }
    requires next { IsNextRow n ends.now k tail }
    requires end { end ≡ slice_index ends.now tail }
    ensures row { IsInRow ends.now k result }
    ensures next { IsNextRow n ends.now k result }
{
    row_of(ends, n, k, tail + u32::from(end as usize <= k))
}

// Returns the key that orders an arc: first its tail, then its head.
fn key_of(arc: &Arc) -> u64
    ensures key { result ≡ arc_key arc.now }
    ensures fits { arc.now.head < 2 ^ 32 }
{
    arc.tail as u64 * 0x1_0000_0000 + arc.head as u64
}

// Returns the key of the last arc, or 0 if there is none.
fn last_key(arcs: &[Arc]) -> u64
    ensures { IsLastKey arcs.now result }
{
    let k = arcs.len();
    if k == 0 {
        return 0;
    }
    key_of(&arcs[k - 1])
}

// Returns whether an arc may follow these, the last of which has this key. Mostly the keys decide.
fn may_stand_by_key(arcs: &[Arc], last: u64, n: u32, arc: &Arc) -> bool
    requires { IsLastKey arcs.now last }
    ensures { result ≡ true → MayStand n arcs.now arc.now }
{
    1 <= arc.head && arc.head <= n && 1 <= arc.len && last < key_of(arc) || may_stand(arcs, n, arc)
}

// Appends the arcs that the numbers spell, up to the first that may not follow, or none of them if there is no memory for all.
// Returns how many were appended, and a row for the next one.
fn push_right(arcs: &mut Vec<Arc>, numbers: &[u32], ends: &[u32], n: u32, tail: u32) -> (usize, u32)
    requires few { slice_index ends.now n < 2 ^ 32 }
    requires ends { AreEnds n (slice_index ends.now n) ends.now }
    requires rows { AreRows n ends.now arcs.old.items }
    requires next { IsNextRow n ends.now (length arcs.old.items) tail }
    requires within { 2 * length arcs.old.items + length numbers.now ≤ 2 * slice_index ends.now n }
    ensures within { result.0 ≤ length numbers.now / 2 }
    ensures items { (added : List Arc) × (arcs.new.items ≡ arcs.old.items ++ added)
        × (arcs_words added ≡ take (2 * result.0) numbers.now) × (length added ≡ result.0) }
    ensures rows { AreRows n ends.now arcs.new.items }
    ensures next { IsNextRow n ends.now (length arcs.new.items) result.1 }
{
    let count = numbers.len() / 2;
    if arcs.reserve(count).is_err() {
        return (0, tail);
    }
    let mut row = tail;
    let mut end = ends[row as usize];
    let mut last = last_key(arcs);
    for i in 0..count {
        row = row_by_end(ends, n, arcs.len(), row, end);
        end = ends[row as usize];
        let arc = Arc {
            tail: row,
            head: numbers[2 * i],
            len: numbers[2 * i + 1],
        };
        let key = key_of(&arc);
        if !may_stand_by_key(arcs, last, n, &arc) {
            return (i, row);
        }
        arcs.push_reserved(arc);
        last = key;
    }
    (count, row)
}

// Appends the arcs that the numbers spell, and returns the row of the last one.
fn push_arcs(
    arcs: &mut Vec<Arc>,
    numbers: &[u32],
    ends: &[u32],
    n: u32,
    tail: u32,
) -> Result<u32, PackedFault>
    requires few { slice_index ends.now n < 2 ^ 32 }
    requires ends { AreEnds n (slice_index ends.now n) ends.now }
    requires rows { AreRows n ends.now arcs.old.items }
    requires next { IsNextRow n ends.now (length arcs.old.items) tail }
    requires within { 2 * length arcs.old.items + length numbers.now ≤ 2 * slice_index ends.now n }
    ensures items { OnOk result ((added : List Arc) × (arcs.new.items ≡ arcs.old.items ++ added)
        × (arcs_words added ≡ take (2 * (length numbers.now / 2)) numbers.now)
        × (length added ≡ length numbers.now / 2)) }
    ensures rows { OnOk result (AreRows n ends.now arcs.new.items) }
    ensures next { IfOk result (λ row. IsNextRow n ends.now (length arcs.new.items) row) }
    ensures refused { IfErr result (IsRefusedIn n ends.now arcs.old.items numbers.now) }
    ensures fit { (i : ℕ) → slice_index numbers.now i < 2 ^ 32 }
{
    let (right, mut row) = push_right(arcs, numbers, ends, n, tail);
    for i in right..numbers.len() / 2 {
        row = row_of(ends, n, arcs.len(), row);
        let arc = Arc {
            tail: row,
            head: numbers[2 * i],
            len: numbers[2 * i + 1],
        };
        if let Err(fault) = push_arc(arcs, ends, n, arc) {
            return Err(fault);
        }
    }
    Ok(row)
}

// Returns the fault if the numbers end before all arcs came: that of a last head without its length, or of the next word.
fn cut_fault(
    arcs: &[Arc],
    numbers: &[u32],
    ends: &[u32],
    n: u32,
    tail: u32,
    failed: bool,
) -> PackedFault
    requires few { slice_index ends.now n < 2 ^ 32 }
    requires ends { AreEnds n (slice_index ends.now n) ends.now }
    requires within { length arcs.now < slice_index ends.now n }
    requires next { IsNextRow n ends.now (length arcs.now) tail }
    ensures { IsCutIn n ends.now arcs.now numbers.now failed result }
{
    let before = words_before(n, arcs.len());
    if numbers.len() % 2 == 0 {
        return PackedFault::cut(before, failed);
    }
    let arc = Arc {
        tail: row_of(ends, n, arcs.len(), tail),
        head: numbers[numbers.len() - 1],
        len: 1,
    };
    if may_head(arcs, n, &arc) {
        PackedFault::cut(before + 1, failed)
    } else {
        PackedFault::behind(before, PackedKind::OutOfRange(PackedField::Head))
    }
}

/// Reads the arcs of the rows with these ends.
pub fn read_rows<R: Read>(
    alloc: Global,
    reader: &mut R,
    block: &mut WordBlock,
    n: u32,
    ends: &[u32],
) -> Result<RowArcs, PackedFault>
    requires some { 1 ≤ n }
    requires few { slice_index ends.now n < 2 ^ 32 }
    requires ends { AreEnds n (slice_index ends.now n) ends.now }
    ensures rows { IfOk result (λ rows. AreRows n ends.now rows.arcs.items) }
    ensures size { IfOk result (λ rows. length rows.arcs.items ≡ slice_index ends.now n) }
    ensures lengths { IfOk result (λ rows. AreLengths rows.arcs.items rows.lengths) }
    ensures text { IfOk result (λ rows. HasRows (R.left reader.old) (R.left reader.new)
        block.old.sum block.new.sum rows.arcs.items) }
    ensures told { IfErr result (λ e. let m = slice_index ends.now n in
        ToldBehind (head_words n m ++ ends.now) n m
        (R.left reader.old) (R.left reader.new) (R.has_failed reader.new) e) }
    ensures never { R.failing reader.old ≡ Never → IfErr result (λ e. e.kind ≢ PackedKind.Read) }
    ensures lasting { R.failing reader.new ≡ R.failing reader.old }
{
    let m = ends[n as usize] as usize;
    let mut arcs = Vec::new(alloc);
    let mut lengths = Lengths::none();
    let mut row = 1;
    while arcs.len() < m {
        let begin = arcs.len();
        let want = (m - begin).min(ROOM / 2);
        let failed = block.take(reader, 2 * want);
        let numbers = block.numbers();
        match push_arcs(&mut arcs, numbers, ends, n, row) {
            Ok(last) => row = last,
            Err(fault) => return Err(fault),
        }
        if numbers.len() < 2 * want {
            return Err(cut_fault(&arcs, numbers, ends, n, row, failed));
        }
        lengths = lengths.and(Lengths::of(&arcs[begin..]));
    }
    Ok(RowArcs { arcs, lengths })
}
