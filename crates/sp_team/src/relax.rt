//! Relaxes vertices: their arcs put requests, which are then offered to the heads.
ghost use Rattle.std.specs.Prelude.{◌≡◌, ◌+◌, ◌≤◌, true, false, [], take, All, IfOk, IsTrue, OnOk};
ghost use Rattle.sp_word.specs.Word.{is_layout, max_dist};
ghost use Rattle.sp_paths.specs.Paths.{IsArc, IsVertex};
ghost use Rattle.sp_paths.specs.Rows.{row_of};
ghost use Rattle.sp_graph.specs.Placed.{arcs_in};
ghost use Rattle.sp_offer.specs.Order.{lawful};
ghost use Rattle.sp_offer.specs.Story.{known_table};
ghost use Rattle.sp_team.specs.Law.{IsReady, AllowsSum};
ghost use Rattle.sp_team.specs.Requests.{IsRequest, request, HasTail, HaveTails, Asks, AsksAll};
ghost use Rattle.sp_team.specs.Later.{IsLater};
ghost use Rattle.sp_team.specs.Live.{IsLive};
ghost use Rattle.sp_team.specs.Marked.{IsMet, WillBeMet, RowWillBeMet, WillBeTrue};

use crate::entries::read_dist;
use crate::notes::Notes;
use sp_bins::{Bins, Entry};
use sp_graph::{Few, Graph};
use sp_offer::{Caller, Lawful, OfferTable};
use sp_paths::Arc;
use sp_word::{Reply, Word};
use std::alloc::AllocError;

/// The number of requests at which all of them are answered.
pub(crate) const MOST: usize = 512;

/// The longest row whose requests are put without a branch for each arc.
pub(crate) const FEW: usize = Few::PLACES;

/// The offer that an arc of a relaxed vertex asks for at its head.
#[derive(Clone, Copy)]
pub struct Request<const P: u32> {
    /// The tail's distance plus the arc's length, with the tail as predecessor.
    pub word: Word<P>,
    /// The head of the arc.
    pub head: u32,
    /// The length of the arc.
    pub len: u32,
}

// Returns the offer that an arc makes to its head when its tail has this distance.
fn request_of<const P: u32>(arc: Arc, dist: u64) -> Request<P>
    requires layout { is_layout P ≡ true }
    requires sum { dist + arc.len ≤ max_dist P }
    requires tail { HasTail P (max_dist P) dist arc }
    ensures { result ≡ request P dist arc }
{
    Request {
        word: Word::pack(dist + u64::from(arc.len), arc.tail),
        head: arc.head,
        len: arc.len,
    }
}

// Offers the head the requested word.
fn offer_head<L: Lawful, const P: u32>(
    table: &OfferTable<L, P>,
    request: Request<P>,
    caller: &mut Caller,
    bins: &mut Bins,
) -> Result<(), AllocError>
    requires request { IsRequest
        (lawful P (L.allows table.now.law)) table.now.vertices request }
    requires caller { caller.old.table ≡ table.now.id }
    ensures later { IsLater (lawful P (L.allows table.now.law)) caller.old caller.new }
    ensures met { IsMet (known_table caller.new.story) request.entry }
{
    let Request { word, head, len } = request;
    match (table.offer(caller, head, word).reply, word.dist()) {
        (Reply::Shorter, Some(dist)) => {
            let entry = Entry { vertex: head, dist };
            bins.put_head(entry, dist.saturating_sub(u64::from(len)))
        }
        _ => Ok(()),
    }
}

// Whether the head's word is greater than the requested one.
fn is_lower<L: Lawful, const P: u32>(
    table: &OfferTable<L, P>,
    request: Request<P>,
    caller: &mut Caller,
) -> bool
    requires request { IsRequest
        (lawful P (L.allows table.now.law)) table.now.vertices request }
    requires caller { caller.old.table ≡ table.now.id }
    ensures later { IsLater (lawful P (L.allows table.now.law)) caller.old caller.new }
    ensures met { result ≡ false → IsMet (known_table caller.new.story) request.entry }
{
    request.word.is_below(table.read(caller, request.head))
}

// Reads the words of the heads, to bring them into the cache. Unlike reads between offers, these don't wait for one another.
fn warm_heads<L: Lawful, const P: u32>(
    table: &OfferTable<L, P>,
    requests: &[Request<P>],
    caller: &mut Caller,
)
    requires requests { All (IsRequest (lawful P (L.allows table.now.law)) table.now.vertices)
        requests.now }
    requires caller { caller.old.table ≡ table.now.id }
    ensures { IsLater (lawful P (L.allows table.now.law)) caller.old caller.new }
{
    for request in requests {
        let _ = read_dist(table, request.head, caller);
    }
}

// Drops the requests that are already met, which are most of them. No branch depends on a word.
fn drop_met<L: Lawful, const P: u32>(
    table: &OfferTable<L, P>,
    requests: &mut Vec<Request<P>>,
    caller: &mut Caller,
)
    requires layout { is_layout P ≡ true }
    requires requests { All (IsRequest (lawful P (L.allows table.now.law)) table.now.vertices)
        requests.old.items }
    requires caller { caller.old.table ≡ table.now.id }
    ensures later { IsLater (lawful P (L.allows table.now.law)) caller.old caller.new }
    ensures requests { All (IsRequest (lawful P (L.allows table.now.law)) table.now.vertices)
        requests.new.items }
    ensures met { All (WillBeMet (known_table caller.new.story)
        requests.new.items) requests.old.items }
{
    let mut kept: usize = 0;
    for place in 0..requests.len() {
        let request = requests[place];
        let is_kept = is_lower(table, request, caller);
        requests[kept] = requests[place];
        kept += usize::from(is_kept);
    }
    requests.truncate(kept);
}

// Makes the offers one after another.
fn offer_all<L: Lawful, const P: u32>(
    table: &OfferTable<L, P>,
    requests: &[Request<P>],
    caller: &mut Caller,
    bins: &mut Bins,
) -> Result<(), AllocError>
    requires layout { is_layout P ≡ true }
    requires requests { All (IsRequest (lawful P (L.allows table.now.law)) table.now.vertices)
        requests.now }
    requires caller { caller.old.table ≡ table.now.id }
    ensures later { IsLater (lawful P (L.allows table.now.law)) caller.old caller.new }
    ensures met { OnOk result
        (All (IsMet (known_table caller.new.story)) requests.now) }
{
    for request in requests {
        offer_head(table, *request, caller, bins)?;
    }
    Ok(())
}

/// Answers all requests and clears the list.
pub(crate) fn answer<L: Lawful, const P: u32>(
    table: &OfferTable<L, P>,
    requests: &mut Vec<Request<P>>,
    caller: &mut Caller,
    bins: &mut Bins,
) -> Result<(), AllocError>
    requires layout { is_layout P ≡ true }
    requires requests { All (IsRequest (lawful P (L.allows table.now.law)) table.now.vertices)
        requests.old.items }
    requires caller { caller.old.table ≡ table.now.id }
    ensures later { IsLater (lawful P (L.allows table.now.law)) caller.old caller.new }
    ensures none { OnOk result (requests.new.items ≡ []) }
    ensures met { OnOk result
        (All (IsMet (known_table caller.new.story)) requests.old.items) }
{
    warm_heads(table, requests.as_slice(), caller);
    drop_met(table, requests, caller);
    offer_all(table, requests.as_slice(), caller, bins)?;
    requests.clear();
    Ok(())
}

// Puts a request for an arc at its tail's distance if the sum is within the greatest distance. Returns whether it is.
fn ask_arc<const P: u32>(
    arc: Arc,
    dist: u64,
    requests: &mut Vec<Request<P>>,
) -> Result<bool, AllocError>
    requires layout { is_layout P ≡ true }
    requires dist { dist ≤ max_dist P }
    requires tail { HasTail P (max_dist P) dist arc }
    ensures { IfOk result
        (λ fits. Asks P (max_dist P) arc dist fits requests.old.items requests.new.items) }
{
    let fits = u64::from(arc.len) <= Word::<P>::max_dist() - dist;
    if fits {
        requests.push(request_of(arc, dist))?;
    }
    Ok(fits)
}

// Puts requests for the arcs of a row, one after another, and answers them when many are waiting. Returns whether each arc got a
// request.
fn ask_each<L: Lawful, const P: u32>(
    table: &OfferTable<L, P>,
    row: &[Arc],
    dist: u64,
    requests: &mut Vec<Request<P>>,
    caller: &mut Caller,
    bins: &mut Bins,
) -> Result<bool, AllocError>
    requires layout { is_layout P ≡ true }
    requires dist { dist ≤ max_dist P }
    requires arcs { All (IsArc table.now.vertices) row.now }
    requires allowed { All
        (AllowsSum (lawful P (L.allows table.now.law)) (max_dist P) dist) row.now }
    requires requests { All (IsRequest (lawful P (L.allows table.now.law)) table.now.vertices)
        requests.old.items }
    requires caller { caller.old.table ≡ table.now.id }
    ensures later { IsLater (lawful P (L.allows table.now.law)) caller.old caller.new }
    ensures requests { OnOk result (All (IsRequest (lawful P (L.allows table.now.law))
        table.now.vertices) requests.new.items) }
    ensures before { OnOk result (All (WillBeMet (known_table caller.new.story)
        requests.new.items) requests.old.items) }
    ensures row { IfOk result (λ whole. IsTrue whole
        → RowWillBeMet (max_dist P) (known_table caller.new.story)
        requests.new.items dist row.now) }
{
    let mut whole = true;
    for arc in row {
        let fits = ask_arc(*arc, dist, requests)?;
        whole = whole && fits;
        if requests.len() >= MOST {
            answer(table, requests, caller, bins)?;
        }
    }
    Ok(whole)
}

// Puts requests for the first of four arcs, as many as `count`, at their tail's distance, if there is room and the sums of all four
// are within the greatest distance. It first puts all four requests, then drops the surplus, so that no branch depends on the
// number of arcs. Returns whether it put them.
#[inline(always)]
fn ask_four<const P: u32>(
    arcs: [Arc; FEW],
    count: usize,
    dist: u64,
    requests: &mut Vec<Request<P>>,
) -> bool
    requires layout { is_layout P ≡ true }
    requires count { count ≤ 4 }
    requires dist { dist ≤ max_dist P }
    requires tails { HaveTails P (max_dist P) dist arcs }
    ensures asked { IsTrue result
        → AsksAll P (max_dist P) (take count arcs) dist requests.old.items requests.new.items }
    ensures refused { result ≡ false → requests.new ≡ requests.old }
{
    let before = requests.len();
    if requests.capacity().saturating_sub(before) < FEW {
        return false;
    }
    let [first, second, third, fourth] = arcs;
    let longest = first.len.max(second.len).max(third.len).max(fourth.len);
    if u64::from(longest) > Word::<P>::max_dist() - dist {
        return false;
    }
    requests.push_reserved(request_of(first, dist));
    requests.push_reserved(request_of(second, dist));
    requests.push_reserved(request_of(third, dist));
    requests.push_reserved(request_of(fourth, dist));
    requests.truncate(before + count);
    true
}

// Puts requests for the arcs of a row at their tail's distance, if the row is short, there is room, and all sums are within the
// greatest distance. Returns whether it put them.
fn ask_listed<const P: u32>(row: &[Arc], dist: u64, requests: &mut Vec<Request<P>>) -> bool
    requires layout { is_layout P ≡ true }
    requires dist { dist ≤ max_dist P }
    requires tails { All (HasTail P (max_dist P) dist) row.now }
    ensures asked { IsTrue result
        → AsksAll P (max_dist P) row.now dist requests.old.items requests.new.items }
    ensures refused { result ≡ false → requests.new ≡ requests.old }
{
    let Some(last) = row.len().checked_sub(1) else {
        return false;
    };
    if last >= FEW {
        return false;
    }
    let arcs = [row[0], row[last.min(1)], row[last.min(2)], row[last]];
    ask_four(arcs, row.len(), dist, requests)
}

// Puts requests for the arcs in the places of a vertex at its distance, if there is room, and all sums are within the greatest
// distance. Returns whether it put them.
fn ask_placed<const P: u32>(tail: u32, few: Few, dist: u64, requests: &mut Vec<Request<P>>) -> bool
    requires layout { is_layout P ≡ true }
    requires some { 1 ≤ few.first.len }
    requires dist { dist ≤ max_dist P }
    requires tails { All (HasTail P (max_dist P) dist) (arcs_in tail few) }
    ensures asked { IsTrue result
        → AsksAll P (max_dist P) (arcs_in tail few) dist requests.old.items requests.new.items }
    ensures refused { result ≡ false → requests.new ≡ requests.old }
{
    let arcs = [
        few.first.arc(tail),
        few.second.arc(tail),
        few.third.arc(tail),
        few.fourth.arc(tail),
    ];
    ask_four(arcs, few.count(), dist, requests)
}

// Puts requests for the arcs that leave a vertex at its distance, if these are few, there is room, and all sums are within the
// greatest distance. Returns whether it put them.
fn ask_few<const P: u32>(
    graph: &Graph,
    vertex: u32,
    dist: u64,
    requests: &mut Vec<Request<P>>,
) -> bool
    requires layout { is_layout P ≡ true }
    requires vertex { IsVertex graph.now.n vertex }
    requires dist { dist ≤ max_dist P }
    requires tails { All (HasTail P (max_dist P) dist) (row_of graph.now.arcs vertex) }
    ensures asked { IsTrue result → AsksAll P (max_dist P)
        (row_of graph.now.arcs vertex) dist requests.old.items requests.new.items }
    ensures refused { result ≡ false → requests.new ≡ requests.old }
{
    match graph.few(vertex) {
        Some(few) => ask_placed(vertex, few, dist, requests),
        None => ask_listed(graph.row(vertex), dist, requests),
    }
}

// Puts requests for the arcs of an entry's vertex at the entry's distance, and answers them when many are waiting. Returns whether
// each arc got a request.
fn ask_row<L: Lawful, const P: u32>(
    graph: &Graph,
    table: &OfferTable<L, P>,
    entry: Entry,
    requests: &mut Vec<Request<P>>,
    caller: &mut Caller,
    bins: &mut Bins,
) -> Result<bool, AllocError>
    requires layout { is_layout P ≡ true }
    requires vertex { IsVertex graph.now.n entry.vertex }
    requires dist { entry.dist ≤ max_dist P }
    requires arcs { All (IsArc table.now.vertices) (row_of graph.now.arcs entry.vertex) }
    requires allowed { All
        (AllowsSum (lawful P (L.allows table.now.law)) (max_dist P) entry.dist)
        (row_of graph.now.arcs entry.vertex) }
    requires requests { All (IsRequest (lawful P (L.allows table.now.law)) table.now.vertices)
        requests.old.items }
    requires caller { caller.old.table ≡ table.now.id }
    ensures later { IsLater (lawful P (L.allows table.now.law)) caller.old caller.new }
    ensures requests { OnOk result (All (IsRequest (lawful P (L.allows table.now.law))
        table.now.vertices) requests.new.items) }
    ensures before { OnOk result (All (WillBeMet (known_table caller.new.story)
        requests.new.items) requests.old.items) }
    ensures row { IfOk result (λ whole. IsTrue whole
        → RowWillBeMet (max_dist P) (known_table caller.new.story)
        requests.new.items entry.dist (row_of graph.now.arcs entry.vertex)) }
{
    let Entry { vertex, dist } = entry;
    let is_asked = ask_few(graph, vertex, dist, requests);
    if is_asked {
        if requests.len() >= MOST {
            answer(table, requests, caller, bins)?;
        }
        Ok(true)
    } else {
        ask_each(table, graph.row(vertex), dist, requests, caller, bins)
    }
}

/// Puts a request for each arc of an entry's vertex at the entry's distance. Notes the vertex's mark if each arc got a request.
pub(crate) fn ask<L: Lawful, const P: u32>(
    graph: &Graph,
    table: &OfferTable<L, P>,
    entry: Entry,
    notes: &mut Notes<P>,
    caller: &mut Caller,
    bins: &mut Bins,
) -> Result<(), AllocError>
    requires ready { IsReady P (lawful P (L.allows table.now.law)) table.now.vertices graph.now }
    requires live { IsLive (lawful P (L.allows table.now.law)) graph.now entry }
    requires requests { All (IsRequest (lawful P (L.allows table.now.law)) table.now.vertices)
        notes.old.requests.items }
    requires marks { All (WillBeTrue (max_dist P) graph.now (known_table caller.old.story)
        notes.old.requests.items) notes.old.marks.items }
    requires caller { caller.old.table ≡ table.now.id }
    ensures later { IsLater (lawful P (L.allows table.now.law)) caller.old caller.new }
    ensures requests { OnOk result (All (IsRequest (lawful P (L.allows table.now.law))
        table.now.vertices) notes.new.requests.items) }
    ensures marks { OnOk result (All (WillBeTrue (max_dist P) graph.now
        (known_table caller.new.story) notes.new.requests.items) notes.new.marks.items) }
{
    // Its contract tells that the heads of the arcs are vertices.
    let _ = graph.n();
    if ask_row(graph, table, entry, &mut notes.requests, caller, bins)? {
        notes.note(entry.vertex, entry.dist);
    }
    Ok(())
}
