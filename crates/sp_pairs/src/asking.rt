//! The answers for pairs, found by one search or run from each source.
ghost use Rattle.std.specs.Prelude.{◌≡◌, ◌+◌, ◌<◌, false, length, All, IfOk, IfSome};
ghost use Rattle.sp_answer.specs.Run.{AreAnswersBy};
ghost use Rattle.sp_jobs.specs.Ready.{IsReady};
ghost use Rattle.sp_pairs.specs.Slots.{IsOpen, IsClosed, IsPairOf, AreAllOpen, pair_at, AreHeld, AreFirstClosed, StayClosed, IsPlaceBehind, AreTargetsOf, IsClosedAt};

use crate::told::PairLine;
use sp_answer::Engine;
use sp_graph::Graph;
use sp_jobs::{Job, Listener, Progress};
use sp_serial::{SearchPool, answers_near};
use std::alloc::{AllocError, Global};

// For at most this many pairs, each searches for the next pair of its source, because a table of all vertices would
// take longer.
const FEW: usize = 64;

/// What is known of a pair.
#[derive(Drop)]
pub(crate) enum PairState<A> {
    /// The answer isn't known yet. The next pair of the same source is at this place. If there is none, it is the
    /// number of pairs.
    Open { next: usize },
    /// This is the answer.
    Known(A),
}

// Returns whether the answer isn't known yet.
fn is_open<A>(slot: &PairState<A>) -> bool
    ensures { result ≡ false → IsClosed slot.now }
{
    match slot {
        PairState::Open { .. } => true,
        PairState::Known(_) => false,
    }
}

// Returns the first place after this one whose pair has the same source, or the number of pairs.
fn place_behind(pairs: &[(u32, u32)], place: usize) -> usize
    requires { place < length pairs.now }
{
    let source = pairs[place].0;
    for behind in place + 1..pairs.len() {
        if pairs[behind].0 == source {
            return behind;
        }
    }
    pairs.len()
}

// Makes an open slot for each of a few pairs, without a table.
fn open_few<A: Drop>(alloc: Global, pairs: &[(u32, u32)]) -> Result<Vec<PairState<A>>, AllocError>
    ensures { IfOk result (λ slots. AreAllOpen pairs.now slots.items) }
{
    let mut slots = Vec::with_capacity(alloc, pairs.len())?;
    for place in 0..pairs.len() {
        slots.push(PairState::Open {
            next: place_behind(pairs, place),
        })?;
    }
    Ok(slots)
}

// Makes an open slot for each pair, as if no other pair had its source.
fn open_single<A: Drop>(
    alloc: Global,
    pairs: &[(u32, u32)],
) -> Result<Vec<PairState<A>>, AllocError>
    ensures { IfOk result (λ slots. AreAllOpen pairs.now slots.items) }
{
    let mut slots = Vec::with_capacity(alloc, pairs.len())?;
    for _ in 0..pairs.len() {
        slots.push(PairState::Open { next: pairs.len() })?;
    }
    Ok(slots)
}

// Makes an open slot for each pair. It goes from the last pair to the first, with a table that says for each vertex
// where the next pair with this source is.
fn open_slots<A: Drop>(
    alloc: Global,
    n: u32,
    pairs: &[(u32, u32)],
) -> Result<Vec<PairState<A>>, AllocError>
    requires { All (IsPairOf n) pairs.now }
    ensures { IfOk result (λ slots. AreAllOpen pairs.now slots.items) }
{
    let count = pairs.len();
    if count <= FEW {
        return open_few(alloc, pairs);
    }
    let mut next_of_source = vec![in alloc; count; n as usize]?;
    let mut slots = open_single(alloc, pairs)?;
    for done in 0..count {
        let place = count - 1 - done;
        let source = pairs[place].0 as usize - 1;
        slots[place] = PairState::Open {
            next: next_of_source[source],
        };
        next_of_source[source] = place;
    }
    Ok(slots)
}

// Returns the place of the next pair with the same source, if there is one.
fn next_place<A>(pairs: &[(u32, u32)], slots: &[PairState<A>], place: usize) -> Option<usize>
    requires here { place < length pairs.now }
    requires size { length slots.now ≡ length pairs.now }
    ensures { IfSome result (IsPlaceBehind place pairs.now) }
{
    let PairState::Open { next } = &slots[place] else {
        return None;
    };
    let next = *next;
    if next > place && next < pairs.len() && pairs[next].0 == pairs[place].0 {
        return Some(next);
    }
    None
}

// Returns the target of the pair at a place, and those of the later pairs with the same source.
fn targets_from<A>(
    alloc: Global,
    graph: &Graph,
    pairs: &[(u32, u32)],
    slots: &[PairState<A>],
    place: usize,
) -> Result<Vec<u32>, AllocError>
    requires here { place < length pairs.now }
    requires size { length slots.now ≡ length pairs.now }
    requires pairs { All (IsPairOf graph.now.n) pairs.now }
    ensures { IfOk result (λ targets.
        AreTargetsOf graph.now.n (pair_at pairs.now place) targets.items) }
{
    let mut targets = Vec::new(alloc);
    targets.push(pairs[place].1)?;
    let mut at = place;
    while let Some(next) = next_place(pairs, slots, at) {
        targets.push(pairs[next].1)?;
        at = next;
    }
    Ok(targets)
}

// Keeps the answer for a pair as that of the pair at a place, if they are the same.
fn keep_answer<const P: u32, A: PairLine<P>>(
    graph: &Graph,
    pair: (u32, u32),
    answer: A,
    pairs: &[(u32, u32)],
    slots: &mut Vec<PairState<A>>,
    place: usize,
)
    requires answer { A.is_answer graph.now pair.0 pair.1 answer }
    requires here { place < length pairs.now }
    requires held { AreHeld A.is_answer graph.now pairs.now slots.old.items }
    ensures held { AreHeld A.is_answer graph.now pairs.now slots.new.items }
    ensures stay { StayClosed slots.old.items slots.new.items }
    ensures closed { (pair_at pairs.now place).0 ≡ pair.0 → (pair_at pairs.now place).1 ≡ pair.1
        → IsClosedAt place slots.new.items }
{
    let (source, target) = pairs[place];
    if source == pair.0 && target == pair.1 {
        slots[place] = PairState::Known(answer);
    }
}

// Keeps the answers that were found for the pair at a place and for the later pairs with the same source. They are
// moved out of their list.
fn keep_answers<const P: u32, A: PairLine<P>>(
    graph: &Graph,
    targets: &[u32],
    answers: Vec<A>,
    pairs: &[(u32, u32)],
    slots: &mut Vec<PairState<A>>,
    place: usize,
)
    requires here { place < length pairs.now }
    requires targets { AreTargetsOf graph.now.n (pair_at pairs.now place) targets.now }
    requires answers { AreAnswersBy (A.is_answer graph.now (pair_at pairs.now place).0)
        targets.now answers.items }
    requires held { AreHeld A.is_answer graph.now pairs.now slots.old.items }
    requires first { AreFirstClosed place slots.old.items }
    ensures held { AreHeld A.is_answer graph.now pairs.now slots.new.items }
    ensures first { AreFirstClosed (place + 1) slots.new.items }
{
    let source = pairs[place].0;
    let mut at = place;
    let mut k = 0;
    for answer in answers {
        let next = next_place(pairs, slots, at);
        keep_answer::<P, A>(graph, (source, targets[k]), answer, pairs, slots, at);
        let Some(behind) = next else {
            return;
        };
        at = behind;
        k += 1;
    }
}

/// Finds the answers for pairs, in their order.
pub(crate) fn find_answers<const P: u32, A: PairLine<P>, E: Engine<P>, L: Listener>(
    alloc: Global,
    job: &Job<E>,
    listener: &L,
    pairs: &[(u32, u32)],
) -> Result<Vec<PairState<A>>, AllocError>
    requires engine { E.can_run job.now.engine }
    requires ready { IsReady P job.now.graph.now }
    requires pairs { All (IsPairOf job.now.graph.now.n) pairs.now }
    ensures held { IfOk result
        (λ slots. AreHeld A.is_answer job.now.graph.now pairs.now slots.items) }
    ensures closed { IfOk result (λ slots. All IsClosed slots.items) }
{
    let mut slots = open_slots(alloc, job.graph.n(), pairs)?;
    let pool = SearchPool::new(alloc, 1);
    for place in 0..pairs.len() {
        if !is_open(&slots[place]) {
            continue;
        }
        listener.hear(Progress::Pairs {
            found: place,
            count: pairs.len(),
        });
        let targets = targets_from(alloc, job.graph, pairs, &slots, place)?;
        let source = pairs[place].0;
        let answers = answers_near::<P, A, E, _>(
            &job.engine,
            &pool,
            alloc,
            job.graph,
            source,
            &targets,
        )?;
        keep_answers::<P, A>(job.graph, &targets, answers, pairs, &mut slots, place);
    }
    Ok(slots)
}
