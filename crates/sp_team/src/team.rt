//! A team of workers.
ghost use Rattle.std.specs.Prelude.{◌≡◌, ℕ, [], ◌++◌, ◌||◌, All, IfOk, OnOk};
ghost use denote.Param.Send.{IsSync, IsSend};
ghost use Rattle.sp_word.specs.Word.{max_dist};
ghost use Rattle.sp_paths.specs.Paths.{Graph as Network};
ghost use Rattle.sp_offer.specs.Order.{lawful};
ghost use Rattle.sp_offer.specs.Story.{Follows, own_calls};
ghost use Rattle.sp_team.specs.Law.{IsReady};
ghost use Rattle.sp_team.specs.Later.{IsLater};
ghost use Rattle.sp_team.specs.Live.{IsLive};
ghost use Rattle.sp_team.specs.Marked.{AllTrue, AreTrue};

use crate::chunk::Chunk;
use crate::common::Common;
use crate::entries::{end_bits, is_live, leads_on, read_dist, warm_vertices};
use crate::notes::Notes;
use crate::relax::{answer, ask};
use crate::schedule::{STRETCH, STRETCHES};
use crate::search::{Horizon, Search};
use crate::work_queue::WorkQueue;
use crossbeam_deque::Worker;
use sp_bins::Entry;
use sp_graph::{Graph, Mark};
use sp_offer::{Caller, Lawful, OfferTable};
use sp_word::{Meter, ThreadsAndSleep};
use std::alloc::{AllocError, Global};
use std::thread::join;

/// The result of a team's work.
#[derive(Drop)]
pub struct Relaxed {
    /// A caller that has seen what the callers of all workers had seen.
    pub caller: Caller,
    /// Whether a worker that had entries was refused memory, so that some entries may not have been relaxed. Offers already made
    /// stay made.
    pub lost: bool,
    /// The marks of vertices whose arcs were relaxed, one list for each worker. Some may be missing.
    pub marks: Vec<Vec<Mark>>,
}

impl Relaxed {
    // The result of work that left no marks.
    fn without_marks(alloc: Global, caller: Caller, lost: bool) -> Relaxed
        ensures caller { result.caller ≡ caller }
        ensures lost { result.lost ≡ lost }
        ensures marks { result.marks.items ≡ [] }
    {
        Relaxed {
            caller,
            lost,
            marks: Vec::new(alloc),
        }
    }
}

/// What one worker starts with.
#[derive(Drop)]
struct Start {
    worker: usize,
    own: Worker<Chunk>,
    caller: Caller,
}

/// A group of workers with consecutive numbers, before they start.
#[derive(Drop)]
struct Squad {
    /// The number of the first worker.
    worker: usize,
    /// Their deques.
    owners: Vec<Worker<Chunk>>,
    caller: Caller,
}

/// The entries that a worker processes at once, and the notes that it has made.
#[derive(Drop)]
struct Batch<const P: u32> {
    // entries whose vertices still have their distances and have arcs
    live: Vec<Entry>,
    notes: Notes<P>,
}

impl<const P: u32> Batch<P> {
    fn new(graph: &Graph, common: &Common) -> Result<Batch<P>, AllocError>
        ensures { IfOk result (λ batch. batch.notes.marks.items ≡ []) }
    {
        Ok(Batch {
            live: Vec::with_capacity(common.alloc, STRETCH)?,
            notes: Notes::new(graph, common)?,
        })
    }

    // Returns the marks.
    fn into_marks(self) -> Vec<Mark>
        ensures { result ≡ self.entry.notes.marks }
    {
        let Batch { notes, .. } = self;
        notes.marks
    }
}

// Takes some entries, and keeps those within the horizon whose vertices still have their distances and have arcs. No branch
// depends on a word. Returns the number of entries within the horizon whose vertices still have their distances, including those
// without arcs.
fn take_live<L: Lawful, const P: u32>(
    graph: &Graph,
    table: &OfferTable<L, P>,
    work_queue: &mut WorkQueue,
    horizon: Horizon,
    live: &mut Vec<Entry>,
    caller: &mut Caller,
) -> Result<usize, AllocError>
    requires ready { IsReady P (lawful P (L.allows table.now.law)) table.now.vertices graph.now }
    requires caller { caller.old.table ≡ table.now.id }
    ensures later { IsLater (lawful P (L.allows table.now.law)) caller.old caller.new }
    ensures live { OnOk result (All (IsLive (lawful P (L.allows table.now.law)) graph.now)
        live.new.items) }
{
    work_queue.take(STRETCH, live)?;
    let mut relaxed: usize = 0;
    let mut kept: usize = 0;
    for place in 0..live.len() {
        let entry = live[place];
        let is_relaxed = is_live(graph, table, entry, caller) & horizon.reaches(entry.dist);
        let is_kept = is_relaxed & leads_on(graph, entry);
        live[kept] = entry;
        relaxed = relaxed.wrapping_add(usize::from(is_relaxed));
        kept += usize::from(is_kept);
    }
    live.truncate(kept);
    Ok(relaxed)
}

// Relaxes the vertices of the entries.
fn relax_live<L: Lawful, const P: u32>(
    graph: &Graph,
    table: &OfferTable<L, P>,
    work_queue: &mut WorkQueue,
    batch: &mut Batch<P>,
    caller: &mut Caller,
) -> Result<(), AllocError>
    requires ready { IsReady P (lawful P (L.allows table.now.law)) table.now.vertices graph.now }
    requires live { All (IsLive (lawful P (L.allows table.now.law)) graph.now)
        batch.old.live.items }
    requires caller { caller.old.table ≡ table.now.id }
    requires marks { AllTrue (max_dist P) graph.now caller.old.story
        batch.old.notes.marks.items }
    ensures later { IsLater (lawful P (L.allows table.now.law)) caller.old caller.new }
    ensures marks { OnOk result (AllTrue (max_dist P) graph.now caller.new.story
        batch.new.notes.marks.items) }
{
    let Batch { live, notes } = batch;
    notes.requests.clear();
    for entry in live.as_slice() {
        ask(graph, table, *entry, notes, caller, work_queue.bins())?;
    }
    answer(table, &mut notes.requests, caller, work_queue.bins())
}

// Processes some entries, and drops those beyond the horizon. It makes several passes: each reads, for all entries, the places
// that the pass before has found, so that these reads don't wait for one another and few branches wait for a read.
fn run_some<L: Lawful, const P: u32>(
    graph: &Graph,
    table: &OfferTable<L, P>,
    work_queue: &mut WorkQueue,
    horizon: Horizon,
    batch: &mut Batch<P>,
    caller: &mut Caller,
) -> Result<(), AllocError>
    requires ready { IsReady P (lawful P (L.allows table.now.law)) table.now.vertices graph.now }
    requires caller { caller.old.table ≡ table.now.id }
    requires marks { AllTrue (max_dist P) graph.now caller.old.story
        batch.old.notes.marks.items }
    ensures later { IsLater (lawful P (L.allows table.now.law)) caller.old caller.new }
    ensures marks { OnOk result (AllTrue (max_dist P) graph.now caller.new.story
        batch.new.notes.marks.items) }
{
    let leading = warm_vertices(graph, table, work_queue.upcoming(STRETCH), caller);
    let relaxed = take_live(graph, table, work_queue, horizon, &mut batch.live, caller)?;
    work_queue.count(relaxed);
    // Places are in the cache already.
    if leading == 0 || !graph.has_places() && end_bits(graph, &batch.live) == 0 {
        return Ok(());
    }
    relax_live(graph, table, work_queue, batch, caller)
}

// Puts the reached vertices of the queue into a worker's buckets.
fn put_queue<L: Lawful, const P: u32>(
    graph: &Graph,
    table: &OfferTable<L, P>,
    work_queue: &mut WorkQueue,
    caller: &mut Caller,
    queue: &[u32],
) -> Result<(), AllocError>
    requires ready { IsReady P (lawful P (L.allows table.now.law)) table.now.vertices graph.now }
    requires caller { caller.old.table ≡ table.now.id }
    ensures { IsLater (lawful P (L.allows table.now.law)) caller.old caller.new }
{
    for vertex in queue {
        let vertex = *vertex;
        if !graph.has_vertex(vertex) {
            continue;
        }
        if let Some(dist) = read_dist(table, vertex, caller) {
            work_queue.bins().put(Entry { vertex, dist })?;
        }
    }
    Ok(())
}

// Gets a worker's first entries: the first worker takes those of the queue, and every other waits for a shared chunk. Returns
// false if all work is done.
fn begin<C: ThreadsAndSleep, L: Lawful, const P: u32>(
    rt: &C,
    graph: &Graph,
    table: &OfferTable<L, P>,
    common: &Common,
    work_queue: &mut WorkQueue,
    caller: &mut Caller,
) -> Result<bool, AllocError>
    requires ready { IsReady P (lawful P (L.allows table.now.law)) table.now.vertices graph.now }
    requires caller { caller.old.table ≡ table.now.id }
    ensures { IsLater (lawful P (L.allows table.now.law)) caller.old caller.new }
{
    if !work_queue.is_first() {
        return Ok(work_queue.begin(rt, common));
    }
    put_queue(graph, table, work_queue, caller, common.queue.as_slice())?;
    Ok(true)
}

// Works until nothing is left to do, and returns the marks of the relaxed vertices. A worker that has worked for too long fails
// as if memory had been refused, and drops its entries.
fn work<C: ThreadsAndSleep, L: Lawful, const P: u32>(
    rt: &C,
    graph: &Graph,
    table: &OfferTable<L, P>,
    common: &Common,
    work_queue: &mut WorkQueue,
    caller: &mut Caller,
) -> Result<Vec<Mark>, AllocError>
    requires ready { IsReady P (lawful P (L.allows table.now.law)) table.now.vertices graph.now }
    requires caller { caller.old.table ≡ table.now.id }
    ensures later { IsLater (lawful P (L.allows table.now.law)) caller.old caller.new }
    ensures marks { IfOk result
        (λ marks. AllTrue (max_dist P) graph.now caller.new.story marks.items) }
{
    if !begin(rt, graph, table, common, work_queue, caller)? {
        return Ok(Vec::new(common.alloc));
    }
    let mut horizon = Horizon::new(common.limit);
    let mut batch = Batch::new(graph, common)?;
    for _ in 0..STRETCHES {
        if !work_queue.find(rt, common)? {
            return Ok(batch.into_marks());
        }
        horizon.look(graph, table, common.targets.as_slice(), caller);
        run_some(graph, table, work_queue, horizon, &mut batch, caller)?;
    }
    Err(AllocError)
}

// Makes a list of one worker's marks. If memory is refused, it is empty.
fn list_of(alloc: Global, marks: Vec<Mark>) -> Vec<Vec<Mark>>
    ensures { All (λ list. list ≡ marks) result.items }
{
    let mut lists = Vec::new(alloc);
    let _ = lists.push(marks);
    lists
}

// Runs one worker, which starts with the queue or waits for entries from others.
fn run_worker<C: ThreadsAndSleep, L: Lawful, const P: u32>(
    rt: &C,
    graph: &Graph,
    table: &OfferTable<L, P>,
    common: &Common,
    meter: &Meter,
    start: Start,
) -> Relaxed
    requires ready { IsReady P (lawful P (L.allows table.now.law)) table.now.vertices graph.now }
    requires caller { start.caller.table ≡ table.now.id }
    ensures later { IsLater (lawful P (L.allows table.now.law)) start.caller result.caller }
    ensures marks { AreTrue (max_dist P) graph.now result.caller.story result.marks.items }
{
    let Start {
        worker,
        own,
        mut caller,
    } = start;
    let Ok(mut work_queue) = WorkQueue::new(common, worker, own, meter) else {
        // the first worker would have taken the queue
        let lost = worker == 0;
        if lost {
            common.signals.leave(worker);
        }
        return Relaxed::without_marks(common.alloc, caller, lost);
    };
    match work(rt, graph, table, common, &mut work_queue, &mut caller) {
        Ok(marks) => Relaxed {
            caller,
            lost: false,
            marks: list_of(common.alloc, marks),
        },
        Err(_) => {
            common.signals.leave(worker);
            Relaxed::without_marks(common.alloc, caller, true)
        }
    }
}

// Merges the results of two squads. The caller knows what both did and has the calls of both. If memory is refused, the marks are
// those of the first squad.
fn merge<L: Lawful, const P: u32>(
    table: &OfferTable<L, P>,
    mine: Relaxed,
    theirs: Relaxed,
) -> Relaxed
    requires mine { mine.caller.table ≡ table.now.id }
    requires theirs { theirs.caller.table ≡ table.now.id }
    ensures later { IsLater (lawful P (L.allows table.now.law)) mine.caller result.caller }
    ensures both { Follows (lawful P (L.allows table.now.law))
        mine.caller.story theirs.caller.story result.caller.story }
    ensures own { own_calls result.caller.story
        ≡ own_calls mine.caller.story ++ own_calls theirs.caller.story }
    ensures lost { result.lost ≡ (mine.lost || theirs.lost) }
    ensures marks { (max : ℕ) (g : Network)
        → AreTrue max g mine.caller.story mine.marks.items
        → AreTrue max g theirs.caller.story theirs.marks.items
        → AreTrue max g result.caller.story result.marks.items }
{
    let mut marks = mine.marks;
    let mut more = theirs.marks;
    let _ = marks.append(&mut more);
    Relaxed {
        caller: table.join(mine.caller, theirs.caller),
        lost: mine.lost || theirs.lost,
        marks,
    }
}

// Splits a squad in two: the second squad gets these deques and a caller of its own.
fn part<L: Lawful, const P: u32>(
    table: &OfferTable<L, P>,
    squad: Squad,
    owners: Vec<Worker<Chunk>>,
) -> (Squad, Squad)
    requires { squad.caller.table ≡ table.now.id }
    ensures first { IsLater (lawful P (L.allows table.now.law)) squad.caller result.0.caller }
    ensures second { result.1.caller.table ≡ table.now.id }
    ensures first_owners { result.0.owners ≡ squad.owners }
    ensures second_owners { result.1.owners ≡ owners }
{
    let Ok((caller, other)) = table.split(squad.caller) else {
        unreachable!()
    };
    let second = Squad {
        worker: squad.worker.saturating_add(squad.owners.len()),
        owners,
        caller: other,
    };
    let first = Squad {
        worker: squad.worker,
        owners: squad.owners,
        caller,
    };
    (first, second)
}

// Runs the first worker of a squad, on this thread.
fn run_first<C: ThreadsAndSleep, L: Lawful, const P: u32>(
    rt: &C,
    graph: &Graph,
    table: &OfferTable<L, P>,
    common: &Common,
    meter: &Meter,
    squad: Squad,
) -> Relaxed
    requires ready { IsReady P (lawful P (L.allows table.now.law)) table.now.vertices graph.now }
    requires caller { squad.caller.table ≡ table.now.id }
    ensures later { IsLater (lawful P (L.allows table.now.law)) squad.caller result.caller }
    ensures marks { AreTrue (max_dist P) graph.now result.caller.story result.marks.items }
{
    let Squad {
        worker,
        mut owners,
        caller,
    } = squad;
    let Some(own) = owners.pop() else {
        return Relaxed::without_marks(common.alloc, caller, true);
    };
    let start = Start {
        worker,
        own,
        caller,
    };
    run_worker(rt, graph, table, common, meter, start)
}

// Runs a worker for each of the deques, one on this thread and the others on threads that it starts. Each half starts its own
// threads, so that the last of many workers starts early. If memory is refused, there are fewer workers.
#[cycle(workers)]
fn run_workers<C: ThreadsAndSleep, L: Lawful + Send + Sync, const P: u32>(
    rt: &C,
    graph: &Graph,
    table: &OfferTable<L, P>,
    common: &Common,
    meter: &Meter,
    mut squad: Squad,
) -> Relaxed
    requires ready { IsReady P (lawful P (L.allows table.now.law)) table.now.vertices graph.now }
    requires caller { squad.caller.table ≡ table.now.id }
    ensures later { IsLater (lawful P (L.allows table.now.law)) squad.caller result.caller }
    ensures marks { AreTrue (max_dist P) graph.now result.caller.story result.marks.items }
{
    let half = squad.owners.len() / 2;
    if half == 0 {
        return run_first(rt, graph, table, common, meter, squad);
    }
    let Ok(owners) = squad.owners.split_off(half) else {
        return run_first(rt, graph, table, common, meter, squad);
    };
    let (first, second) = part(table, squad, owners);
    let theirs = move || -> Relaxed
        requires { IsSync C.row × IsSync L.row × IsSend L.row
            × IsReady P (lawful P (L.allows table.now.law)) table.now.vertices graph.now
            × (second.caller.table ≡ table.now.id) }
        ensures { IsLater (lawful P (L.allows table.entry.now.law)) second.caller result.caller
            × AreTrue (max_dist P) graph.entry.now result.caller.story result.marks.items }
    { run_workers(rt, graph, table, common, meter, second) };
    let mine = move || -> Relaxed
        requires { IsSync C.row × IsSync L.row × IsSend L.row
            × IsReady P (lawful P (L.allows table.now.law)) table.now.vertices graph.now
            × (first.caller.table ≡ table.now.id) }
        ensures { IsLater (lawful P (L.allows table.entry.now.law)) first.caller result.caller
            × AreTrue (max_dist P) graph.entry.now result.caller.story result.marks.items }
    { run_workers(rt, graph, table, common, meter, first) };
    let (later, sooner) = join(rt, theirs, mine);
    merge(table, sooner, later)
}

/// Relaxes the arcs of the vertices in the queue, and of each vertex whose distance becomes smaller in turn, as long as there is
/// memory for the entries. It relaxes vertices only up to the limit and, if targets are named, only up to the farthest target
/// once all targets are reached.
///
/// The workers are this thread and threads that it starts and joins. Each has its own caller.
pub fn relax_all<C: ThreadsAndSleep, L: Lawful + Send + Sync, const P: u32>(
    rt: &C,
    alloc: Global,
    graph: &Graph,
    table: &OfferTable<L, P>,
    search: &Search<P>,
    caller: Caller,
) -> Relaxed
    requires ready { IsReady P (lawful P (L.allows table.now.law)) table.now.vertices graph.now }
    requires caller { caller.table ≡ table.now.id }
    ensures later { IsLater (lawful P (L.allows table.now.law)) caller result.caller }
    ensures marks { AreTrue (max_dist P) graph.now result.caller.story result.marks.items }
{
    let meter = search.meter;
    let (common, owners) = match Common::new(alloc, search) {
        Ok(made) => made,
        Err(_) => return Relaxed::without_marks(alloc, caller, true),
    };
    let squad = Squad {
        worker: 0,
        owners,
        caller,
    };
    run_workers(rt, graph, table, &common, meter, squad)
}
