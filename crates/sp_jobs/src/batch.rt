//! A batch of sources.
ghost use Rattle.std.specs.Prelude.{◌≡◌, ◌≤◌, ℕ, true, List, Some, None, IfSome, IfErr};
ghost use Rattle.sp_word.specs.Word.{is_layout, max_dist};
ghost use Rattle.sp_dimacs.specs.Graph.{IsNetworkUpTo, graph_of};
ghost use Rattle.sp_network.specs.Network.{directed, most_of};
ghost use Rattle.sp_network.specs.declared.directions.Direction.TheVariants.{AsGiven};
ghost use Rattle.sp_jobs.specs.Places.{AreNumbered};
ghost use Rattle.sp_jobs.specs.Answers.{is_early};
ghost use Rattle.sp_jobs.specs.Answered.{MayFail, wrote_by};
ghost use Rattle.sp_jobs.specs.Listing.{HasLeft, IsNumbered, MayRead, MayRefuse, asked_in};
ghost use Rattle.sp_jobs.specs.Batch.{BatchAnswered, BatchOfSome, IsBatch, TreesAnswered, TreesOfSome};

use crate::answering::{Assignment, answer_sources};
use crate::answers::{BatchError, Role, Summary};
use crate::listing::Listing;
use crate::places::chosen;
use crate::progress::{Listener, Nobody};
use crate::settings::{BucketWidth, Settings};
use crate::trees::TreeQuestion;
use crate::vertices::first_above;
use sp_device::Peeked;
use sp_dimacs::{Read, Write, read_ss};
use sp_network::{Direction, Network};
use sp_run::RunsTeams;
use sp_serial::SearchPool;
use sp_word::{Meter, Workers};
use std::alloc::Global;
use std::sync::Wait;
use std::thread::Threads;

// Tests the sources of a batch, and then finds and writes their answers.
#[tactic(auto, using(crate::proofs::ToldInOrder::not_early))]
fn answer_batch<const P: u32, R: RunsTeams<P>, W: Write, L: Listener>(
    rt: &R,
    alloc: Global,
    file: Network,
    sources: &[u32],
    limit: Option<u64>,
    settings: &Settings<P, L>,
    out: &mut W,
) -> Result<Summary, BatchError>
    requires handle { R.is_shared }
    requires layout { is_layout P ≡ true }
    requires network { IsNetworkUpTo P (most_of settings.now.direction) file }
    requires sources { AreNumbered sources.now }
    requires limit { IfSome limit (λ l. l ≤ max_dist P) }
    ensures batch { IsBatch P limit (wrote_by W.Write out.old out.new)
        (directed settings.now.direction (graph_of file)) sources.now result }
    ensures untouched { IfErr result (λ e. is_early e ≡ true → out.new ≡ out.old) }
{
    if let Some(source) = first_above(sources, file.n()) {
        return Err(BatchError::NoSuchVertex(source, Role::Source));
    }
    // Searches within a distance may be short.
    let searches = if limit.is_none() { sources.len() } else { 1 };
    let graph = settings.build_for(rt, alloc, file, searches)?;
    let uncounted = Meter::new();
    let question = TreeQuestion {
        job: settings.job(rt, &graph, &uncounted),
        limit,
        pool: SearchPool::new(alloc, settings.workers.get() as usize),
    };
    let count = sources.len();
    let asked = Assignment::of::<P, _>(&question.job, settings.listener, sources, count);
    answer_sources::<_, R, W, L>(rt, alloc, &question, &asked, out)
}

/// Reads a graph and a list of sources. For each source, in the order of the list, writes its shortest-path tree, or
/// the line of the vertex that is too far for a word of `P` bits of predecessor.
///
/// The graph is read first, then the sources; then all sources are tested, before anything is written. `width` is the
/// width of a bucket, and `workers` is the number of threads, including this one. The text is the same for all widths
/// and numbers of threads. If an allocation or the writer fails, a prefix of the text has been written.
///
/// As many sources are answered at once as there are workers, each by one of them. This thread writes the answers for a
/// group of sources while the workers find those for the next one.
pub fn run_batch<const P: u32, R: Threads + Wait + Sync, G: Read, S: Read, W: Write>(
    rt: &R,
    alloc: Global,
    gr: &mut Peeked<G>,
    ss: &mut S,
    out: &mut W,
    width: BucketWidth<P>,
    workers: Workers,
) -> Result<Summary, BatchError>
    requires layout { is_layout P ≡ true }
    ensures exact { (gr_text ss_text : List ℕ)
        → ⟦<Peeked<G> as Read>⟧.left gr.old ≡ Some gr_text → S.left ss.old ≡ Some ss_text
        → BatchAnswered P AsGiven None None gr_text ss_text
        ⟦<Peeked<G> as Read>⟧ gr.new S.Read ss.new
        W.Write out.old out.new result }
    ensures untouched { IfErr result (λ e. is_early e ≡ true → out.new ≡ out.old) }
    ensures found { BatchOfSome P AsGiven None None W.Write out.old out.new result }
    ensures may_fail { IfErr result
        (MayFail (⟦<Peeked<G> as Read>⟧.failing gr.old) (MayRead (S.failing ss.old)) (λ _. ⊥)) }
{
    let settings = Settings {
        direction: Direction::AsGiven,
        width,
        workers,
        listener: &Nobody,
    };
    let file = settings.read_graph::<&R, G>(&rt, alloc, gr)?;
    let list = match read_ss::<P, S>(alloc, ss) {
        Ok(list) => list,
        Err(fault) => return Err(BatchError::Ss(fault)),
    };
    let sources = chosen::<P>(None, &list);
    answer_batch::<P, &R, W, Nobody>(&rt, alloc, file, sources, None, &settings, out)
}

/// Does what `run_batch` does for the sources of a listing, and reports the progress to a listener: when the graph has
/// been built, and before each source, or each group of sources that are answered at once. With a limit, it writes for
/// each source the part of its tree within that distance, however far other vertices are.
///
/// With `&Alone::new(rt)` no thread sleeps until another wakes it, and if there is one worker, the calling thread does
/// the whole job. With `&rt`, a reference to the runtime's, threads may wait for one another.
pub fn run_batch_told<
    const P: u32,
    R: RunsTeams<P>,
    G: Read,
    S: Read + Drop,
    W: Write,
    L: Listener,
>(
    rt: &R,
    alloc: Global,
    gr: &mut Peeked<G>,
    sources: Listing<'_, S>,
    limit: Option<u64>,
    out: &mut W,
    settings: &Settings<P, L>,
) -> Result<Summary, BatchError>
    requires handle { R.is_shared }
    requires layout { is_layout P ≡ true }
    requires sources { IsNumbered sources }
    requires limit { IfSome limit (λ l. l ≤ max_dist P) }
    ensures exact { (gr_text ss_text : List ℕ)
        → ⟦<Peeked<G> as Read>⟧.left gr.old ≡ Some gr_text → HasLeft S.Read sources.entry ss_text
        → TreesAnswered P settings.now.direction limit gr_text (asked_in sources.entry ss_text)
        ⟦<Peeked<G> as Read>⟧ gr.new W.Write out.old out.new result }
    ensures untouched { IfErr result (λ e. is_early e ≡ true → out.new ≡ out.old) }
    ensures found { TreesOfSome P settings.now.direction limit (asked_in sources.entry)
        W.Write out.old out.new result }
    ensures may_fail { IfErr result
        (MayFail (⟦<Peeked<G> as Read>⟧.failing gr.old) (MayRefuse S.Read sources.entry) (λ _. ⊥)) }
{
    let (file, listed) = settings.read::<R, G, S>(rt, alloc, gr, sources)?;
    let sources = listed.numbers::<P>();
    answer_batch::<P, R, W, L>(rt, alloc, file, sources, limit, settings, out)
}
