//! The forest of the sources of a list.
ghost use Rattle.std.specs.Prelude.{◌≡◌, ◌≤◌, ℕ, true, List, Some, IfErr, IfSome};
ghost use Rattle.sp_word.specs.Word.{is_layout, max_dist};
ghost use Rattle.sp_dimacs.specs.Graph.{IsNetworkUpTo, graph_of};
ghost use Rattle.sp_network.specs.Network.{directed, most_of};
ghost use Rattle.sp_jobs.specs.Places.{AreNumbered};
ghost use Rattle.sp_jobs.specs.Answers.{is_early};
ghost use Rattle.sp_jobs.specs.Answered.{MayFail, wrote_by};
ghost use Rattle.sp_jobs.specs.Listing.{HasLeft, IsNumbered, MayRefuse, asked_in};
ghost use Rattle.sp_jobs.specs.Nearest.{IsForestRun, ForestAnswered, ForestOfSome};

use crate::answers::{BatchError, Role, Summary};
use crate::forest_answer::{find_answer, write_answer};
use crate::listing::Listing;
use crate::progress::{Listener, Progress};
use crate::settings::Settings;
use crate::vertices::first_above;
use crate::writing::nothing;
use sp_device::Peeked;
use sp_dimacs::{Read, Write};
use sp_network::Network;
use sp_run::{Nearest, RunsTeams};
use sp_word::Meter;
use std::alloc::Global;

// Tests the sources, and then finds and writes their answer.
fn answer_nearest<const P: u32, R: RunsTeams<P>, W: Write, L: Listener>(
    rt: &R,
    alloc: Global,
    file: Network,
    asked: Nearest,
    settings: &Settings<P, L>,
    out: &mut W,
) -> Result<Summary, BatchError>
    requires handle { R.is_shared }
    requires layout { is_layout P ≡ true }
    requires network { IsNetworkUpTo P (most_of settings.now.direction) file }
    requires sources { AreNumbered asked.sources.now }
    requires limit { IfSome asked.limit (λ limit. limit ≤ max_dist P) }
    ensures forest { IsForestRun P asked.entry.limit (wrote_by W.Write out.old out.new)
        (directed settings.now.direction (graph_of file)) asked.entry.sources.now result }
    ensures untouched { IfErr result (λ e. is_early e ≡ true → out.new ≡ out.old) }
{
    if let Some(source) = first_above(asked.sources, file.n()) {
        return Err(BatchError::NoSuchVertex(source, Role::Source));
    }
    let graph = settings.build(rt, alloc, file)?;
    settings.listener.hear(Progress::Runs {
        written: nothing(),
        count: 1,
    });
    let uncounted = Meter::new();
    let job = settings.job(rt, &graph, &uncounted);
    let found = find_answer(alloc, &job, asked)?;
    write_answer(&found, out)
}

/// Reads a graph and a listing of sources, and writes the forest of all sources: for each vertex its least distance
/// from any of them, the smallest vertex before it on such a walk, and the source to which its predecessors lead. A
/// source that is named twice counts once. With a limit, the forest has the vertices up to that distance. Without a
/// limit, a vertex may be too far for a word of `P` bits of predecessor; then the line of the smallest such vertex is
/// written instead.
///
/// The graph is read first, then the sources, if they are a text; then all sources are tested, before anything is
/// written. The text is the same for all widths of buckets and numbers of workers. If an allocation fails, nothing is
/// written; if the writer fails, a prefix of the text has been written.
///
/// With a limit, the calling thread first looks for a small forest, at the cost of what it touches. If it finds none,
/// or without a limit, one run is made, with all workers. The listener is called when the graph has been built, and
/// before the forest is found. Its meter counts the vertices that the run relaxes, and none that the calling thread
/// relaxes on its own. The summary counts one answer. The handle is as in `run_batch_told`.
pub fn run_nearest_told<
    const P: u32,
    R: RunsTeams<P>,
    G: Read,
    S: Read + Drop,
    W: Write,
    L: Listener,
>(
    rt: &R,
    alloc: Global,
    gr: &mut Peeked<G>,
    sources: Listing<'_, S>,
    limit: Option<u64>,
    out: &mut W,
    settings: &Settings<P, L>,
) -> Result<Summary, BatchError>
    requires handle { R.is_shared }
    requires layout { is_layout P ≡ true }
    requires sources { IsNumbered sources }
    requires limit { IfSome limit (λ limit. limit ≤ max_dist P) }
    ensures exact { (gr_text ss_text : List ℕ)
        → ⟦<Peeked<G> as Read>⟧.left gr.old ≡ Some gr_text → HasLeft S.Read sources.entry ss_text
        → ForestAnswered P settings.now.direction limit gr_text (asked_in sources.entry ss_text)
        ⟦<Peeked<G> as Read>⟧ gr.new W.Write out.old out.new result }
    ensures untouched { IfErr result (λ e. is_early e ≡ true → out.new ≡ out.old) }
    ensures found { ForestOfSome P settings.now.direction limit (asked_in sources.entry)
        W.Write out.old out.new result }
    ensures may_fail { IfErr result
        (MayFail (⟦<Peeked<G> as Read>⟧.failing gr.old) (MayRefuse S.Read sources.entry) (λ _. ⊥)) }
{
    let (file, listed) = settings.read::<R, G, S>(rt, alloc, gr, sources)?;
    let asked = Nearest {
        sources: listed.numbers::<P>(),
        limit,
    };
    answer_nearest::<P, R, W, L>(rt, alloc, file, asked, settings, out)
}
