//! A matrix of answers: each source with each target.
ghost use Rattle.std.specs.Prelude.{◌≡◌, ℕ, true, List, Some, IfErr};
ghost use Rattle.sp_word.specs.Word.{is_layout};
ghost use Rattle.sp_dimacs.specs.Graph.{IsNetworkUpTo, graph_of};
ghost use Rattle.sp_network.specs.Network.{directed, most_of};
ghost use Rattle.sp_jobs.specs.Places.{AreNumbered};
ghost use Rattle.sp_jobs.specs.Answers.{is_early};
ghost use Rattle.sp_jobs.specs.Answered.{MayFail, wrote_by};
ghost use Rattle.sp_jobs.specs.Listing.{HasLeft, IsNumbered, MayRefuse, asked_in};
ghost use Rattle.sp_jobs.specs.Matrix.{IsMatrix};
ghost use Rattle.sp_jobs.specs.Matrix.{MatrixAnswered, MatrixOfSome};

use crate::answering::{Assignment, answer_sources};
use crate::answers::{BatchError, Role, Summary};
use crate::listing::Listing;
use crate::progress::Listener;
use crate::row::RowQuestion;
use crate::settings::Settings;
use crate::vertices::first_above;
use sp_device::Peeked;
use sp_dimacs::{Read, Write};
use sp_network::Network;
use sp_run::RunsTeams;
use sp_serial::SearchPool;
use sp_word::Meter;
use std::alloc::Global;

// Tests the sources and then the targets of a matrix, and then finds and writes its lines.
#[tactic(auto, using(crate::proofs::ToldInOrder::not_early))]
fn answer_matrix<'x, const P: u32, R: RunsTeams<P>, W: Write, L: Listener>(
    rt: &'x R,
    alloc: Global,
    file: Network,
    sources: &[u32],
    targets: &'x [u32],
    settings: &'x Settings<P, L>,
    out: &mut W,
) -> Result<Summary, BatchError>
    requires handle { R.is_shared }
    requires layout { is_layout P ≡ true }
    requires network { IsNetworkUpTo P (most_of settings.now.direction) file }
    requires sources { AreNumbered sources.now }
    requires targets { AreNumbered targets.now }
    ensures matrix { IsMatrix P targets.now (wrote_by W.Write out.old out.new)
        (directed settings.now.direction (graph_of file)) sources.now result }
    ensures untouched { IfErr result (λ e. is_early e ≡ true → out.new ≡ out.old) }
{
    let vertices = file.n();
    if let Some(source) = first_above(sources, vertices) {
        return Err(BatchError::NoSuchVertex(source, Role::Source));
    }
    if let Some(target) = first_above(targets, vertices) {
        return Err(BatchError::NoSuchVertex(target, Role::Target));
    }
    let graph = settings.build_for(rt, alloc, file, sources.len())?;
    let uncounted = Meter::new();
    let question = RowQuestion {
        job: settings.job(rt, &graph, &uncounted),
        targets,
        pool: SearchPool::new(alloc, settings.workers.get() as usize),
    };
    let count = sources.len().saturating_mul(targets.len());
    let asked = Assignment::of::<P, _>(&question.job, settings.listener, sources, count);
    answer_sources::<_, R, W, L>(rt, alloc, &question, &asked, out)
}

/// Reads a graph. For each source, in the order of its list, and for each target, in the order of its list, writes the
/// line of this pair: the target's word of the source's shortest-path tree, or the vertex that is too far for a word of
/// `P` bits of predecessor, or that no walk leads to the target.
///
/// The graph is read first, then the sources, then the targets, if they are texts; then all sources are tested, and
/// then all targets, before anything is written. The text is the same for all widths of buckets and numbers of workers.
/// If an allocation or the writer fails, a prefix of the text has been written.
///
/// From each source it looks for near targets. If they aren't near, it makes one run, which goes no farther than the
/// farthest of the targets. Several sources are answered at once, as `run_batch` does. The lines of a source are
/// written as soon as they and those before them are known. The listener is called when the graph has been built, and
/// before each source, or each group of sources that are answered at once. The handle is as in `run_batch_told`.
pub fn run_matrix_told<
    const P: u32,
    R: RunsTeams<P>,
    G: Read,
    S: Read + Drop,
    T: Read + Drop,
    W: Write,
    L: Listener,
>(
    rt: &R,
    alloc: Global,
    gr: &mut Peeked<G>,
    sources: Listing<'_, S>,
    targets: Listing<'_, T>,
    out: &mut W,
    settings: &Settings<P, L>,
) -> Result<Summary, BatchError>
    requires handle { R.is_shared }
    requires layout { is_layout P ≡ true }
    requires sources { IsNumbered sources }
    requires targets { IsNumbered targets }
    ensures exact { (gr_text sources_text targets_text : List ℕ)
        → ⟦<Peeked<G> as Read>⟧.left gr.old ≡ Some gr_text
        → HasLeft S.Read sources.entry sources_text → HasLeft T.Read targets.entry targets_text
        → MatrixAnswered P settings.now.direction gr_text
        (asked_in sources.entry sources_text) (asked_in targets.entry targets_text)
        ⟦<Peeked<G> as Read>⟧ gr.new W.Write out.old out.new result }
    ensures untouched { IfErr result (λ e. is_early e ≡ true → out.new ≡ out.old) }
    ensures found { MatrixOfSome P settings.now.direction
        (asked_in sources.entry) (asked_in targets.entry) W.Write out.old out.new result }
    ensures may_fail { IfErr result
        (MayFail (⟦<Peeked<G> as Read>⟧.failing gr.old)
        (MayRefuse S.Read sources.entry) (MayRefuse T.Read targets.entry)) }
{
    let (file, starts) = settings.read::<R, G, S>(rt, alloc, gr, sources)?;
    let ends = match targets.read::<P>(alloc) {
        Ok(ends) => ends,
        Err(error) => return Err(BatchError::Targets(error)),
    };
    let sources = starts.numbers::<P>();
    let targets = ends.numbers::<P>();
    answer_matrix::<P, R, W, L>(rt, alloc, file, sources, targets, settings, out)
}
