//! A batch of pairs: a source and a target each. What is told of them is words or routes.
ghost use Rattle.std.specs.Prelude.{◌≡◌, ℕ, true, List, All, Some, IfSome, IfNone, IfErr};
ghost use Rattle.sp_word.specs.Word.{is_layout};
ghost use Rattle.sp_dimacs.specs.Graph.{IsNetworkUpTo, graph_of};
ghost use Rattle.sp_network.specs.Network.{directed, most_of};
ghost use Rattle.sp_network.specs.declared.directions.Direction.TheVariants.{AsGiven};
ghost use Rattle.sp_dimacs.specs.Pairs.{ArePairsWithin};
ghost use Rattle.sp_jobs.specs.Answers.{is_early};
ghost use Rattle.sp_jobs.specs.Answered.{wrote_by};
ghost use Rattle.sp_jobs.specs.PairAnswers.{word_kind};
ghost use Rattle.sp_pairs.specs.Pairs.{IsPairUpTo, IsFirstPairAbove, ArePairsDone, PairsAnswered, PairsOfSome, MayFail};

use crate::pair_lines::write_pairs;
use crate::told::PairLine;
use crate::towards::find_slots;
use sp_answer::PairAnswer;
use sp_device::Peeked;
use sp_dimacs::{PairsFile, Read, Write, read_pairs};
use sp_jobs::{BatchError, BucketWidth, Listener, Nobody, Role, Settings, Summary};
use sp_network::{Direction, Network};
use sp_run::RunsTeams;
use sp_word::Workers;
use std::alloc::Global;

// Returns the first number that isn't a vertex, if there is one. In a pair, the source comes before the target.
fn first_pair_above(pairs: &[(u32, u32)], n: u32) -> Option<(u32, Role)>
    ensures first { IfSome result (λ named. IsFirstPairAbove n pairs.now named.0 named.1) }
    ensures none { IfNone result (All (IsPairUpTo n) pairs.now) }
{
    for (source, target) in pairs {
        if *source > n {
            return Some((*source, Role::Source));
        }
        if *target > n {
            return Some((*target, Role::Target));
        }
    }
    None
}

// Tests the pairs, finds all their answers, and then writes them.
#[tactic(auto, using(crate::proofs::SamePairs::pairs_not_early))]
fn answer_pairs<const P: u32, A: PairLine<P>, R: RunsTeams<P>, W: Write, L: Listener>(
    rt: &R,
    alloc: Global,
    file: Network,
    list: &PairsFile,
    settings: &Settings<P, L>,
    out: &mut W,
) -> Result<Summary, BatchError>
    requires handle { R.is_shared }
    requires layout { is_layout P ≡ true }
    requires network { IsNetworkUpTo P (most_of settings.now.direction) file }
    requires pairs { ArePairsWithin P list.now }
    ensures done { ArePairsDone A.kind P (wrote_by W.Write out.old out.new)
        (directed settings.now.direction (graph_of file)) list.now.pairs.items result }
    ensures untouched { IfErr result (λ e. is_early e ≡ true → out.new ≡ out.old) }
{
    if let Some((number, role)) = first_pair_above(&list.pairs, file.n()) {
        return Err(BatchError::NoSuchVertex(number, role));
    }
    let slots = find_slots::<P, A, R, L>(rt, alloc, file, &list.pairs, settings)?;
    write_pairs::<P, A, W>(&list.pairs, &slots, out)
}

/// Reads a graph and a list of pairs. For each pair, in the order of the list, writes one line: the target's word of
/// the source's shortest-path tree, or the vertex that is too far for a word of `P` bits of predecessor, or that no
/// walk leads to the target.
///
/// The graph is read first, then the pairs; then all their numbers are tested, and all answers are found, before
/// anything is written. `width` is the width of a bucket, and `workers` is the number of threads, including this one.
/// The text is the same for all widths and numbers of threads. If the writer fails, a prefix of the text has been
/// written.
///
/// It makes one run from each source, wherever its pairs are in the list. The run goes no farther than the farthest of
/// their targets. The handle is as in `run_batch_told`.
pub fn run_pairs<const P: u32, R: RunsTeams<P>, G: Read, S: Read, W: Write>(
    rt: &R,
    alloc: Global,
    gr: &mut Peeked<G>,
    pairs: &mut S,
    out: &mut W,
    width: BucketWidth<P>,
    workers: Workers,
) -> Result<Summary, BatchError>
    requires handle { R.is_shared }
    requires layout { is_layout P ≡ true }
    ensures exact { (gr_text list_text : List ℕ)
        → ⟦<Peeked<G> as Read>⟧.left gr.old ≡ Some gr_text → S.left pairs.old ≡ Some list_text
        → PairsAnswered word_kind P AsGiven gr_text list_text
        ⟦<Peeked<G> as Read>⟧ gr.new S.Read pairs.new
        (wrote_by W.Write out.old out.new) result }
    ensures untouched { IfErr result (λ e. is_early e ≡ true → out.new ≡ out.old) }
    ensures found { PairsOfSome word_kind P AsGiven (wrote_by W.Write out.old out.new) result }
    ensures may_fail { IfErr result
        (MayFail (⟦<Peeked<G> as Read>⟧.failing gr.old) (S.failing pairs.old)) }
{
    let settings = Settings {
        direction: Direction::AsGiven,
        width,
        workers,
        listener: &Nobody,
    };
    run_pairs_told::<P, PairAnswer, R, G, S, W, Nobody>(rt, alloc, gr, pairs, out, &settings)
}

/// Does what `run_pairs` does for words (`A` is `PairAnswer`) or routes (`A` is `RouteAnswer`): then each line has, in
/// place of the target's word, its distance and the vertices of the route. It reports the progress to a listener: when
/// the graph has been built, and before each run from a source.
pub fn run_pairs_told<
    const P: u32,
    A: PairLine<P>,
    R: RunsTeams<P>,
    G: Read,
    S: Read,
    W: Write,
    L: Listener,
>(
    rt: &R,
    alloc: Global,
    gr: &mut Peeked<G>,
    pairs: &mut S,
    out: &mut W,
    settings: &Settings<P, L>,
) -> Result<Summary, BatchError>
    requires handle { R.is_shared }
    requires layout { is_layout P ≡ true }
    ensures exact { (gr_text list_text : List ℕ)
        → ⟦<Peeked<G> as Read>⟧.left gr.old ≡ Some gr_text → S.left pairs.old ≡ Some list_text
        → PairsAnswered A.kind P settings.now.direction gr_text list_text
        ⟦<Peeked<G> as Read>⟧ gr.new S.Read pairs.new
        (wrote_by W.Write out.old out.new) result }
    ensures untouched { IfErr result (λ e. is_early e ≡ true → out.new ≡ out.old) }
    ensures found { PairsOfSome A.kind P settings.now.direction
        (wrote_by W.Write out.old out.new) result }
    ensures may_fail { IfErr result
        (MayFail (⟦<Peeked<G> as Read>⟧.failing gr.old) (S.failing pairs.old)) }
{
    let file = settings.read_graph::<R, G>(rt, alloc, gr)?;
    let list = match read_pairs::<P, S>(alloc, pairs) {
        Ok(list) => list,
        Err(error) => return Err(BatchError::Pairs(error)),
    };
    answer_pairs::<P, A, R, W, L>(rt, alloc, file, &list, settings, out)
}
