//! `spt check --all`: checks whether each block of a tree file holds the shortest-path tree of its source.
ghost use Rattle.std.specs.Prelude.{◌≡◌, ℕ, List, Some, true, false, IfOk, IfErr};
ghost use Rattle.std.specs.List.{flat_map};
ghost use Rattle.sp_word.specs.Word.{is_layout};
ghost use Rattle.sp_device.specs.Printing.{Sends, Finished};
ghost use Rattle.sp_command.specs.Faults.{is_done};
ghost use Rattle.sp_command.specs.Answers.{Hinders};
ghost use Rattle.sp_options.specs.Within.{IsLimit};
ghost use Rattle.sp_tools.specs.Verdicts.{FileJudged, TellsFault, judged_text, end_of};
ghost use Rattle.sp_tools.specs.CheckAnswers.{TreesJudged, AreTreesRefused, GiveTexts, check_paths, check_faults};
ghost use Rattle.sp_tools.specs.Early.{IsEarly, IsOfFile};

use crate::check::{CheckCommand, Verdict, judge};
use crate::graphs::{all_workers, read_graph};
use sp_command::{Fault, FileKind, Inputs, Status};
use sp_device::{Peeked, Printer, Read, Write, WriteFault, finish, print_number, print_text};
use sp_files::TreeBlocks;
use sp_graph::Graph;
use sp_jobs::{BucketWidth, Nobody, Settings};
use std::alloc::Global;
use std::sync::Wait;
use std::thread::Threads;

/// The checker's verdict on a block.
#[derive(Clone, Copy, Debug, PartialEq, Eq)]
pub struct Judged {
    /// The source of the block's tree.
    pub source: u32,
    /// The verdict: whether the tree is the shortest-path tree of that source, or else what is wrong.
    pub verdict: Verdict,
}

/// Returns the verdict on each block of one file, for the graph in another.
pub fn find_verdicts<const P: u32, R: Threads + Wait + Sync, F: Inputs>(
    rt: &R,
    alloc: Global,
    given: &CheckCommand<'_>,
    limit: Option<u64>,
    files: &F,
) -> Result<Vec<Judged>, Fault>
    requires layout { is_layout P ≡ true }
    requires limit { IsLimit P limit }
    ensures judged { (gr tree : List ℕ) → GiveTexts (F.files files.now).text given.now gr tree
        → IfOk result (λ all. TreesJudged P given.now.direction limit gr tree all.items) }
    ensures found { IfOk result
        (λ all. (gr trees : List ℕ) × TreesJudged P given.now.direction limit gr trees all.items) }
    ensures refused { (gr tree : List ℕ) → GiveTexts (F.files files.now).text given.now gr tree
        → IfErr result (Hinders (AreTreesRefused P given.now.direction gr tree)) }
    ensures early { IfErr result
        (IsEarly (check_paths given.now) (check_faults P given.now) (F.files files.now)) }
{
    let (gr, mut trees) = FileKind::Tree.open_with_graph(files, given.graph, given.tree)?;
    let settings = Settings::<P, Nobody> {
        direction: given.direction,
        width: BucketWidth::MeanLength,
        workers: all_workers(rt),
        listener: &Nobody,
    };
    let mut gr = Peeked::new(gr);
    let graph = read_graph::<P, R, _, Nobody>(rt, alloc, &mut gr, &settings)?;
    judge_blocks::<P, R, _>(rt, alloc, &graph, limit, &mut trees)
}

// Returns the verdict on each block of a tree file.
fn judge_blocks<const P: u32, R: Threads + Sync, D: Read>(
    rt: &R,
    alloc: Global,
    graph: &Graph,
    limit: Option<u64>,
    trees: &mut D,
) -> Result<Vec<Judged>, Fault>
    requires layout { is_layout P ≡ true }
    requires limit { IsLimit P limit }
    ensures judged { (text : List ℕ) → D.left trees.old ≡ Some text
        → IfOk result (λ all. FileJudged P limit graph.now text all.items) }
    ensures found { IfOk result
        (λ all. (text : List ℕ) × FileJudged P limit graph.now text all.items) }
    ensures refused { (text : List ℕ) → D.left trees.old ≡ Some text
        → IfErr result (TellsFault P text (D.has_failed trees.new)) }
    ensures told { D.has_failed trees.old ≡ false
        → IfErr result (IsOfFile FileKind.Tree (D.failing trees.old)) }
{
    let mut blocks = TreeBlocks::<P>::new(alloc);
    let mut all = Vec::new(alloc);
    loop {
        match blocks.next(trees) {
            Ok(Some(tree)) => {
                let verdict = judge(rt, alloc, graph, &tree, limit)?;
                let source = tree.source();
                if all.push(Judged { source, verdict }).is_err() {
                    return Err(Fault::Memory);
                }
            }
            Ok(None) => return Ok(all),
            Err(error) => return Err(FileKind::Tree.fault(error)),
        }
    }
}

/// Returns the exit status for these verdicts.
pub fn status_of(all: &[Judged]) -> Status
    ensures exact { result ≡ end_of all.now }
    ensures done { is_done result ≡ true }
{
    for judged in all {
        if judged.verdict != Verdict::Yes {
            return Status::CheckedNo;
        }
    }
    Status::Done
}

// Writes the line of a block to a printer.
fn print_judged<W: Write>(judged: Judged, out: &mut W, printer: &mut Printer)
    ensures { Sends W.Write (judged_text judged) out.old printer.old out.new printer.new }
{
    match judged.verdict {
        Verdict::Yes => print_text(out, printer, b"yes\n"),
        Verdict::No { vertex, rule } => {
            print_text(out, printer, b"no ");
            print_number(out, printer, judged.source as u64);
            print_text(out, printer, b" ");
            print_number(out, printer, vertex as u64);
            print_text(out, printer, b" ");
            print_number(out, printer, rule.number() as u64);
            print_text(out, printer, b"\n");
        }
    }
}

// Writes the lines of all blocks to a printer.
fn print_verdicts<W: Write>(all: &[Judged], out: &mut W, printer: &mut Printer)
    ensures { Sends W.Write (flat_map judged_text all.now) out.old printer.old out.new printer.new }
{
    for judged in all {
        print_judged(*judged, out, printer);
    }
}

/// Writes a line for each block.
pub fn write_verdicts<W: Write>(all: &[Judged], out: &mut W) -> Result<u64, WriteFault>
    ensures { Finished W.Write (flat_map judged_text all.now) out.old result out.new }
{
    let mut printer = Printer::new();
    print_verdicts(all, out, &mut printer);
    finish(out, printer)
}
