//! `spt check`: checks whether a tree file holds the shortest-path tree of its source, or the forest of its sources.
ghost use Rattle.std.specs.Prelude.{◌≡◌, ℕ, List, true, IfOk, IfErr, codes};
ghost use Rattle.sp_word.specs.Word.{is_layout};
ghost use Rattle.sp_device.specs.Printing.{IsSending, Finished};
ghost use Rattle.sp_command.specs.Answers.{Hinders};
ghost use Rattle.sp_tools.specs.Verdict.{IsVerdict, IsForestVerdict, IsVerdictOn, IsVerdictOf, verdict_text, verdict_end};
ghost use Rattle.sp_tools.specs.CheckAnswers.{TreeJudged, IsTreeRefused, GiveTexts, CheckAnswers, check_paths, check_faults};
ghost use Rattle.sp_options.specs.Within.{IsLimit};
ghost use Rattle.sp_tools.specs.Early.{IsEarly};
ghost use Rattle.sp_tools.specs.Words.{IsCheck, LacksCheck, check_rules};

use crate::check_all::{find_verdicts, status_of, write_verdicts};
use crate::graphs::{all_workers, read_graph};
use clap::{ArgMatches, Error};
use sp_cert::{CheckError, Rule, check, check_forest, check_within};
use sp_command::{
    BuiltCommand, Command, Fault, FileKind, Inputs, Runnable, Status, after_help, file, flag,
    graph_file,
};
use sp_device::{Peeked, Printer, Write, WriteFault, finish, print_number, print_text};
use sp_files::{ForestFile, Tree, TreeOrForest, read_tree_or_forest};
use sp_graph::Graph;
use sp_jobs::{BucketWidth, Nobody, Settings};
use sp_network::Direction;
use sp_options::{Within, add_directions, read_direction};
use std::alloc::{AllocError, Global};
use std::sync::Wait;
use std::thread::Threads;

/// The arguments of `check`, with the paths of its files.
#[derive(Drop)]
pub struct CheckCommand<'a> {
    /// The path of the graph.
    pub graph: &'a str,
    /// The path of the tree.
    pub tree: &'a str,
    /// The direction of the graph's arcs, relative to its file.
    pub direction: Direction,
    /// Whether the file may have several blocks, which are all checked.
    pub all: bool,
    /// The limit up to which the tree or the forest is checked, if there is one.
    pub within: Within,
}

impl<'a> Command<'a> for CheckCommand<'a> {
    ghost spelled = { codes "check" };

    ghost rules = { check_rules };

    ghost reads = { IsCheck };

    ghost lacks = { LacksCheck };

    ghost paths = { check_paths };

    const ABOUT: &'static str = "Check a tree or a forest against its graph";

    const LONG_ABOUT: &'static str = "\
Check a tree or a forest against its graph

The answer is `yes` if the file holds the shortest-path tree of its source and
no vertex is too far (every distance fits, see --pred-bits), whatever program
wrote the file. Otherwise it is `no V R`, with the lowest vertex V at which a
rule fails and the number R of the first rule that fails there:
  1  the tree and the graph differ in their number of vertices (V is 0, and
     nothing else is checked)
  2  the distance or the predecessor of the source is not 0
  3  an arc from a vertex of the tree offers V a shorter distance, or the same
     one with a smaller predecessor, and the distance fits
  4  V is not the source, and its predecessor is not a vertex of the tree with
     an arc to V whose length is the difference of the two distances
  5  V has no line, and an arc from a vertex of the tree offers it a distance
     that does not fit
  6  the distance of V is above the limit
  7  V is not a source, and its root is not its predecessor's root

With --within L it is `yes` if the file holds the part of the tree up to
distance L. Rule 3 then considers only distances up to L, and rule 5 does not
apply. Without --within, a part is `no` if there is a vertex beyond it.

A file whose first line begins with `p near` is read as a forest, as
`spt nearest` writes it. Its sources are the vertices whose line has
predecessor 0. Rule 1 then also requires that their number is the one in the
first line, and rule 2 that each source is its own root.

With --all, the file has one or more blocks of trees, as `spt tree` writes them
for several sources. Each block is checked and gets its own line: `yes`, or
`no S V R` with its source S.";

    const AFTER_HELP: &'static str = after_help!(
        "\
The graph is a file as described in `spt tree --help`. The tree file has
one block, as `spt tree` writes it for a source, with one space between fields
and an LF at the end of each line:
  p spt N S, then v V D P in ascending order of V, then e R
or the block of a forest of K sources, with the root S of each vertex:
  p near N K, then v V D P S in ascending order of V, then e R

It needs as much memory as `spt tree` does for one source, plus 16 bytes per
vertex (at most 32 for a forest) and, with --all, 32 bytes per block.

Example: for the graph and the tree of the example in `spt tree --help`,
`spt check diamond.gr diamond.tree` writes `yes`. With `v 4 5 3` instead of
`v 4 5 2` it writes `no 4 3`, since vertex 2 offers the same distance. With
--within 4 the whole tree is `no 4 6`, since vertex 4 has distance 5.

An error in a file is reported with its line, as in
`spt: tree: line 3: 5 OutOfRange V`; FILE is gr or tree, and the kinds are those
of `spt tree --help`. In a tree file
  2 BadLine        a line has none of these forms, or is not spelled exactly as
                   above; an x line is one
  5 OutOfRange     also a V that is not greater than the one before, and an R
                   that is not the number of v lines
  6 TooMany        something follows the e line; with --all another block may,
                   and anything else is reported as an error in that block
  7 TooFew         the file ends before the e line
A limit that does not fit (see --pred-bits) is reported before a file is opened.
`spt: output is an input` means that -o names GR or TREE (exit status 1).
",
        statuses:
            0 "yes; with --all, for each block"
            1 "the command line is wrong"
            2 "a file is refused"
            3 "no; with --all, for some block";
            "a file" "the answer"
    );

    fn word() -> &'static str
        ensures { result.now ≡ codes "check" }
    {
        "check"
    }

    fn add_arguments(command: clap::Command<'a>, alloc: Global) -> BuiltCommand<'a> {
        let command = command
            .arg(graph_file(alloc))?
            .arg(file(alloc, "TREE", "The file of a tree or a forest"))?;
        add_directions(command, alloc)?
            .arg(flag(
                alloc,
                "all",
                "Check each block of a file that may have several",
            ))?
            .arg(Within::option(alloc))
    }

    fn read(alloc: Global, given: &ArgMatches<'a>) -> Result<Option<Self>, Error> {
        let Some(graph) = given.get_str("GR") else {
            return Ok(None);
        };
        let Some(tree) = given.get_str("TREE") else {
            return Ok(None);
        };
        let Some(within) = Within::read(alloc, given)? else {
            return Ok(None);
        };
        Ok(Some(CheckCommand {
            graph,
            tree,
            direction: read_direction(given),
            all: given.get_flag("all"),
            within,
        }))
    }

    fn path_of(&self, file: FileKind) -> Option<&'a str> {
        match file {
            FileKind::Graph => Some(self.graph),
            FileKind::Tree => Some(self.tree),
            _ => None,
        }
    }
}

impl<const P: u32> Runnable<P> for CheckCommand<'_> {
    ghost answers = { CheckAnswers P };

    ghost paths = { check_paths };

    ghost own_faults = { check_faults P };

    fn run<R: Threads + Wait + Sync, F: Inputs, W: Write>(
        &self,
        rt: &R,
        alloc: Global,
        files: &F,
        out: &mut W,
    ) -> Result<Status, Fault> {
        let limit = self.within.limit_for::<P>()?;
        if self.all {
            let all = find_verdicts::<P, R, F>(rt, alloc, self, limit, files)?;
            write_verdicts(&all, out)?;
            return Ok(status_of(&all));
        }
        let verdict = find_verdict::<P, R, F>(rt, alloc, self, limit, files)?;
        write_verdict(verdict, out)?;
        Ok(verdict.status())
    }
}

// Returns the verdict on the tree or the forest in one file, for the graph in another.
fn find_verdict<const P: u32, R: Threads + Wait + Sync, F: Inputs>(
    rt: &R,
    alloc: Global,
    given: &CheckCommand<'_>,
    limit: Option<u64>,
    files: &F,
) -> Result<Verdict, Fault>
    requires layout { is_layout P ≡ true }
    requires limit { IsLimit P limit }
    ensures judged { (gr tree : List ℕ) → GiveTexts (F.files files.now).text given.now gr tree
        → IfOk result (TreeJudged P given.now.direction limit gr tree) }
    ensures found { IfOk result
        (λ verdict. (gr tree : List ℕ) × TreeJudged P given.now.direction limit gr tree verdict) }
    ensures refused { (gr tree : List ℕ) → GiveTexts (F.files files.now).text given.now gr tree
        → IfErr result (Hinders (IsTreeRefused P given.now.direction gr tree)) }
    ensures early { IfErr result
        (IsEarly (check_paths given.now) (check_faults P given.now) (F.files files.now)) }
{
    let (gr, mut tree) = FileKind::Tree.open_with_graph(files, given.graph, given.tree)?;
    let settings = Settings::<P, Nobody> {
        direction: given.direction,
        width: BucketWidth::MeanLength,
        workers: all_workers(rt),
        listener: &Nobody,
    };
    let mut gr = Peeked::new(gr);
    let graph = read_graph::<P, R, _, Nobody>(rt, alloc, &mut gr, &settings)?;
    let held = match read_tree_or_forest::<P, _>(alloc, &mut tree) {
        Ok(held) => held,
        Err(error) => return Err(FileKind::Tree.fault(error)),
    };
    Ok(judge_either(rt, alloc, &graph, &held, limit)?)
}

/// The verdict of the checker.
#[derive(Clone, Copy, Debug, PartialEq, Eq)]
pub enum Verdict {
    /// The tree is the shortest-path tree.
    Yes,
    /// This rule is the first that fails, at this vertex.
    No { vertex: u32, rule: Rule },
}

impl Verdict {
    /// Returns the exit status of this verdict.
    fn status(self) -> Status
        ensures exact { result ≡ verdict_end self }
    {
        match self {
            Verdict::Yes => Status::Done,
            Verdict::No { .. } => Status::CheckedNo,
        }
    }
}

// Returns the verdict for an answer of the checker.
fn verdict_of(answer: Result<(), CheckError>) -> Result<Verdict, AllocError>
    ensures { IfOk result (IsVerdictOf answer) }
{
    match answer {
        Ok(()) => Ok(Verdict::Yes),
        Err(CheckError::Fault { vertex, rule }) => Ok(Verdict::No { vertex, rule }),
        Err(CheckError::Memory) => Err(AllocError),
    }
}

/// Returns the checker's verdict on a tree, up to the limit if there is one.
pub fn judge<const P: u32, R: Threads + Sync>(
    rt: &R,
    alloc: Global,
    graph: &Graph,
    tree: &Tree<P>,
    limit: Option<u64>,
) -> Result<Verdict, AllocError>
    requires { IsLimit P limit }
    ensures { IfOk result (IsVerdict P limit graph.now tree.now) }
{
    verdict_of(match limit {
        Some(limit) => check_within::<P, R>(rt, alloc, graph, tree, limit),
        None => check::<P, R>(rt, alloc, graph, tree),
    })
}

// Returns the checker's verdict on a forest.
fn judge_forest<const P: u32, R: Threads + Sync>(
    rt: &R,
    alloc: Global,
    graph: &Graph,
    file: &ForestFile<P>,
    limit: Option<u64>,
) -> Result<Verdict, AllocError>
    requires { IsLimit P limit }
    ensures { IfOk result (IsForestVerdict P limit graph.now file.now.forest file.now.sources) }
{
    verdict_of(check_forest::<P, R>(rt, alloc, graph, &file.forest, file.sources, limit))
}

// Returns the checker's verdict on a tree or a forest.
fn judge_either<const P: u32, R: Threads + Sync>(
    rt: &R,
    alloc: Global,
    graph: &Graph,
    held: &TreeOrForest<P>,
    limit: Option<u64>,
) -> Result<Verdict, AllocError>
    requires { IsLimit P limit }
    ensures { IfOk result (IsVerdictOn limit graph.now held.now) }
{
    match held {
        TreeOrForest::Tree(tree) => judge(rt, alloc, graph, tree, limit),
        TreeOrForest::Forest(file) => judge_forest(rt, alloc, graph, file, limit),
    }
}

fn print_verdict<W: Write>(verdict: Verdict, out: &mut W) -> Printer
    ensures { IsSending W.Write (verdict_text verdict) out.old out.new result }
{
    let mut printer = Printer::new();
    match verdict {
        Verdict::Yes => print_text(out, &mut printer, b"yes\n"),
        Verdict::No { vertex, rule } => {
            print_text(out, &mut printer, b"no ");
            print_number(out, &mut printer, vertex as u64);
            print_text(out, &mut printer, b" ");
            print_number(out, &mut printer, rule.number() as u64);
            print_text(out, &mut printer, b"\n");
        }
    }
    printer
}

// Writes the verdict as a line.
fn write_verdict<W: Write>(verdict: Verdict, out: &mut W) -> Result<u64, WriteFault>
    ensures { Finished W.Write (verdict_text verdict) out.old result out.new }
{
    let printer = print_verdict(verdict, out);
    finish(out, printer)
}
