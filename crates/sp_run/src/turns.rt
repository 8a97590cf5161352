//! Repeats turns of a team until a copy of the words answers the query.
ghost use Rattle.std.specs.Prelude.{◌≡◌, IfOk};
ghost use Rattle.sp_word.specs.Word.{max_dist};
ghost use Rattle.sp_paths.specs.Paths.{word_at};
ghost use Rattle.sp_judge.specs.Marked.{AreTrueMarks};
ghost use Rattle.sp_answer.specs.Run.{IsAsked, AreRunWords};
ghost use Rattle.sp_judge.specs.Asked.{ShowsAsked};
ghost use Rattle.sp_run.specs.RunFromAny.{TakesWalks, KnowsOwn, IsOfWalks};

use crate::run::RunFromAny;
use crate::walks_from_any::WalksFromAny;
use sp_answer::{RunRequest, RunWords, Until};
use sp_judge::{MarkedWords, Scan, judge_by, open_tails, settle};
use sp_offer::{Caller, OfferTable};
use sp_team::Search;
use sp_word::{ThreadsAndSleep, Word};
use std::alloc::AllocError;

// Upper bound on the turns of a team in a run; never reached in practice. After it, the plain program relaxes what is still open.
const TURNS: u32 = 8;

impl<'g, const P: u32> RunFromAny<'g, P> {
    // Judges a copy of the words by the arcs that matter to the query. It skips vertices that a mark shows to be relaxed.
    fn judge<C: ThreadsAndSleep>(&self, rt: &C, copy: MarkedWords<P>, until: Until) -> Scan
        requires copy { IsOfWalks P self.now copy.words.now }
        requires marks { AreTrueMarks (max_dist P)
            self.now.graph (word_at copy.words.now) copy.marks.now }
        requires asked { IsAsked P self.now.graph.n until }
        ensures { ShowsAsked P self.now.graph
            self.now.sources until.entry copy.entry.words.now result }
    {
        let run = RunRequest {
            sources: self.sources,
            until,
        };
        let threads = self.team.workers.get();
        judge_by(rt, self.alloc, self.graph, run, copy, threads)
    }

    // Answers the query from a copy of the words in which the team's turns have left arcs open.
    fn finish(&self, mut words: Vec<Word<P>>, until: Until) -> RunWords<P>
        requires copy { IsOfWalks P self.now words.items }
        requires asked { IsAsked P self.now.graph.n until }
        ensures { AreRunWords P self.now.graph self.now.sources until.entry
            result.words.items result.far }
    {
        let run = RunRequest {
            sources: self.sources,
            until,
        };
        let far = settle(self.graph, run, &mut words);
        RunWords { words, far }
    }

    // Repeats turns until a copy of all words answers the query.
    fn turns<C: ThreadsAndSleep>(
        &self,
        rt: &C,
        table: &OfferTable<WalksFromAny<'g>, P>,
        mut caller: Caller,
        until: Until,
    ) -> Result<RunWords<P>, AllocError>
        requires table { TakesWalks self.now table.now.law table.now.vertices }
        requires caller { caller.table ≡ table.now.id }
        requires own { KnowsOwn self.now.sources caller }
        requires asked { IsAsked P self.now.graph.n until }
        ensures { IfOk result (λ made. AreRunWords P self.now.graph self.now.sources until.entry
            made.words.items made.far) }
    {
        let mut queue = Vec::from_slice(self.alloc, self.sources)?;
        for _ in 0..TURNS {
            let search = Search {
                team: self.team,
                queue: queue.as_slice(),
                targets: until.targets(),
                limit: until.limit(),
                meter: self.meter,
            };
            let (words, done) = self.lower(rt, table, &search, caller)?;
            let copy = MarkedWords {
                words: words.as_slice(),
                marks: done.marks.as_slice(),
            };
            match self.judge(rt, copy, until) {
                Scan::Whole => return Ok(RunWords { words, far: None }),
                Scan::LeavesOut(vertex) => {
                    return Ok(RunWords {
                        words,
                        far: Some(vertex),
                    });
                }
                Scan::Open if done.lost => return Err(AllocError),
                Scan::Open => queue = open_tails(self.alloc, words.as_slice(), self.graph.arcs())?,
            }
            caller = done.caller;
        }
        let copy = table.list_words(self.alloc, &mut caller)?;
        Ok(self.finish(copy, until))
    }

    /// Lowers words until they answer the query, in a table that is freed before it returns.
    pub(crate) fn relax<C: ThreadsAndSleep>(
        &self,
        rt: &C,
        until: Until,
    ) -> Result<RunWords<P>, AllocError>
        requires { IsAsked P self.now.graph.n until }
        ensures { IfOk result (λ made. AreRunWords P self.now.graph self.now.sources until.entry
            made.words.items made.far) }
    {
        let (table, caller) = self.open()?;
        self.turns(rt, &table, caller, until)
    }
}
