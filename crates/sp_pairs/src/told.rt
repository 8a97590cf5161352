//! What is told of a pair: its target's word, or the route to its target.
ghost use Rattle.std.specs.Prelude.{◌≡◌, ℕ, IfOk, IfSome};
ghost use Rattle.sp_word.specs.Word.{max_dist};
ghost use Rattle.sp_device.specs.Printing.{Sends};
ghost use Rattle.sp_paths.specs.Paths.{Graph};
ghost use Rattle.sp_paths.specs.Bags.{AreSame};
ghost use Rattle.sp_answer.specs.Pair.{answer_of};
ghost use Rattle.sp_answer.specs.Routed.{routed_of};
ghost use Rattle.sp_jobs.specs.PairAnswers.{PairKind, word_kind, route_kind};
ghost use Rattle.sp_pairs.specs.Near.{IsEndOfRoute};
ghost use Rattle.sp_pairs.specs.SameTold.{same_word, same_route};

use sp_answer::{PairAnswer, RouteAnswer, TargetAnswer};
use sp_device::{Printer, Write};
use sp_files::{send_pair, send_route};
use std::alloc::AllocError;

// The greatest number of arcs of a route that is found near its ends. There are searches from each of its vertices, and
// for a longer route the arcs are turned. The number decides nothing but which way is taken.
const MOST_STEPS: usize = 64;

/// The end of the route to a target of a source, as far as it is known: a vertex, and those behind it.
#[derive(Drop)]
pub struct RouteEnd {
    pub source: u32,
    pub target: u32,
    /// The target's least length.
    pub dist: u64,
    /// The first vertex that is known.
    pub first: u32,
    /// The vertices behind it, from the target back.
    pub later: Vec<u32>,
}

/// An answer for a pair that has a line: its target's word (`PairAnswer`), or the route to its target (`RouteAnswer`).
/// A job of pairs finds and writes either.
pub trait PairLine<const P: u32>: TargetAnswer<P> {
    /// This is what is told of pairs.
    ghost kind: { PairKind };

    /// This is what an answer tells.
    ghost told: { Self → kind.Answer };

    /// Returns whether the answer is a vertex that is too far.
    fn is_too_far(&self) -> bool
        ensures { result ≡ kind.is_too_far (told self.now) };

    /// Sends the line of a pair that has this answer.
    fn send<W: Write>(&self, out: &mut W, printer: &mut Printer, pair: (u32, u32))
        ensures { Sends W.Write (kind.text pair (told self.now))
            out.old printer.old out.new printer.new };

    /// Returns how many of the last arcs of a route the answer needs, or as many as are to be looked for.
    fn steps_back() -> usize;

    /// Reads the answer for a target off the end of the route to it, if enough of it is known.
    fn of_end(end: RouteEnd) -> Result<Option<Self>, AllocError>
        ensures { IfOk result (λ found. IfSome found (λ answer. (g : Graph)
            → IsEndOfRoute g (max_dist P) end → Self.is_answer g end.source end.target answer)) };

    /// An answer for a target of a source tells its answer of the kind.
    ghost tells: { (g : Graph) (s t : ℕ) (answer : Self) → Self.is_answer g s t answer
        → kind.IsAnswer g s t (max_dist P) (told answer) };

    /// It is the answer in each graph with the same arcs.
    ghost same: { (g h : Graph) (s t : ℕ) (answer : Self) → AreSame g h
        → Self.is_answer g s t answer → Self.is_answer h s t answer };
}

impl<const P: u32> PairLine<P> for PairAnswer {
    ghost kind = { word_kind };

    ghost told = { answer_of };

    ghost tells = { λ g s t answer is. is };

    ghost same = { λ g h s t answer. same_word g h s t (max_dist P) answer };

    fn is_too_far(&self) -> bool {
        matches!(self, PairAnswer::TooFar(_))
    }

    fn send<W: Write>(&self, out: &mut W, printer: &mut Printer, pair: (u32, u32)) {
        send_pair(out, printer, pair, *self);
    }

    /// The predecessor is one arc from the target.
    fn steps_back() -> usize {
        1
    }

    fn of_end(end: RouteEnd) -> Result<Option<Self>, AllocError> {
        if end.source == end.target {
            return Ok(Some(PairAnswer::Found { pred: 0, dist: 0 }));
        }
        if end.later.len() != 1 {
            return Ok(None);
        }
        let (pred, dist) = (end.first, end.dist);
        Ok(Some(PairAnswer::Found { pred, dist }))
    }
}

impl<const P: u32> PairLine<P> for RouteAnswer {
    ghost kind = { route_kind };

    ghost told = { routed_of };

    ghost tells = { λ g s t answer is. is };

    ghost same = { λ g h s t answer. same_route g h s t (max_dist P) answer };

    fn is_too_far(&self) -> bool {
        matches!(self, RouteAnswer::TooFar(_))
    }

    fn send<W: Write>(&self, out: &mut W, printer: &mut Printer, pair: (u32, u32)) {
        send_route(out, printer, pair, self);
    }

    fn steps_back() -> usize {
        MOST_STEPS
    }

    fn of_end(end: RouteEnd) -> Result<Option<Self>, AllocError> {
        if end.first != end.source {
            return Ok(None);
        }
        let (source, dist, mut route) = (end.source, end.dist, end.later);
        route.push(source)?;
        route.reverse();
        route.shrink_to_fit();
        Ok(Some(RouteAnswer::Found { dist, route }))
    }
}
