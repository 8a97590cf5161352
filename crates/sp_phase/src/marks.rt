//! What the leader records about each vertex.
ghost use Rattle.std.specs.Prelude.{◌≡◌, ◌+◌, ◌<◌, [], false, vec_len, replicate, All, IsTrue, IfOk, OnOk};
ghost use Rattle.sp_paths.specs.Paths.{IsVertex};
ghost use Rattle.sp_phase.specs.Marks.{no_mark, notes_of, mark_of, marks_with, marks_after, SameDistances, Remembers, Enters, Forgets};
ghost use Rattle.sp_phase.specs.Rounds.{KeepsRunning};

use sp_rounds::{Task, TaskKind};
use std::alloc::{AllocError, Global};
use std::mem;

/// What the leader records about a vertex.
#[derive(Clone, Copy, Debug)]
pub struct LeaderMark {
    /// The distance at which its light arcs were last relaxed.
    pub light: Option<u64>,
    /// The distance at which its heavy arcs were last relaxed.
    pub heavy: Option<u64>,
    /// The last round in which the vertex took part.
    pub round: u64,
    /// Whether its heavy arcs are to be relaxed when the bucket is done.
    pub remembered: bool,
}

impl LeaderMark {
    // Returns the mark of a vertex that took part in no round.
    fn none() -> LeaderMark
        ensures { result ≡ no_mark }
    {
        LeaderMark {
            light: None,
            heavy: None,
            round: 0,
            remembered: false,
        }
    }
}

/// The marks of all vertices, that of vertex `v` at `v - 1`.
#[derive(Drop)]
pub struct LeaderMarks {
    pub each: Vec<LeaderMark>,
    /// The vertices that were in a light round, and in no heavy round since.
    pub remembered: Vec<u32>,
    /// The number of the last round.
    pub round: u64,
}

impl LeaderMarks {
    /// Makes the marks of `n` vertices, before the first round.
    pub fn new(alloc: Global, n: u32) -> Result<LeaderMarks, AllocError>
        ensures each { IfOk result (λ m. m.each.items ≡ replicate n no_mark) }
        ensures remembered { IfOk result (λ m. m.remembered.items ≡ []) }
    {
        Ok(LeaderMarks {
            each: vec![in alloc; LeaderMark::none(); n as usize]?,
            remembered: Vec::new(alloc),
            round: 0,
        })
    }

    /// Begins the next round. The number of the round stays once it is the greatest that fits.
    pub fn begin_round(&mut self)
        ensures notes { notes_of self.new ≡ notes_of self.old }
        ensures round { self.old.round + 1 < 18446744073709551616
            → self.new.round ≡ self.old.round + 1 }
    {
        self.round = self.round.saturating_add(1);
    }

    /// Adds a vertex to the round, and remembers it. Returns whether the vertex wasn't in the round yet.
    pub fn enter(&mut self, vertex: u32) -> Result<bool, AllocError>
        requires { IsVertex (vec_len self.old.each) vertex }
        ensures distances { SameDistances self.old.each.items self.new.each.items }
        ensures remembered { Remembers (notes_of self.old) (notes_of self.new) vertex }
        ensures entered { IfOk result (λ entered. IsTrue entered
            → Enters (notes_of self.old) (notes_of self.new) vertex) }
        ensures stayed { IfOk result (λ entered. entered ≡ false → self.new ≡ self.old) }
        ensures marked { OnOk result
            ((mark_of self.new.each.items vertex).round ≡ self.new.round) }
        ensures round { self.new.round ≡ self.old.round }
    {
        let place = (vertex - 1) as usize;
        let mark = self.each[place];
        if mark.round == self.round {
            return Ok(false);
        }
        if !mark.remembered {
            self.remembered.push(vertex)?;
        }
        self.each[place] = LeaderMark {
            round: self.round,
            remembered: true,
            ..mark
        };
        Ok(true)
    }

    /// Returns the vertices that are remembered.
    pub fn recall(&mut self, alloc: Global) -> Vec<u32>
        ensures result { result.items ≡ self.old.remembered.items }
        ensures remembered { self.new.remembered.items ≡ [] }
        ensures each { self.new.each ≡ self.old.each }
        ensures round { self.new.round ≡ self.old.round }
    {
        mem::replace(&mut self.remembered, Vec::new(alloc))
    }

    /// Stops remembering a vertex that `recall` returned.
    pub fn forget(&mut self, vertex: u32)
        requires { IsVertex (vec_len self.old.each) vertex }
        ensures distances { SameDistances self.old.each.items self.new.each.items }
        ensures remembered { self.new.remembered ≡ self.old.remembered }
        ensures forgets { Forgets self.old.each.items self.new.each.items vertex }
        ensures round { self.new.round ≡ self.old.round }
    {
        self.each[(vertex - 1) as usize].remembered = false;
    }

    /// Records that tasks were run.
    pub fn write(&mut self, tasks: &[Task])
        requires { All (λ t. IsVertex (vec_len self.old.each) t.vertex) tasks.now }
        ensures running { KeepsRunning tasks.now self.old.each.items self.new.each.items }
        ensures marked { self.new.each.items ≡ marks_after self.old.each.items tasks.now }
        ensures remembered { self.new.remembered ≡ self.old.remembered }
        ensures round { self.new.round ≡ self.old.round }
    {
        mark_tasks(&mut self.each, tasks);
    }
}

// Records that a task was run.
fn mark_task(marks: &mut Vec<LeaderMark>, task: Task)
    requires { IsVertex (vec_len marks.old) task.vertex }
    ensures { marks.new.items ≡ marks_with marks.old.items task }
{
    let place = (task.vertex - 1) as usize;
    match task.kind {
        TaskKind::Light => marks[place].light = Some(task.dist),
        TaskKind::Heavy => marks[place].heavy = Some(task.dist),
    }
}

// Records that tasks were run.
fn mark_tasks(marks: &mut Vec<LeaderMark>, tasks: &[Task])
    requires { All (λ t. IsVertex (vec_len marks.old) t.vertex) tasks.now }
    ensures length { vec_len marks.new ≡ vec_len marks.old }
    ensures running { KeepsRunning tasks.now marks.old.items marks.new.items }
    ensures marked { marks.new.items ≡ marks_after marks.old.items tasks.now }
{
    for task in tasks {
        mark_task(marks, *task);
    }
}
