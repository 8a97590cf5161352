//! Rounds of tasks.
//!
//! A bucket is emptied by rounds of light arcs, and one round of heavy arcs follows. (U. Meyer and P. Sanders,
//! "Delta-stepping: a parallelizable shortest path algorithm", Journal of Algorithms 49, 2003, section 2.)
ghost use Rattle.std.specs.Prelude.{◌≡◌, ℕ, ◌++◌, All, IfOk, OnOk, option_to_list, take};
ghost use Rattle.sp_paths.specs.Paths.{IsVertex};
ghost use Rattle.sp_phase.specs.Rounds.{IsDue};
ghost use Rattle.sp_phase.specs.Running.{IsQueued, HasPut};
ghost use Rattle.sp_phase.specs.Lead.{GoesOn, MakesDue};

use crate::leader::{Leader, MOST_ROUNDS};
use crate::store::RoundTeam;
use sp_rounds::{Buckets, Entry, Gate, Task, TaskKind};
use std::alloc::AllocError;
use std::thread::Threads;

/// Appends an element, if there is one.
pub(crate) fn push_some<T: Copy>(list: &mut Vec<T>, item: Option<T>) -> Result<(), AllocError>
    ensures { OnOk result (list.new.items ≡ list.old.items ++ option_to_list item) }
{
    if let Some(item) = item {
        list.push(item)?;
    }
    Ok(())
}

/// Puts entries into their buckets. If it fails, it has put the first ones.
pub(crate) fn put_all(buckets: &mut Buckets, entries: &[Entry]) -> Result<(), AllocError>
    ensures width { buckets.new.delta ≡ buckets.old.delta }
    ensures some { (k : ℕ) × HasPut (take k entries.now) buckets.old buckets.new }
    ensures all { OnOk result (HasPut entries.now buckets.old buckets.new) }
{
    for entry in entries {
        buckets.put(*entry)?;
    }
    Ok(())
}

impl<'a, 'g, const P: u32> Leader<'a, 'g, P> {
    // Runs a round of tasks, records them, and queues the entries that they found. If it fails, the leader is spent.
    fn run_tasks<R: Threads + Sync, G: Gate + Sync>(
        self,
        rt: &R,
        gate: &G,
        tasks: Vec<Task>,
    ) -> Result<Leader<'a, 'g, P>, AllocError>
        requires { All (IsDue P self.stage) tasks.items }
        ensures { IfOk result (GoesOn P self.entry) }
    {
        let Leader {
            alloc,
            store,
            workers,
            caller,
            claimer,
            mut marks,
            mut buckets,
            words,
            came_back,
        } = self;
        let team = RoundTeam {
            alloc,
            number: marks.round,
            workers,
            caller,
            claimer,
        };
        let list = tasks.as_slice();
        let out = store.relax_tasks(rt, gate, list, team)?;
        marks.write(list);
        put_all(&mut buckets, out.found.as_slice())?;
        Ok(Leader {
            alloc,
            store,
            workers,
            caller: out.caller,
            claimer: out.claimer,
            marks,
            buckets,
            words,
            came_back,
        })
    }

    // Returns the light task of an entry that is live: its vertex has the entry's distance, and isn't in this round
    // yet.
    fn light_task(&mut self, entry: &Entry) -> Result<Option<Task>, AllocError>
        requires { IsVertex self.old.stage.graph.n entry.now.vertex }
        ensures { IfOk result (λ task. MakesDue P (option_to_list task) self.old self.new) }
    {
        let word = self.read(entry.vertex);
        if word.dist() != Some(entry.dist) {
            return Ok(None);
        }
        if !self.marks.enter(entry.vertex)? {
            return Ok(None);
        }
        Ok(Some(Task {
            vertex: entry.vertex,
            dist: entry.dist,
            kind: TaskKind::Light,
        }))
    }

    // Runs one round of the light arcs of the vertices of live entries.
    fn light_round<R: Threads + Sync, G: Gate + Sync>(
        mut self,
        rt: &R,
        gate: &G,
        entries: &[Entry],
    ) -> Result<Leader<'a, 'g, P>, AllocError>
        requires { All (IsQueued P self.stage) entries.now }
        ensures { IfOk result (GoesOn P self.entry) }
    {
        let mut tasks = Vec::new(self.alloc);
        self.begin_round();
        for entry in entries {
            let task = self.light_task(entry)?;
            push_some(&mut tasks, task)?;
        }
        self.run_tasks(rt, gate, tasks)
    }

    // Returns the heavy task of a vertex, at its current distance.
    fn heavy_task(&mut self, vertex: u32) -> Option<Task>
        requires { IsVertex self.old.stage.graph.n vertex }
        ensures { MakesDue P (option_to_list result) self.old self.new }
    {
        self.marks.forget(vertex);
        let dist = self.read(vertex).dist()?;
        Some(Task {
            vertex,
            dist,
            kind: TaskKind::Heavy,
        })
    }

    /// Runs one round of the heavy arcs of the vertices that are remembered, which are then no longer remembered.
    pub(crate) fn heavy_round<R: Threads + Sync, G: Gate + Sync>(
        mut self,
        rt: &R,
        gate: &G,
    ) -> Result<Leader<'a, 'g, P>, AllocError>
        ensures { IfOk result (GoesOn P self.entry) }
    {
        let mut tasks = Vec::new(self.alloc);
        self.begin_round();
        let vertices = self.recall();
        for vertex in vertices.as_slice() {
            let task = self.heavy_task(*vertex);
            push_some(&mut tasks, task)?;
        }
        self.run_tasks(rt, gate, tasks)
    }

    // Removes and returns the entries of a bucket.
    fn take_bucket(&mut self, bucket: u64) -> Vec<Entry>
        ensures rest { self.new ≡ record self.old { buckets = self.new.buckets } }
        ensures queued { All (IsQueued P self.old.stage) result.items }
    {
        self.buckets.take(bucket)
    }

    /// Runs rounds of light arcs until the bucket is empty.
    pub(crate) fn empty_bucket<R: Threads + Sync, G: Gate + Sync>(
        mut self,
        rt: &R,
        gate: &G,
        bucket: u64,
    ) -> Result<Leader<'a, 'g, P>, AllocError>
        ensures { IfOk result (λ after. after.stage ≡ self.entry.stage) }
    {
        for _ in 0..MOST_ROUNDS {
            let taken = self.take_bucket(bucket);
            if taken.is_empty() {
                return Ok(self);
            }
            self = self.light_round(rt, gate, taken.as_slice())?;
        }
        Err(AllocError)
    }
}
