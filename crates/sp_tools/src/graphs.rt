//! Reads the graph of a file.
ghost use Rattle.std.specs.Prelude.{◌≡◌, ℕ, List, Some, true, IfOk, IfErr};
ghost use Rattle.sp_word.specs.Word.{is_layout};
ghost use Rattle.sp_paths.specs.Paths.{IsGraph};
ghost use Rattle.sp_tools.specs.Early.{IsOfGraph};
ghost use Rattle.sp_tools.specs.Reading.{IsGraphIn, IsGraphFault};

use sp_command::Fault;
use sp_device::{Peeked, Read};
use sp_graph::Graph;
use sp_jobs::{Listener, Settings};
use sp_options::fault_of;
use sp_word::{MOST_WORKERS, Workers};
use std::alloc::Global;
use std::sync::Wait;
use std::thread;
use std::thread::Threads;

/// Returns one worker per processor.
pub fn all_workers<R: Threads>(rt: &R) -> Workers {
    let Ok(count) = thread::available_parallelism(rt) else {
        return Workers::one();
    };
    Workers::new(count.get().min(MOST_WORKERS as usize) as u32).unwrap_or(Workers::one())
}

/// Reads a graph in either form and builds its rows, with these settings.
pub fn read_graph<const P: u32, R: Threads + Wait + Sync, D: Read, L: Listener>(
    rt: &R,
    alloc: Global,
    gr: &mut Peeked<D>,
    settings: &Settings<P, L>,
) -> Result<Graph, Fault>
    requires { is_layout P ≡ true }
    ensures graph { (text : List ℕ) → ⟦<Peeked<D> as Read>⟧.left gr.old ≡ Some text
        → IfOk result (IsGraphIn P settings.now.direction text) }
    ensures found { IfOk result
        (λ graph. (text : List ℕ) × IsGraphIn P settings.now.direction text graph) }
    ensures sound { IfOk result IsGraph }
    ensures refused { (text : List ℕ) → ⟦<Peeked<D> as Read>⟧.left gr.old ≡ Some text
        → IfErr result (IsGraphFault P settings.now.direction text) }
    ensures told { IfErr result (IsOfGraph (⟦<Peeked<D> as Read>⟧.failing gr.old)) }
{
    let file = match settings.read_graph::<R, D>(rt, alloc, gr) {
        Ok(file) => file,
        Err(error) => return Err(fault_of(error)),
    };
    Ok(settings.build(rt, alloc, file)?)
}
