//! A caller that watches a run.
ghost use Rattle.std.specs.Prelude.{◌≡◌, ◌≤◌, IfOk};

use super::{crew, has_rows, split, width};
use sp_files::Tree;
use sp_offer::{Caller, Lawful, OfferTable};
use sp_phase::{Run, RunError, Store};
use sp_rounds::{Claimer, OpenGate};
use sp_word::Word;
use std::process::Abort;
use std::sync::Wait;
use std::test::Fail;
use std::thread::{Threads, join};
use tests_samples::{DIAMOND, DIAMOND_ROWS, graph_of};

// Reads vertices 1 to 4, and tells whether no word is greater than the one before.
fn read_four<L: Lawful>(
    table: &OfferTable<L, 28>,
    watcher: &mut Caller,
    words: &mut [Word<28>; 4],
) -> bool
    requires caller { watcher.old.table ≡ table.now.id }
    requires vertices { 4 ≤ table.now.vertices }
    ensures { watcher.new.table ≡ watcher.old.table }
{
    let mut falls = true;
    for place in 0..4usize {
        let word = table.read(watcher, place as u32 + 1);
        falls = falls && word <= words[place];
        words[place] = word;
    }
    falls
}

// Reads them 1,000 times.
fn watch<L: Lawful>(table: &OfferTable<L, 28>, mut watcher: Caller) -> (Caller, bool)
    requires caller { watcher.table ≡ table.now.id }
    requires vertices { 4 ≤ table.now.vertices }
    ensures { result.0.table ≡ watcher.table }
{
    let mut words = [Word::unreached(); 4];
    let mut falls = true;
    for _ in 0..1000 {
        falls = read_four(table, &mut watcher, &mut words) && falls;
    }
    (watcher, falls)
}

// Finishes a run while a watcher reads on a thread of its own.
fn finish_watched<L: Lawful + Send + Sync, R: Threads + Wait + Sync>(
    rt: &R,
    run: Run<28>,
    table: &OfferTable<L, 28>,
    watcher: Caller,
) -> (Result<(Tree<28>, Caller), RunError>, (Caller, bool))
    requires caller { watcher.table ≡ table.now.id }
    requires vertices { 4 ≤ table.now.vertices }
    ensures { result.1.0.table ≡ table.now.id }
{
    join(
        rt,
        || run.finish(rt, &OpenGate),
        || -> (Caller, bool)
            requires caller { watcher.table ≡ table.now.id }
            requires vertices { 4 ≤ table.now.vertices }
            ensures { result.0.table ≡ table.entry.now.id }
        { watch(table, watcher) },
    )
}

// The words of the diamond's tree.
fn diamond_words() -> [Word<28>; 4] {
    [
        Word::pack(0, 0),
        Word::pack(3, 1),
        Word::pack(3, 1),
        Word::pack(5, 2),
    ]
}

// Whether a caller reads them, none greater or less.
fn reads_the_tree(store: &Store<28>, caller: &mut Caller) -> bool
    requires n { 4 ≤ store.now.graph.n }
    requires caller { caller.old.table ≡ store.now.table }
{
    let mut words = diamond_words();
    read_four(store.table(), caller, &mut words) && words == diamond_words()
}

// A whole run, and the watcher that read beside it: it saw no word rise.
fn watched(
    rt: &(impl Abort + AllocGlobal + Threads + Wait + Sync),
    store: &Store<28>,
    caller: Caller,
    claimer: Claimer,
) -> Result<Caller, Fail>
    requires n { 4 ≤ store.now.graph.n }
    requires caller { caller.table ≡ store.now.table }
    requires claimer { claimer.table ≡ store.now.claims }
    ensures { IfOk result (λ watcher. watcher.table ≡ store.now.table) }
{
    let (caller, watcher) = split(store, caller);
    let run = Run::begin(rt.alloc(), store, caller, claimer, crew(rt, 2))?;
    let (done, (watcher, falls)) = finish_watched(rt, run, store.table(), watcher);
    let (tree, _) = done?;
    assert!(rt; has_rows(&tree, &DIAMOND_ROWS));
    assert!(rt; falls);
    Ok(watcher)
}

#[test]
fn watcher_sees_falling_words(rt: HostRuntime) -> Result<(), Fail> {
    let graph = graph_of(rt.alloc(), 4, &DIAMOND)?;
    let (store, caller, claimer) = Store::new(rt.alloc(), &graph, width(&rt, 2), 1)?;
    let mut watcher = watched(&rt, &store, caller, claimer)?;
    assert!(rt; reads_the_tree(&store, &mut watcher));
    Ok(())
}
