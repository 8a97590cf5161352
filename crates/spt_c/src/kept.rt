//! Queries of a kept graph.

/// Runs a query on the graph in a place, which still keeps the graph afterwards. If the place keeps none, the second
/// expression is the result, and if it is in use, the third.
macro_rules! of_kept {
    ($alloc:ident, $graph:ident, $held:ident => $answer:expr, $none:expr, $in_use:expr) => {
        match $graph.take($alloc) {
            Taken::Graph($held) => {
                let told = $answer;
                $graph.end(Some($held));
                told
            }
            Taken::Nothing => $none,
            Taken::InUse => $in_use,
        }
    };
}

/// Makes a graph from the one in a second place, which still keeps it afterwards, for the first place, whose graph is
/// taken out and passed on. The result is a `KeepOutcome`.
macro_rules! of_two {
    ($alloc:ident, $graph:ident, $from:ident, $held:ident, $before:ident => $made:expr) => {
        match $graph.begin($alloc) {
            Ok($before) => match $from.take($alloc) {
                Taken::Graph($held) => {
                    let made = $made;
                    $from.end(Some($held));
                    made
                }
                Taken::Nothing => {
                    $graph.end($before);
                    KeepOutcome::NoGraph
                }
                Taken::InUse => {
                    $graph.end($before);
                    KeepOutcome::InUse
                }
            },
            Err(_) => KeepOutcome::InUse,
        }
    };
}

pub(crate) use of_kept;
pub(crate) use of_two;
