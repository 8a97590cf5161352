//! Routes of pairs: the worked examples of the specification, each from lines and from a packed file, with several numbers of workers.
use crate::batches::{settings, summary};
use crate::directions::PACKED;
use crate::graphs::{BEYOND, DIAMOND};
use sp_device::{OfRead, Peeked, UpToWriter};
use sp_network::Direction;
use sp_pairs::{RouteAnswer, run_pairs_told};
use std::process::Abort;
use std::sync::Wait;
use std::test::Fail;
use std::thread::Threads;

/// The packed file of `BEYOND`.
const BEYOND_PACKED: &[u8] = b"\x89SPT\r\n\x1a\x01\x12\0\0\0\x11\0\0\0\
\0\0\0\0\x01\0\0\0\x02\0\0\0\x03\0\0\0\
\x04\0\0\0\x05\0\0\0\x06\0\0\0\x07\0\0\0\
\x08\0\0\0\x09\0\0\0\n\0\0\0\x0b\0\0\0\
\x0c\0\0\0\r\0\0\0\x0e\0\0\0\x0f\0\0\0\
\x10\0\0\0\x11\0\0\0\x11\0\0\0\x02\0\0\0\
\xff\xff\xff\xff\x03\0\0\0\xff\xff\xff\xff\x04\0\0\0\
\xff\xff\xff\xff\x05\0\0\0\xff\xff\xff\xff\x06\0\0\0\
\xff\xff\xff\xff\x07\0\0\0\xff\xff\xff\xff\x08\0\0\0\
\xff\xff\xff\xff\x09\0\0\0\xff\xff\xff\xff\n\0\0\0\
\xff\xff\xff\xff\x0b\0\0\0\xff\xff\xff\xff\x0c\0\0\0\
\xff\xff\xff\xff\r\0\0\0\xff\xff\xff\xff\x0e\0\0\0\
\xff\xff\xff\xff\x0f\0\0\0\xff\xff\xff\xff\x10\0\0\0\
\xff\xff\xff\xff\x11\0\0\0\xff\xff\xff\xff\x12\0\0\0\
\x0f\0\0\0\x0c\x5f\x6a\x55\x10\0\0\0\x87\xf6\x94\x03\
\x33\x01\0\0";

/// From 1 to 5, the direct arc is as long as the paths by 3 or 4, and 2.
const TIES: &str = "p sp 5 6\na 1 4 2\na 1 3 2\na 4 2 1\na 3 2 1\na 2 5 1\na 1 5 4\n";

/// Its packed file.
const TIES_PACKED: &[u8] = b"\x89SPT\r\n\x1a\x01\x05\0\0\0\x06\0\0\0\
\0\0\0\0\x03\0\0\0\x04\0\0\0\x05\0\0\0\
\x06\0\0\0\x06\0\0\0\x03\0\0\0\x02\0\0\0\
\x04\0\0\0\x02\0\0\0\x05\0\0\0\x04\0\0\0\
\x05\0\0\0\x01\0\0\0\x02\0\0\0\x01\0\0\0\
\x02\0\0\0\x01\0\0\0\xd9\x5d\x6a\x55\0\0\0\0\
\xf8\x03\n\x56\x07\0\0\0";

/// The same without the direct arc.
const TWO_PATHS: &str = "p sp 5 5\na 1 4 2\na 1 3 2\na 4 2 1\na 3 2 1\na 2 5 1\n";

/// Its packed file.
const TWO_PATHS_PACKED: &[u8] = b"\x89SPT\r\n\x1a\x01\x05\0\0\0\x05\0\0\0\
\0\0\0\0\x02\0\0\0\x03\0\0\0\x04\0\0\0\
\x05\0\0\0\x05\0\0\0\x03\0\0\0\x02\0\0\0\
\x04\0\0\0\x02\0\0\0\x05\0\0\0\x01\0\0\0\
\x02\0\0\0\x01\0\0\0\x02\0\0\0\x01\0\0\0\
\xca\x5d\x6a\x55\0\0\0\0\xda\x47\x35\xab\x06\0\0\0";

/// Pairs, and what is written for them.
#[derive(Clone, Copy)]
struct RouteCase<'t> {
    direction: Direction,
    pairs: &'t str,
    /// The number of pairs.
    count: u64,
    /// The number of those with a vertex that is too far.
    far: u64,
    text: &'t str,
}

// Whether exactly the text is written for the graph of this file, with any number of workers.
fn has_routes(
    rt: &(impl Abort + AllocGlobal + Threads + Wait + Sync),
    gr: &[u8],
    case: RouteCase,
) -> bool {
    for workers in [1, 2, 64] {
        let mut out = UpToWriter::new(rt.alloc(), 1000, 1000);
        let answer = run_pairs_told::<_, RouteAnswer, _, _, _, _, _>(
            &rt,
            rt.alloc(),
            &mut Peeked::new(OfRead::new(gr)),
            &mut OfRead::new(case.pairs.as_bytes()),
            &mut out,
            &settings::<28>(rt, case.direction, None, workers),
        );
        let whole = summary(case.count, case.far, case.text.len() as u64);
        if answer != whole || out.taken() != case.text.as_bytes() {
            return false;
        }
    }
    true
}

#[test]
fn routes_of_the_diamond_in_each_direction(rt: HostRuntime) -> Result<(), Fail> {
    let wanted = [
        (Direction::AsGiven, "r 1 4 5 1 2 4\nr 1 1 0 1\nn 4 1\n"),
        (Direction::Towards, "n 1 4\nr 1 1 0 1\nr 4 1 5 4 2 1\n"),
        (
            Direction::BothWays,
            "r 1 4 5 1 2 4\nr 1 1 0 1\nr 4 1 5 4 2 1\n",
        ),
    ];
    for (direction, text) in wanted {
        let case = RouteCase {
            direction,
            pairs: "p pairs 3\nq 1 4\nq 1 1\nq 4 1\n",
            count: 3,
            far: 0,
            text,
        };
        assert!(rt; has_routes(&rt, DIAMOND.as_bytes(), case));
        assert!(rt; has_routes(&rt, PACKED, case));
    }
    Ok(())
}

#[test]
fn routes_where_a_vertex_is_too_far(rt: HostRuntime) -> Result<(), Fail> {
    let case = RouteCase {
        direction: Direction::AsGiven,
        pairs: "p pairs 3\nq 1 3\nq 1 18\nq 18 1\n",
        count: 3,
        far: 1,
        text: "r 1 3 8589934590 1 2 3\nx 1 18\nn 18 1\n",
    };
    assert!(rt; has_routes(&rt, BEYOND.as_bytes(), case));
    assert!(rt; has_routes(&rt, BEYOND_PACKED, case));
    Ok(())
}

#[test]
fn routes_by_the_smallest_vertices(rt: HostRuntime) -> Result<(), Fail> {
    let direct = RouteCase {
        direction: Direction::AsGiven,
        pairs: "p pairs 1\nq 1 5\n",
        count: 1,
        far: 0,
        text: "r 1 5 4 1 5\n",
    };
    assert!(rt; has_routes(&rt, TIES.as_bytes(), direct));
    assert!(rt; has_routes(&rt, TIES_PACKED, direct));
    let by_two = RouteCase {
        direction: direct.direction,
        pairs: direct.pairs,
        count: direct.count,
        far: direct.far,
        text: "r 1 5 4 1 3 2 5\n",
    };
    assert!(rt; has_routes(&rt, TWO_PATHS.as_bytes(), by_two));
    assert!(rt; has_routes(&rt, TWO_PATHS_PACKED, by_two));
    Ok(())
}
