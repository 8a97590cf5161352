//! Several sources answered at once.

use crate::batches::{AMPLE, BatchCase, Ran, run_narrow, summary};
use crate::devices::is_written_up_to;
use crate::graphs::WIDE;
use sp_jobs::BatchError;
use std::alloc::Global;
use std::test::Fail;

const FIVE: &str = "p aux sp ss 5\ns 1\ns 4\ns 1\ns 4\ns 1\n";

// The blocks of vertices 1 and 4 in turn: 49 and 25 bytes, three groups of two workers.
const FIVE_TEXT: &str = "p spt 2000 1\nv 1 0 0\nv 2 3 1\nv 3 3 1\nv 4 5 2\ne 4\n\
p spt 2000 4\nv 4 0 0\ne 1\n\
p spt 2000 1\nv 1 0 0\nv 2 3 1\nv 3 3 1\nv 4 5 2\ne 4\n\
p spt 2000 4\nv 4 0 0\ne 1\n\
p spt 2000 1\nv 1 0 0\nv 2 3 1\nv 3 3 1\nv 4 5 2\ne 4\n";

const OF_FIVE: BatchCase = BatchCase {
    gr: WIDE,
    ss: FIVE,
    room: 197,
};

#[test]
fn writers_that_fail_in_any_group(rt: HostRuntime) -> Result<(), Fail> {
    for workers in [2, 3, 4] {
        assert!(rt; is_written_up_to(&rt, OF_FIVE, 5, workers, summary(5, 0, 197), FIVE_TEXT));
    }
    Ok(())
}

// Whether everything was written, or memory was refused after a beginning of the text was written. The writer keeps its bytes in
// memory, and fails if that is refused.
fn is_whole_or_refused(ran: &Ran) -> bool {
    match ran.answer {
        Ok(_) => ran.gave(summary(5, 0, 197), FIVE_TEXT),
        Err(BatchError::NoSuchVertex(_, _)) => false,
        Err(_) => FIVE_TEXT.as_bytes().starts_with(ran.out.taken()),
    }
}

// Made for runs in which each request for memory fails in turn.
#[test]
fn memory_refused(rt: HostRuntime) -> Result<(), Fail> {
    assert!(rt; is_whole_or_refused(&run_narrow(&rt, OF_FIVE, 2)));
    Ok(())
}

// A line of the longest arcs, whose last vertex is too far from its first.
const LINE: &str = "\
a 2951 2952 4294967295\n\
a 2952 2953 4294967295\n\
a 2953 2954 4294967295\n\
a 2954 2955 4294967295\n\
a 2955 2956 4294967295\n\
a 2956 2957 4294967295\n\
a 2957 2958 4294967295\n\
a 2958 2959 4294967295\n\
a 2959 2960 4294967295\n\
a 2960 2961 4294967295\n\
a 2961 2962 4294967295\n\
a 2962 2963 4294967295\n\
a 2963 2964 4294967295\n\
a 2964 2965 4294967295\n\
a 2965 2966 4294967295\n\
a 2966 2967 4294967295\n\
a 2967 2968 15
";

pub(crate) const NINE: &str =
    "p aux sp ss 9\ns 1\ns 700\ns 1\ns 2951\ns 2000\ns 2950\ns 700\ns 2951\ns 3\n";

/// 3,000 vertices: three arcs for each of the first 2,950, with random enough lengths and heads, and the line.
pub(crate) fn town(alloc: Global) -> Result<String, Fail> {
    let mut text = format!(in alloc; "p sp 3000 8867\n{LINE}")?;
    let mut state: u64 = 1;
    for tail in 0..8850u32 {
        state = state
            .wrapping_mul(6_364_136_223_846_793_005)
            .wrapping_add(1_442_695_040_888_963_407);
        let (tail, head, len) = (
            tail / 3 + 1,
            (state >> 40) % 2950 + 1,
            (state >> 20) % 1000 + 1,
        );
        text.push_str(&format!(in alloc; "a {tail} {head} {len}\n")?)?;
    }
    Ok(text)
}

#[test]
fn nine_sources_by_groups(rt: HostRuntime) -> Result<(), Fail> {
    let gr = town(rt.alloc())?;
    let case = BatchCase {
        gr: &gr,
        ss: NINE,
        room: AMPLE,
    };
    let alone = run_narrow(&rt, case, 1);
    for workers in [2, 3, 4, 64] {
        let ran = run_narrow(&rt, case, workers);
        assert!(rt; ran.answer == alone.answer && ran.out.taken() == alone.out.taken());
    }
    Ok(())
}
