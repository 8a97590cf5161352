//! The samples: *diamond*, and *beyond the limit*, a path whose last vertex is too far.
ghost use Rattle.std.specs.Prelude.{◌≤◌, IfOk};
ghost use Rattle.sp_word.specs.Word.{max_pred};

use sp_graph::Graph;
use sp_word::{Delta, Word};
use std::alloc::{AllocError, Global};
use tests_samples::{DIAMOND, DIAMOND_GR, DIAMOND_TREE, graph_of, long_path};

const LONG_GR: &str =
    "p sp 18 17\na 1 2 4294967295\na 2 3 4294967295\na 3 4 4294967295\na 4 5 4294967295\na 5 6 4294967295\na 6 7 4294967295\na 7 8 4294967295\na 8 9 4294967295\na 9 10 4294967295\na 10 11 4294967295\na 11 12 4294967295\na 12 13 4294967295\na 13 14 4294967295\na 14 15 4294967295\na 15 16 4294967295\na 16 17 4294967295\na 17 18 15\n";

// The same graphs packed: numbers of four bytes, lowest byte first. After the mark come the numbers of vertices and arcs, the
// ends of the rows, the head and length of each arc, and the sum.
const DIAMOND_PACKED: &[u8] = b"\x89SPT\r\n\x1a\x01\x04\0\0\0\x05\0\0\0\
\0\0\0\0\x03\0\0\0\x04\0\0\0\x05\0\0\0\
\x05\0\0\0\x02\0\0\0\x03\0\0\0\x03\0\0\0\
\x03\0\0\0\x04\0\0\0\x06\0\0\0\x04\0\0\0\
\x02\0\0\0\x04\0\0\0\x02\0\0\0\xd1\x5d\x6a\x55\
\0\0\0\0\x2c\xea\xca\x55\x06\0\0\0";

const LONG_PACKED: &[u8] = b"\x89SPT\r\n\x1a\x01\x12\0\0\0\x11\0\0\0\
\0\0\0\0\x01\0\0\0\x02\0\0\0\x03\0\0\0\
\x04\0\0\0\x05\0\0\0\x06\0\0\0\x07\0\0\0\
\x08\0\0\0\x09\0\0\0\x0a\0\0\0\x0b\0\0\0\
\x0c\0\0\0\x0d\0\0\0\x0e\0\0\0\x0f\0\0\0\
\x10\0\0\0\x11\0\0\0\x11\0\0\0\x02\0\0\0\
\xff\xff\xff\xff\x03\0\0\0\xff\xff\xff\xff\x04\0\0\0\
\xff\xff\xff\xff\x05\0\0\0\xff\xff\xff\xff\x06\0\0\0\
\xff\xff\xff\xff\x07\0\0\0\xff\xff\xff\xff\x08\0\0\0\
\xff\xff\xff\xff\x09\0\0\0\xff\xff\xff\xff\x0a\0\0\0\
\xff\xff\xff\xff\x0b\0\0\0\xff\xff\xff\xff\x0c\0\0\0\
\xff\xff\xff\xff\x0d\0\0\0\xff\xff\xff\xff\x0e\0\0\0\
\xff\xff\xff\xff\x0f\0\0\0\xff\xff\xff\xff\x10\0\0\0\
\xff\xff\xff\xff\x11\0\0\0\xff\xff\xff\xff\x12\0\0\0\
\x0f\0\0\0\x0c\x5f\x6a\x55\x10\0\0\0\x87\xf6\x94\x03\
\x33\x01\0\0";

// The rows within the limit.
const LONG_TREE: &str =
    "p spt 18 1\nv 1 0 0\nv 2 4294967295 1\nv 3 8589934590 2\nv 4 12884901885 3\nv 5 17179869180 4\nv 6 21474836475 5\nv 7 25769803770 6\nv 8 30064771065 7\nv 9 34359738360 8\nv 10 38654705655 9\nv 11 42949672950 10\nv 12 47244640245 11\nv 13 51539607540 12\nv 14 55834574835 13\nv 15 60129542130 14\nv 16 64424509425 15\nv 17 68719476720 16\ne 17\n";

const DIAMOND_REP: &str =
    "p rep 4 2\ni 1 0 0\na 1 1 2 3\na 2 1 3 3\na 1 2 4 2\na 2 3 4 2\ns 1\ns 1\ns 1\ns 2\ns 2\ns 2\ns 1\ns 2\ns 2\ns 1\ns 2\ns 1\ns 1\n";

const LOST_EXCHANGE_REP: &str = "p rep 1 2\no 1 1 5 3\no 2 1 5 2\ns 1\ns 2\ns 1\ns 2\ns 2\n";

/// One of the two samples.
#[derive(Clone, Copy)]
pub enum Sample {
    Diamond,
    Long,
}

impl Sample {
    /// The sample of this name.
    pub fn of_name(name: &str) -> Option<Sample> {
        match name {
            "diamond" => Some(Sample::Diamond),
            "long" => Some(Sample::Long),
            _ => None,
        }
    }

    /// Its graph's text.
    pub fn gr(self) -> &'static str {
        match self {
            Sample::Diamond => DIAMOND_GR,
            Sample::Long => LONG_GR,
        }
    }

    /// Its graph's packed text.
    pub fn packed(self) -> &'static [u8] {
        match self {
            Sample::Diamond => DIAMOND_PACKED,
            Sample::Long => LONG_PACKED,
        }
    }

    /// The text of its tree from vertex 1, without vertices that are too far.
    pub fn tree(self) -> &'static str {
        match self {
            Sample::Diamond => DIAMOND_TREE,
            Sample::Long => LONG_TREE,
        }
    }

    /// The text of two pairs; the target of the first is the last vertex.
    pub fn pairs(self) -> &'static str {
        match self {
            Sample::Diamond => "p pairs 2\nq 1 4\nq 4 1\n",
            Sample::Long => "p pairs 2\nq 1 18\nq 17 17\n",
        }
    }

    /// The text of a list of two targets, the last vertex and the first.
    pub fn targets(self) -> &'static str {
        match self {
            Sample::Diamond => "p aux sp ss 2\ns 4\ns 1\n",
            Sample::Long => "p aux sp ss 2\ns 18\ns 1\n",
        }
    }

    /// The text of a replay file: two actors relax a diamond, or one loses an exchange to the other.
    pub fn rep(self) -> &'static str {
        match self {
            Sample::Diamond => DIAMOND_REP,
            Sample::Long => LOST_EXCHANGE_REP,
        }
    }

    /// The text of an offers file.
    pub fn offers(self) -> &'static str {
        "p off 1 2\no 1 1 9 1\no 1 1 7 4\no 2 1 7 2\no 2 1 8 3\n"
    }

    /// The width of a bucket.
    pub fn delta(self) -> Delta<28> {
        let width = match self {
            Sample::Diamond => 2,
            Sample::Long => 4_294_967_295,
        };
        Delta::new(width).unwrap()
    }

    /// Its graph.
    pub fn graph(self, alloc: Global) -> Result<Graph, AllocError>
        ensures { IfOk result (λ graph. graph.n ≤ max_pred 28) }
    {
        let graph = match self {
            Sample::Diamond => graph_of(alloc, 4, &DIAMOND)?,
            Sample::Long => graph_of(alloc, 18, &long_path(alloc, 15)?)?,
        };
        if graph.n() > Word::<28>::max_pred() {
            return Err(AllocError);
        }
        Ok(graph)
    }
}
