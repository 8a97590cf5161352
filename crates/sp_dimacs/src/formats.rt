//! The line forms of the files, as data.
ghost use Rattle.std.specs.Prelude.{◌≡◌};
ghost use Rattle.sp_text.specs.Formats.{format_of};
ghost use Rattle.sp_dimacs.specs.Formats.{gr, gr_up_to, ss, pairs};
ghost use Rattle.sp_dimacs.specs.declared.formats.TheConstants.{MOST_ARCS_BOTH_WAYS};

use sp_text::{Field, FileFormat, Form, Top};

/// The greatest number of arcs of a graph.
pub const MOST_ARCS: u64 = 1_073_741_824;

/// The greatest number of arcs of a graph whose arcs lead both ways.
pub const MOST_ARCS_BOTH_WAYS: u64 = 536_870_912;

/// The greatest length of an arc.
pub const LONGEST_ARC: u64 = 4_294_967_295;

/// The greatest number of sources, or of pairs, in a file.
pub const MOST_SOURCES: u64 = 1_048_576;

// The limit for the single line that announces how many lines of another form there are.
const PROBLEM_LIMIT: Top = Top::Number(1);

const GR: FileFormat = FileFormat {
    problem: Form {
        words: b"p sp",
        fields: &[
            Field {
                letter: b'N',
                least: 1,
                most: Top::Vertex,
            },
            Field {
                letter: b'M',
                least: 0,
                most: Top::Number(MOST_ARCS),
            },
        ],
        fresh: false,
        group: 0,
        limit: PROBLEM_LIMIT,
    },
    items: &[Form {
        words: b"a",
        fields: &[
            Field {
                letter: b'U',
                least: 1,
                most: Top::Problem(0),
            },
            Field {
                letter: b'V',
                least: 1,
                most: Top::Problem(0),
            },
            Field {
                letter: b'W',
                least: 1,
                most: Top::Number(LONGEST_ARC),
            },
        ],
        fresh: false,
        group: 0,
        limit: Top::Problem(1),
    }],
    needed: Top::Problem(1),
};

// The line forms of a graph whose arcs lead both ways.
const BOTH_WAYS: FileFormat = FileFormat {
    problem: Form {
        words: b"p sp",
        fields: &[
            Field {
                letter: b'N',
                least: 1,
                most: Top::Vertex,
            },
            Field {
                letter: b'M',
                least: 0,
                most: Top::Number(MOST_ARCS_BOTH_WAYS),
            },
        ],
        fresh: false,
        group: 0,
        limit: PROBLEM_LIMIT,
    },
    ..GR
};

const SS: FileFormat = FileFormat {
    problem: Form {
        words: b"p aux sp ss",
        fields: &[Field {
            letter: b'K',
            least: 0,
            most: Top::Number(MOST_SOURCES),
        }],
        fresh: false,
        group: 0,
        limit: PROBLEM_LIMIT,
    },
    items: &[Form {
        words: b"s",
        fields: &[Field {
            letter: b'V',
            least: 1,
            most: Top::Vertex,
        }],
        fresh: false,
        group: 0,
        limit: Top::Problem(0),
    }],
    needed: Top::Problem(0),
};

const PAIRS: FileFormat = FileFormat {
    problem: Form {
        words: b"p pairs",
        fields: &[Field {
            letter: b'K',
            least: 0,
            most: Top::Number(MOST_SOURCES),
        }],
        fresh: false,
        group: 0,
        limit: PROBLEM_LIMIT,
    },
    items: &[Form {
        words: b"q",
        fields: &[
            Field {
                letter: b'S',
                least: 1,
                most: Top::Vertex,
            },
            Field {
                letter: b'T',
                least: 1,
                most: Top::Vertex,
            },
        ],
        fresh: false,
        group: 0,
        limit: Top::Problem(0),
    }],
    needed: Top::Problem(0),
};

/// Returns the line forms of a `.gr` file.
pub fn gr_format() -> FileFormat
    ensures { format_of result ≡ gr }
{
    GR
}

/// Returns the line forms of a `.gr` file whose arcs lead both ways: it announces at most half as many.
pub fn both_ways_format() -> FileFormat
    ensures { format_of result ≡ gr_up_to MOST_ARCS_BOTH_WAYS }
{
    BOTH_WAYS
}

/// Returns the line forms of an `.ss` file.
pub fn ss_format() -> FileFormat
    ensures { format_of result ≡ ss }
{
    SS
}

/// Returns the line forms of a pairs file.
pub fn pairs_format() -> FileFormat
    ensures { format_of result ≡ pairs }
{
    PAIRS
}
