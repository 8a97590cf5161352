//! The line forms of replay files and of offers files, as data.
ghost use Rattle.std.specs.Prelude.{◌≡◌};
ghost use Rattle.sp_text.specs.Formats.{format_of, IsSmall};
ghost use Rattle.sp_replay.specs.ReplayFormat.{replay, offers};

use sp_text::{Field, FileFormat, Form, Top};

// The indices of the forms.
pub const START: usize = 0;

pub const OFFER: usize = 1;

pub const READ: usize = 2;

pub const RELAX: usize = 3;

pub const STEP: usize = 4;

const ACTOR: Field = Field {
    letter: b'A',
    least: 1,
    most: Top::Problem(1),
};

const VERTEX: Field = Field {
    letter: b'V',
    least: 1,
    most: Top::Problem(0),
};

const DIST: Field = Field {
    letter: b'D',
    least: 0,
    most: Top::Dist,
};

const PRED: Field = Field {
    letter: b'P',
    least: 0,
    most: Top::Vertex,
};

const TAIL: Field = Field {
    letter: b'U',
    least: 1,
    most: Top::Problem(0),
};

const LEN: Field = Field {
    letter: b'L',
    least: 1,
    most: Top::Number(LONGEST_ARC),
};

/// The greatest number of words of a run.
pub const MOST_WORDS: u64 = 65_536;

/// The greatest number of actors of a run.
pub const MOST_ACTORS: u64 = 64;

/// The greatest number of items of all actors together.
pub const MOST_ITEMS: u64 = 1_048_576;

/// The greatest number of steps of a run.
pub const MOST_STEPS: u64 = 16_777_216;

/// The greatest length of an arc.
pub const LONGEST_ARC: u64 = 4_294_967_295;

const WORDS: Field = Field {
    letter: b'N',
    least: 1,
    most: Top::Number(MOST_WORDS),
};

const ACTORS: Field = Field {
    letter: b'K',
    least: 1,
    most: Top::Number(MOST_ACTORS),
};

const START_LINE: Form = Form {
    words: b"i",
    fields: &[VERTEX, DIST, PRED],
    fresh: true,
    group: 1,
    limit: Top::Problem(0),
};

const OFFER_LINE: Form = Form {
    words: b"o",
    fields: &[ACTOR, VERTEX, DIST, PRED],
    fresh: false,
    group: 0,
    limit: Top::Number(MOST_ITEMS),
};

const READ_LINE: Form = Form {
    words: b"r",
    fields: &[ACTOR, VERTEX],
    fresh: false,
    group: 0,
    limit: Top::Number(MOST_ITEMS),
};

const RELAX_LINE: Form = Form {
    words: b"a",
    fields: &[ACTOR, TAIL, VERTEX, LEN],
    fresh: false,
    group: 0,
    limit: Top::Number(MOST_ITEMS),
};

const STEP_LINE: Form = Form {
    words: b"s",
    fields: &[ACTOR],
    fresh: false,
    group: 2,
    limit: Top::Number(MOST_STEPS),
};

const REPLAY: FileFormat = FileFormat {
    problem: Form {
        words: b"p rep",
        fields: &[WORDS, ACTORS],
        fresh: false,
        group: 0,
        limit: Top::Number(1),
    },
    items: &[START_LINE, OFFER_LINE, READ_LINE, RELAX_LINE, STEP_LINE],
    needed: Top::Number(0),
};

const OFFERS: FileFormat = FileFormat {
    problem: Form {
        words: b"p off",
        fields: &[WORDS, ACTORS],
        fresh: false,
        group: 0,
        limit: Top::Number(1),
    },
    items: &[OFFER_LINE],
    needed: Top::Number(0),
};

/// Returns the line forms of replay files.
pub fn replay_format() -> FileFormat
    ensures format { format_of result ≡ replay }
    ensures small { IsSmall result }
{
    REPLAY
}

/// Returns the line forms of offers files.
pub fn offers_format() -> FileFormat
    ensures format { format_of result ≡ offers }
    ensures small { IsSmall result }
{
    OFFERS
}
