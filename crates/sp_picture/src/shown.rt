//! Words and calls as the texts of a picture show them.

use sp_machine::{Call, Finished};
use sp_word::{Reply, Word};
use std::fmt;

/// A word, shown as `5 by 3`, or `unreached`.
#[derive(Clone, Copy)]
pub(crate) struct WordShown<const P: u32> {
    pub word: Word<P>,
}

impl<const P: u32> fmt::Display for WordShown<P> {
    fn fmt<W: fmt::Write>(&self, f: &mut fmt::Formatter<W>) -> fmt::Result {
        match (self.word.dist(), self.word.pred()) {
            (Some(dist), Some(pred)) => write!(f, "{dist} by {pred}"),
            _ => f.write_str("unreached"),
        }
    }
}

/// A finished call, shown as its line of the report without its steps: `o 1 1 5 3 shorter`.
#[derive(Clone, Copy)]
pub(crate) struct CallShown<const P: u32> {
    pub call: Finished<P>,
}

impl<const P: u32> fmt::Display for CallShown<P> {
    fn fmt<W: fmt::Write>(&self, f: &mut fmt::Formatter<W>) -> fmt::Result {
        let actor = self.call.ended.actor;
        let vertex = self.call.ended.vertex;
        match self.call.ended.call {
            Call::Offer { word, reply, .. } => {
                write!(f, "o {actor} {vertex}")?;
                write_pair(f, word)?;
                write!(f, " {}", reply_name(reply))
            }
            Call::Read { found } => {
                write!(f, "r {actor} {vertex}")?;
                write_pair(f, found)
            }
        }
    }
}

// Writes ` D P`, or ` none`.
fn write_pair<const P: u32, W: fmt::Write>(
    f: &mut fmt::Formatter<W>,
    word: Word<P>,
) -> fmt::Result {
    match (word.dist(), word.pred()) {
        (Some(dist), Some(pred)) => write!(f, " {dist} {pred}"),
        _ => f.write_str(" none"),
    }
}

/// Returns the name of a reply in the report.
pub(crate) fn reply_name(reply: Reply) -> &'static str {
    match reply {
        Reply::Shorter => "shorter",
        Reply::SmallerPred => "smaller",
        Reply::Kept => "kept",
    }
}
