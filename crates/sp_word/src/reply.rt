//! The reply of a table of least offers.

ghost use Rattle.std.specs.Prelude.{◌≡◌};
ghost use Rattle.sp_word.specs.Word.{IsPair};
ghost use Rattle.sp_word.specs.Reply.{reply_to};

use crate::word::Word;

/// What an offer did to the word of its vertex.
#[derive(Clone, Copy, Debug, PartialEq, Eq)]
pub enum Reply {
    /// The distance became smaller, possibly from unreached.
    Shorter,
    /// The distance stayed, and the predecessor became smaller.
    SmallerPred,
    /// The word found was no greater than the offer, and stayed.
    Kept,
}

/// Returns the reply of a table of least offers to `offered` at a vertex whose word is `found`.
pub fn decide<const P: u32>(found: Word<P>, offered: Word<P>) -> Reply
    requires { IsPair offered }
    ensures { result ≡ reply_to found.entry offered.entry }
{
    if offered.is_nearer(found) {
        Reply::Shorter
    } else if offered.is_below(found) {
        Reply::SmallerPred
    } else {
        Reply::Kept
    }
}
