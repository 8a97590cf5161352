//! Appends the lines of a report to a block.
ghost use Rattle.std.specs.Prelude.{◌≡◌, ◌+◌, ◌≤◌, ◌++◌, length};
ghost use Rattle.sp_replay.specs.ReportText.{word_text, reply_text, asked_text, call_text, reached_text, count_text, totals_text, closed_text};

use sp_device::Block;
use sp_machine::{Call, Finished};
use sp_text::push_number;
use sp_word::{Reply, Word};

/// The greatest number of bytes of the line of a finished call.
pub const CALL_ROOM: usize = 136;

/// The greatest number of bytes of the line of a reached vertex.
pub const REACHED_ROOM: usize = 65;

/// The greatest number of bytes of the line of the count.
pub const COUNT_ROOM: usize = 23;

/// The greatest number of bytes of the last two lines together.
pub const END_ROOM: usize = 55;

fn push_word<const P: u32>(block: &mut Block, word: Word<P>)
    requires { length block.old + 42 ≤ 8192 }
    ensures text { block.new ≡ block.old ++ word_text word.entry }
    ensures short { length block.new ≤ length block.old + 42 }
{
    match (word.dist(), word.pred()) {
        (Some(dist), Some(pred)) => {
            push_number(block, dist);
            push_number(block, pred as u64);
        }
        _ => block.push(b" none"),
    }
}

fn push_reply(block: &mut Block, reply: Reply)
    requires { length block.old + 8 ≤ 8192 }
    ensures text { block.new ≡ block.old ++ reply_text reply }
    ensures short { length block.new ≤ length block.old + 8 }
{
    match reply {
        Reply::Shorter => block.push(b" shorter"),
        Reply::SmallerPred => block.push(b" smaller"),
        Reply::Kept => block.push(b" kept"),
    }
}

fn push_asked<const P: u32>(block: &mut Block, actor: u32, vertex: u32, call: Call<P>)
    requires { length block.old + 93 ≤ 8192 }
    ensures text { block.new ≡ block.old ++ asked_text actor vertex call.entry }
    ensures short { length block.new ≤ length block.old + 93 }
{
    match call {
        Call::Offer { word, reply, .. } => {
            block.push(b"o");
            push_number(block, actor as u64);
            push_number(block, vertex as u64);
            push_word(block, word);
            push_reply(block, reply);
        }
        Call::Read { found } => {
            block.push(b"r");
            push_number(block, actor as u64);
            push_number(block, vertex as u64);
            push_word(block, found);
        }
    }
}

/// Appends the line of a finished call.
pub fn push_call<const P: u32>(block: &mut Block, call: &Finished<P>)
    requires { length block.old + CALL_ROOM ≤ 8192 }
    ensures { block.new ≡ block.old ++ call_text call.now }
{
    push_asked(block, call.ended.actor, call.ended.vertex, call.ended.call);
    push_number(block, call.first);
    push_number(block, call.last);
    block.push(b"\n");
}

/// Appends the line of a vertex, if it is reached.
pub fn push_reached<const P: u32>(block: &mut Block, vertex: u64, word: Word<P>)
    requires { length block.old + REACHED_ROOM ≤ 8192 }
    ensures { block.new ≡ block.old ++ reached_text vertex word.entry }
{
    let (Some(dist), Some(pred)) = (word.dist(), word.pred()) else {
        return;
    };
    block.push(b"w");
    push_number(block, vertex);
    push_number(block, dist);
    push_number(block, pred as u64);
    block.push(b"\n");
}

/// Appends the line with the number of reached vertices.
pub fn push_count(block: &mut Block, count: u64)
    requires { length block.old + COUNT_ROOM ≤ 8192 }
    ensures { block.new ≡ block.old ++ count_text count }
{
    block.push(b"e");
    push_number(block, count);
    block.push(b"\n");
}

/// Appends the line of the totals, and the line that says whether the run is closed.
pub fn push_end(block: &mut Block, wins: u64, losses: u64, closed: bool)
    requires { length block.old + END_ROOM ≤ 8192 }
    ensures { block.new ≡ block.old ++ (totals_text wins losses ++ closed_text closed) }
{
    block.push(b"t");
    push_number(block, wins);
    push_number(block, losses);
    block.push(b"\n");
    block.push(if closed {
        b"closed yes\n"
    } else {
        b"closed no\n"
    });
}
