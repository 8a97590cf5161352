//! How far the bytes so far have come in a block.
ghost use Rattle.std.specs.Prelude.{◌≡◌, ◌≢◌, ◌≤◌, length, take};
ghost use Rattle.sp_files.specs.Block.{after, Runs};

/// How far the bytes so far have come in a block.
#[derive(Clone, Copy, Debug, PartialEq, Eq)]
pub enum BlockState {
    /// They end before a line.
    Fresh,
    /// They end in a line that begins with `e`.
    Last,
    /// They end in another line.
    Within,
    /// They end after the line that begins with `e`: the block is over.
    Over,
}

impl BlockState {
    // Returns the state after one more byte.
    fn after(self, byte: u8) -> BlockState
        ensures { result ≡ after self byte }
    {
        match (self, byte) {
            (BlockState::Over, _) => BlockState::Over,
            (BlockState::Last, b'\n') => BlockState::Over,
            (BlockState::Last, _) => BlockState::Last,
            (_, b'\n') => BlockState::Fresh,
            (BlockState::Fresh, b'e') => BlockState::Last,
            _ => BlockState::Within,
        }
    }
}

/// Returns how many of the bytes belong to the block: all of them, if it goes on after them.
pub fn run_of(state: &mut BlockState, bytes: &[u8]) -> usize
    ensures within { result ≤ length bytes.now }
    ensures run { Runs state.old (take result bytes.now) state.new }
    ensures all { state.new ≢ BlockState.Over → result ≡ length bytes.now }
{
    for (end, byte) in bytes.iter().enumerate() {
        if *state == BlockState::Over {
            return end;
        }
        *state = state.after(*byte);
    }
    bytes.len()
}
