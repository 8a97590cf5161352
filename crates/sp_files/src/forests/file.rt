//! What a forest's file holds.
use sp_answer::Forest;

/// What a forest's file holds: a forest, and the number of sources that the first line tells. The file needn't be one that was
/// written of a run, so the forest may have another number of rows without a predecessor.
#[derive(Drop)]
pub struct ForestFile<const P: u32> {
    pub forest: Forest<P>,
    pub sources: u32,
}
