//! Single steps of the machine on a word. They order what a thread does before and after them, for every other thread.
ghost use Rattle.std.specs.Prelude.{◌≡◌};

use std::marker::Brand;
use std::sync::atomic::Ordering::SeqCst;
use std::sync::atomic::raw;

/// Returns the number in the word, and doesn't write it.
pub(crate) fn load(word: &mut u64) -> u64
    ensures { (result ≡ word.old) × (word.new ≡ word.old) }
{
    unsafe { raw::load::<Brand>(word as *mut u64 as *const u64, SeqCst) }
}

/// Writes a number to the word.
pub(crate) fn store(word: &mut u64, new: u64)
    ensures { word.new ≡ new }
{
    unsafe { raw::store::<Brand>(word as *mut u64 as *const u64, new, SeqCst) }
}

/// Writes a number to the word, and returns the number that was there.
pub(crate) fn swap(word: &mut u64, new: u64) -> u64
    ensures { (result ≡ word.old) × (word.new ≡ new) }
{
    unsafe { raw::swap::<Brand>(word as *mut u64 as *const u64, new, SeqCst) }
}
