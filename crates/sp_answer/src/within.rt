//! Words within a limit.
ghost use Rattle.std.specs.Prelude.{◌≡◌, map};
ghost use Rattle.sp_answer.specs.Within.{up_to};
ghost use Rattle.sp_answer.specs.Run.{words_within};

use sp_word::Word;

/// Returns the word if its distance is at most the limit, and the unreached word otherwise.
pub fn up_to<const P: u32>(word: Word<P>, limit: u64) -> Word<P>
    ensures { result ≡ up_to limit word.entry }
{
    match word.dist() {
        Some(dist) if dist <= limit => word,
        _ => Word::unreached(),
    }
}

// Makes every word beyond the limit unreached.
fn cut<const P: u32>(words: &mut Vec<Word<P>>, limit: u64)
    ensures { words.new.items ≡ map (up_to limit) words.old.items }
{
    for place in 0..words.len() {
        words[place] = up_to(words[place], limit);
    }
}

/// Makes every word beyond the limit unreached, if there is a limit.
pub fn words_within<const P: u32>(mut words: Vec<Word<P>>, limit: Option<u64>) -> Vec<Word<P>>
    ensures { result.items ≡ words_within limit words.entry.items }
{
    match limit {
        Some(limit) => {
            cut(&mut words, limit);
            words
        }
        None => words,
    }
}
