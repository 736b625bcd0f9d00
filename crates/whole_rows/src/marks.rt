//! Marks of rows: bits that say, for each variable of a table, which rows may list it. With them a column is read without a look at the
//! other rows.

ghost use Rattle.std.specs.Prelude.{◌≡◌, ◌≢◌, ◌⊎◌, ℕ, ◌<◌, ◌≤◌, ◌/◌, ◌%◌, IfOk};
ghost use Rattle.std.specs.Int.{bit_at};
ghost use Rattle.whole_rows.specs.Marks.{words_of, HasWord, HasWords, HasRow, IsMarked, HaveNone, HaveRoom, HaveSameRoom, AreKept};

use crate::mark_words::{clear_bit, join_word, next_bit, set_bit};
use std::alloc::{AllocError, Global};

/// For each variable of a table a bit for each row. If it is set, the row may list the variable. If it isn't, the row doesn't.
///
/// The marks don't say what a marked row lists. A mark too many costs only a look at that row.
#[derive(Drop)]
pub struct RowMarks {
    // how many words each variable has
    words: usize,
    bits: Vec<u64>,
}

impl RowMarks {
    /// No row is marked. There is a bit for each of this many rows at each of this many variables. It fails only for want of memory.
    pub fn none(alloc: Global, variables: usize, rows: usize) -> Result<RowMarks, AllocError>
        ensures none { IfOk result HaveNone }
        ensures room { IfOk result (HaveRoom variables rows) }
    {
        let words = rows / 64 + 1;
        let count = match variables.checked_mul(words) {
            Some(count) => count,
            None => return Err(AllocError),
        };
        let bits = vec![in alloc; 0; count]?;
        Ok(RowMarks { words, bits })
    }

    /// Marks row i at variable v.
    pub fn mark(&mut self, v: usize, i: usize)
        requires { HasWord self.old v i }
        ensures own { IsMarked self.new v i }
        ensures kept { AreKept self.old self.new }
    {
        let place = v * self.words + i / 64;
        set_bit(&mut self.bits, place, i % 64);
    }

    /// Removes the mark of row i at variable v. All others stay.
    pub fn unmark(&mut self, v: usize, i: usize)
        requires row { HasRow self.old i }
        requires word { HasWord self.old v i }
        ensures room { HaveSameRoom self.old self.new }
        ensures own { IsMarked self.new v i → ⊥ }
        ensures others { (u j : ℕ) → (u ≢ v) ⊎ (j ≢ i) → HasRow self.old j → IsMarked self.old u j → IsMarked self.new u j }
    {
        let place = v * self.words + i / 64;
        clear_bit(&mut self.bits, place, i % 64);
    }

    /// How many words each variable has. Word w has the bits of the rows from 64 w to 64 w + 63.
    pub fn words(&self) -> usize
        ensures { result ≡ words_of self.now }
    {
        self.words
    }

    /// Word w of variable v: a bit is set for each of its rows that is marked there.
    pub fn word(&self, v: usize, w: usize) -> u64
        requires words { HasWords self.now v }
        requires word { w < words_of self.now }
        ensures { (i : ℕ) → i / 64 ≡ w → IsMarked self.now v i → bit_at result (i % 64) ≡ 1 }
    {
        self.bits[v * self.words + w]
    }

    /// Marks at variable v each row of word w whose bit is set in `bits`.
    pub fn join(&mut self, v: usize, w: usize, bits: u64)
        requires words { HasWords self.old v }
        requires word { w < words_of self.old }
        ensures kept { AreKept self.old self.new }
        ensures joined { (i : ℕ) → i / 64 ≡ w → bit_at bits (i % 64) ≡ 1 → IsMarked self.new v i }
    {
        let place = v * self.words + w;
        join_word(&mut self.bits, place, bits);
    }

    /// The first marked row at variable v from i on, or the end. A word that marks none of its rows is skipped at once.
    pub fn next(&self, v: usize, i: usize, end: usize) -> usize
        requires order { i ≤ end }
        requires room { (j : ℕ) → j < end → HasWord self.now v j }
        ensures order { i ≤ result }
        ensures within { result ≤ end }
        ensures none { (j : ℕ) → i ≤ j → j < result → IsMarked self.now v j → ⊥ }
        ensures marked { result < end → IsMarked self.now v result }
    {
        let mut from = i;
        while from < end {
            let base = from / 64 * 64;
            let bit = next_bit(self.bits[v * self.words + from / 64], from % 64);
            if bit < 64 {
                return (base + bit).min(end);
            }
            from = base.saturating_add(64);
        }
        end
    }
}
