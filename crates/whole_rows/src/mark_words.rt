//! Bits of words: set, cleared, joined and looked for.

ghost use Rattle.std.specs.Prelude.{◌<◌, length};
ghost use Rattle.whole_rows.specs.MarkWords.{HasBitAt, IsBitAdded, IsBitRemoved, AreBitsJoined, IsSetIn, IsClearedIn};
ghost use Rattle.whole_rows.specs.MarkWords.{AreJoinedIn, IsNextBit};

// The word with one more bit set.
fn with_bit(word: u64, bit: usize) -> u64
    requires { bit < 64 }
    ensures { IsBitAdded word bit result }
{
    word | (1 << bit)
}

// The word without a bit.
fn without_bit(word: u64, bit: usize) -> u64
    requires { bit < 64 }
    ensures { IsBitRemoved word bit result }
{
    word & !(1 << bit)
}

// The bits of either word.
fn bits_of_either(word: u64, more: u64) -> u64
    ensures { AreBitsJoined word more result }
{
    word | more
}

// Sets a bit of one of the words.
pub(crate) fn set_bit(words: &mut [u64], place: usize, bit: usize)
    requires { HasBitAt words.old place bit }
    ensures { IsSetIn words.old words.new place bit }
{
    words[place] = with_bit(words[place], bit);
}

// Clears a bit of one of the words.
pub(crate) fn clear_bit(words: &mut [u64], place: usize, bit: usize)
    requires { HasBitAt words.old place bit }
    ensures { IsClearedIn words.old words.new place bit }
{
    words[place] = without_bit(words[place], bit);
}

// Sets more bits of one of the words.
pub(crate) fn join_word(words: &mut [u64], place: usize, bits: u64)
    requires { place < length words.old }
    ensures { AreJoinedIn words.old words.new place bits }
{
    words[place] = bits_of_either(words[place], bits);
}

// The position of the first bit that is set, from this one on, or 64 or more.
pub(crate) fn next_bit(word: u64, bit: usize) -> usize
    requires { bit < 64 }
    ensures { IsNextBit word bit result }
{
    bit + (word >> bit).trailing_zeros() as usize
}
