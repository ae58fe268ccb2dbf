// Many yes or no marks in a lent row of 32-bit words: mark i is bit i % 32 of word i / 32.
#![tactic(auto)]

ghost use Rattle.std.specs.Prelude.{◌≡◌, ◌*◌, ◌≤◌, ◌<◌, length};
ghost use Rattle.flags.specs.Flags.{flag_at, with_bit, Flagged, Cleared};

// Mark i is set.
pub fn flag_at(words: &[u32], i: usize) -> bool
    requires { i < length words.now * 32 }
    ensures { result ≡ flag_at words.now i }
{
    (words[i / 32] >> ((i % 32) as u32)) % 2 == 1
}

// A word with its bit b set.
fn with_bit(word: u32, b: u32) -> u32
    requires { b < 32 }
    ensures { result ≡ with_bit word b }
{
    word | (1 << b)
}

// Mark i becomes set. The others are as they were.
pub fn set_flag(words: &mut [u32], i: usize)
    requires { i < length words.old * 32 }
    ensures { Flagged words.old i words.new }
{
    let at = i / 32;
    words[at] = with_bit(words[at], (i % 32) as u32);
}

// The marks of the words from word `from` up to below word `to` are not set now. The others are as they were.
pub fn clear_words(words: &mut [u32], from: usize, to: usize)
    requires { to ≤ length words.old }
    ensures { Cleared words.old from to words.new }
{
    if from < to {
        words[from..to].fill(0);
    }
}
