//! Count words: the generation of a slot in bits 63 to 32, modulo 2^32, and how many hold it in bits 31 to 0.

ghost use Rattle.std.specs.Prelude.{◌≡◌, ◌+◌, ◌-◌, ◌%◌, ◌<◌, ◌^◌};
ghost use Rattle.handle_count.specs.CountWords.{count_of, generation_of};

/// The word with a count of one more.
pub fn raise(word: u64) -> u64
    requires { count_of word < 2 ^ 32 - 1 }
    ensures count { count_of result ≡ count_of word + 1 }
    ensures generation { generation_of result ≡ generation_of word }
{
    word + 1
}

/// The word with a count of one less.
pub fn lower(word: u64) -> u64
    requires { 0 < count_of word }
    ensures count { count_of result + 1 ≡ count_of word }
    ensures generation { generation_of result ≡ generation_of word }
{
    word - 1
}

/// The word with the next generation, which is 0 behind the last one.
pub fn next_generation(word: u64) -> u64
    ensures count { count_of result ≡ count_of word }
    ensures generation { generation_of result ≡ (generation_of word + 1) % 2 ^ 32 }
{
    word.wrapping_add(1 << 32)
}
