//! The words of a latch.

ghost use Rattle.std.specs.Prelude.{◌≡◌, MatchOption, None, Some, ℕ};
ghost use Rattle.std.specs.List.{list_any};
ghost use Rattle.std.specs.Str.{bytes_eq};
ghost use Rattle.job_words.specs.Text.{is_among};
ghost use Rattle.blif_formals.specs.Formals.{words_in};
ghost use Rattle.blif_drafts.specs.Latches.{is_ending, latch_of, latch_with, types, values};

/// The types of latches, which do not change what the network computes.
const TYPES: [&[u8]; 5] = [b"fe", b"re", b"ah", b"al", b"as"];

/// The first values of latches.
const VALUES: [&[u8]; 4] = [b"0", b"1", b"2", b"3"];

fn is_among(words: &[&[u8]], word: &[u8]) -> bool
    ensures { result ≡ list_any (λ known. bytes_eq word.now known.now) words.now }
{
    words.iter().any(|known| word == *known)
}

fn is_type(word: &[u8]) -> bool
    ensures { result ≡ is_among types word.now }
{
    is_among(TYPES.as_slice(), word)
}

fn is_value(word: &[u8]) -> bool
    ensures { result ≡ is_among values word.now }
{
    is_among(VALUES.as_slice(), word)
}

/// Whether words may stand behind the names of a latch's signals: a type and what controls it, or a first value, or both, or nothing.
fn is_ending(words: &[&[u8]]) -> bool
    ensures { result ≡ is_ending (words_in words.now) }
{
    match words {
        [] => true,
        [value] => is_value(value),
        [kind, _control] => is_type(kind),
        [kind, _control, value] => is_type(kind) && is_value(value),
        _ => false,
    }
}

/// The signal that a latch of these words reads and the one that it shows, if the words have the form of a latch.
pub fn latch_in<'a>(words: &[&'a [u8]]) -> Option<(&'a [u8], &'a [u8])>
    ensures { (line : ℕ) → MatchOption result (latch_of line (words_in words.now) ≡ None) (λ p. latch_of line (words_in words.now) ≡ Some (latch_with line p.0.now p.1.now)) }
{
    match words {
        [input, output, ending @ ..] if is_ending(ending) => Some((input, output)),
        _ => None,
    }
}
