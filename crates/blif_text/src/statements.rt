//! What a line says.

ghost use Rattle.std.specs.Prelude.{◌≡◌, ◌<◌, ◌==◌, All, length, map, slice_index};
ghost use Rattle.std.specs.List.{list_any};
ghost use Rattle.std.specs.Str.{bytes_eq};
ghost use Rattle.job_words.specs.Text.{is_among};
ghost use Rattle.blif_text.specs.Statements.{directive, left_words, passed_words, statement_of};
ghost use Rattle.blif_text.specs.Said.{statement_in};

/// What a line says: its kind, with the words behind the first or, of a row, with all of them.
#[derive(Clone, Copy)]
pub enum Statement<'a, 'b> {
    Nothing,
    PassedOver,
    LeftOut,
    Unknown,
    Model(&'b [&'a [u8]]),
    Inputs(&'b [&'a [u8]]),
    Outputs(&'b [&'a [u8]]),
    Names(&'b [&'a [u8]]),
    Subckt(&'b [&'a [u8]]),
    Latch(&'b [&'a [u8]]),
    Ends(&'b [&'a [u8]]),
    Row(&'b [&'a [u8]]),
}

/// Words about delays and loads, which do not change what a network computes.
const PASSED_WORDS: [&[u8]; 14] = [
    b".area",
    b".delay",
    b".wire_load_slope",
    b".wire",
    b".input_arrival",
    b".default_input_arrival",
    b".output_required",
    b".default_output_required",
    b".input_drive",
    b".default_input_drive",
    b".output_load",
    b".default_output_load",
    b".max_input_load",
    b".default_max_input_load",
];

/// Words of libraries, further networks and state machines.
const LEFT_WORDS: [&[u8]; 6] = [
    b".gate",
    b".mlatch",
    b".exdc",
    b".search",
    b".start_kiss",
    b".clock",
];

fn is_among(words: &[&[u8]], word: &[u8]) -> bool
    ensures { result ≡ list_any (λ known. bytes_eq word.now known.now) words.now }
{
    words.iter().any(|known| word == *known)
}

fn is_passed_over(word: &[u8]) -> bool
    ensures { result ≡ is_among passed_words word.now }
{
    is_among(PASSED_WORDS.as_slice(), word)
}

fn is_left_out(word: &[u8]) -> bool
    ensures { result ≡ is_among left_words word.now }
{
    is_among(LEFT_WORDS.as_slice(), word)
}

/// What a line says that begins with this word and a dot.
fn directive<'a, 'b>(first: &[u8], rest: &'b [&'a [u8]]) -> Statement<'a, 'b>
    ensures { statement_in result ≡ directive first.now (map (λ word. word.now) rest.now) }
{
    if first == b".names".as_slice() {
        Statement::Names(rest)
    } else if first == b".inputs".as_slice() {
        Statement::Inputs(rest)
    } else if first == b".outputs".as_slice() {
        Statement::Outputs(rest)
    } else if first == b".model".as_slice() {
        Statement::Model(rest)
    } else if first == b".subckt".as_slice() {
        Statement::Subckt(rest)
    } else if first == b".latch".as_slice() {
        Statement::Latch(rest)
    } else if first == b".end".as_slice() {
        Statement::Ends(rest)
    } else if is_passed_over(first) {
        Statement::PassedOver
    } else if is_left_out(first) {
        Statement::LeftOut
    } else {
        Statement::Unknown
    }
}

fn begins_with_dot(word: &[u8]) -> bool
    requires { 0 < length word.now }
    ensures { result ≡ (slice_index word.now 0 == 46) }
{
    word[0] == b'.'
}

/// What a line of these words says.
#[tactic(auto, unfolding(crate::specs::Statements::statement_of))]
pub fn statement_of<'a, 'b>(words: &'b [&'a [u8]]) -> Statement<'a, 'b>
    requires some { All (λ word. 0 < length word.now) words.now }
    ensures { statement_in result ≡ statement_of (map (λ word. word.now) words.now) }
{
    let Some((first, rest)) = words.split_first() else {
        return Statement::Nothing;
    };
    if begins_with_dot(first) {
        directive(first, rest)
    } else {
        Statement::Row(words)
    }
}
