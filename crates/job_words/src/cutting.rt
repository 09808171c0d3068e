//! Where a text is cut: at bytes of a class.

ghost use Rattle.std.specs.Prelude.{◌≡◌, ◌∷◌, [], ◌++◌, ◌<◌, ◌≤◌, ◌==◌, not, true, length, position, IfSome, MatchOption};
ghost use Rattle.std.specs.List.{before_first, list_all, position_or_len, slice_split};
ghost use Rattle.job_words.specs.Classes.{is_in, some_word, words_between};

/// A class of bytes.
#[derive(Clone, Copy)]
pub enum ByteClass {
    /// This byte alone.
    One(u8),
    /// A blank or a tab: what separates the words of a network.
    Blank,
    /// A blank, a tab or a carriage return: what separates the words of a job and of a stored diagram.
    BlankOrReturn,
    /// A tab, a carriage return, and 32 to 126: what may stand in a line of a job.
    Ascii,
    /// A tab, 32 to 126, and 128 to 255: what may stand in a line of a network.
    Extended,
}

fn is_in(b: u8, class: ByteClass) -> bool
    ensures { result ≡ is_in class b }
{
    match class {
        ByteClass::One(byte) => b == byte,
        ByteClass::Blank => b == b' ' || b == b'\t',
        ByteClass::BlankOrReturn => b == b' ' || b == b'\t' || b == b'\r',
        ByteClass::Ascii => b == b'\t' || b == b'\r' || (32 <= b && b <= 126),
        ByteClass::Extended => b == b'\t' || (32 <= b && b != 127),
    }
}

/// Whether all bytes are of a class.
pub fn all_in(bytes: &[u8], class: ByteClass) -> bool
    ensures { result ≡ list_all (is_in class) bytes.now }
{
    bytes.iter().all(|b| is_in(*b, class))
}

fn position_of(bytes: &[u8], class: ByteClass) -> Option<usize>
    ensures { result ≡ position (is_in class) bytes.now }
{
    bytes.iter().position(|b| is_in(*b, class))
}

/// Where the first byte of a class stands, or the length.
fn place_of(bytes: &[u8], class: ByteClass) -> usize
    ensures place { result ≡ position_or_len (is_in class) bytes.now }
    ensures within { result ≤ length bytes.now }
{
    position_of(bytes, class).unwrap_or(bytes.len())
}

/// What stands before the first such byte, or all.
pub fn before_byte(bytes: &[u8], byte: u8) -> &[u8]
    ensures { result.now ≡ before_first (λ b. b == byte) bytes.now }
{
    &bytes[..place_of(bytes, ByteClass::One(byte))]
}

/// What stands before the first byte of a class, and what stands behind it; none where there is no such byte.
pub fn cut(bytes: &[u8], class: ByteClass) -> Option<(&[u8], &[u8])>
    ensures parts { MatchOption result (slice_split (is_in class) bytes.now ≡ bytes.now ∷ []) (λ p. slice_split (is_in class) bytes.now ≡ p.0.now ∷ slice_split (is_in class) p.1.now) }
    ensures free { MatchOption result (list_all (λ b. not (is_in class b)) bytes.now ≡ true) (λ p. list_all (λ b. not (is_in class b)) p.0.now ≡ true) }
    ensures shorter { IfSome result (λ p. length p.1.now < length bytes.now) }
{
    let end = place_of(bytes, class);
    if end < bytes.len() {
        Some((&bytes[..end], &bytes[end + 1..]))
    } else {
        None
    }
}

/// What stands before the first separator, and what stands behind it.
pub fn cut_piece(line: &[u8], separator: ByteClass) -> (&[u8], &[u8])
    requires { 0 < length line.now }
    ensures words { words_between separator line.now ≡ some_word result.0.now ++ words_between separator result.1.now }
    ensures whole { list_all (λ b. not (is_in separator b)) result.0.now ≡ true }
    ensures shorter { length result.1.now < length line.now }
{
    match cut(line, separator) {
        Some(parts) => parts,
        None => (line, &line[line.len()..]),
    }
}
