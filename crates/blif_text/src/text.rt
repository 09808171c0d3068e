//! Lines and words.

ghost use Rattle.std.specs.Prelude.{◌≡◌, [], ◌∷◌, ◌<◌, ◌≤◌, ◌+◌, ◌^◌, ◌==◌, nat_eq, All, drop, length, map, take, IfOk, OnOk};
ghost use Rattle.std.specs.List.{ends_with, list_any};
ghost use Rattle.blif_text.specs.Text.{goes_on, joined_from, kept_bytes, kept_piece, left_of, line_at, lines_of, without_last, without_return, words_of};

use job_words::{ByteClass, before_byte, cut, cut_piece};
use std::alloc::{AllocError, Global};

fn without_last(line: &[u8]) -> &[u8]
    requires { 0 < length line.now }
    ensures { result.now ≡ without_last line.now }
{
    &line[..line.len() - 1]
}

fn ends_in(line: &[u8], byte: u8) -> bool
    ensures value { result ≡ ends_with nat_eq line.now (byte ∷ []) }
{
    line.ends_with([byte].as_slice())
}

fn without_return(line: &[u8]) -> &[u8]
    ensures { result.now ≡ without_return line.now }
{
    if !line.is_empty() && ends_in(line, b'\r') {
        without_last(line)
    } else {
        line
    }
}

/// The first physical line, and what stands behind its line feed.
fn cut_physical(text: &[u8]) -> (&[u8], &[u8])
    requires { 0 < length text.now }
    ensures lines { lines_of text.now ≡ result.0.now ∷ lines_of result.1.now }
    ensures shorter { length result.1.now < length text.now }
{
    match cut(text, ByteClass::One(b'\n')) {
        Some((line, rest)) => (without_return(line), rest),
        None => (text, &text[text.len()..]),
    }
}

fn has_comment(line: &[u8]) -> bool
    ensures { result ≡ list_any (λ b. b == 35) line.now }
{
    line.iter().any(|b| *b == b'#')
}

/// Whether a physical line goes on in the next one.
fn goes_on(line: &[u8]) -> bool
    ensures value { result ≡ goes_on line.now }
{
    ends_in(line, b'\\') && !has_comment(line)
}

/// What is left of a physical line without its comment, and without the `\` by which it goes on.
fn left_of(line: &[u8]) -> &[u8]
    ensures { result.now ≡ left_of line.now }
{
    if goes_on(line) && !line.is_empty() {
        without_last(line)
    } else {
        before_byte(line, b'#')
    }
}

/// Puts the words of a line into a list, in the place of what it holds. None of them is empty.
pub fn put_words<'a>(words: &mut Vec<&'a [u8]>, line: &'a [u8]) -> Result<(), AllocError>
    ensures words { OnOk result (map (λ word. word.now) words.new.items ≡ words_of line.now) }
    ensures some { OnOk result (All (λ word. 0 < length word.now) words.new.items) }
{
    words.clear();
    let mut rest = line;
    while !rest.is_empty() {
        let (piece, after) = cut_piece(rest, ByteClass::Blank);
        if !piece.is_empty() && words.push(piece).is_err() {
            return Err(AllocError);
        }
        rest = after;
    }
    Ok(())
}

/// The bytes before a place, and those from there on.
fn parted(bytes: &[u8], place: usize) -> (&[u8], &[u8])
    requires { place ≤ length bytes.now }
    ensures front { result.0.now ≡ take place bytes.now }
    ensures back { result.1.now ≡ drop place bytes.now }
{
    (&bytes[..place], &bytes[place..])
}

/// What is kept of a physical line, where the line before it goes on in it or not.
fn kept_piece(onward: bool, line: &[u8]) -> &[u8]
    ensures { result.now ≡ kept_piece onward line.now }
{
    if onward || goes_on(line) {
        left_of(line)
    } else {
        b"".as_slice()
    }
}

/// The bytes of those joined lines of a text that are put together from several physical ones, one behind another.
pub fn kept_bytes(alloc: Global, text: &[u8]) -> Result<Vec<u8>, AllocError>
    ensures { IfOk result (λ kept. kept.items ≡ kept_bytes text.now) }
{
    let mut kept = Vec::new(alloc);
    let mut rest = text;
    let mut onward = false;
    while !rest.is_empty() {
        let (line, after) = cut_physical(rest);
        kept.extend_from_slice(kept_piece(onward, line))?;
        onward = goes_on(line);
        rest = after;
    }
    Ok(kept)
}

/// A joined line, what stands behind it in the text and in the bytes that are kept, and the number of the first line there.
#[derive(Clone, Copy)]
pub struct Next<'a> {
    pub bytes: &'a [u8],
    pub rest: &'a [u8],
    pub kept: &'a [u8],
    pub number: u64,
}

/// The first joined line of a text whose lines are numbered from here on, where these bytes are kept of its joined lines.
pub fn next_line<'a>(text: &'a [u8], kept: &'a [u8], number: u64) -> Next<'a>
    requires some { 0 < length text.now }
    requires few { number + length text.now < 2 ^ 64 }
    requires kept { kept.now ≡ kept_bytes text.now }
    ensures lines { joined_from number (lines_of text.now) ≡ line_at number result.bytes.now ∷ joined_from result.number (lines_of result.rest.now) }
    ensures kept { result.kept.now ≡ kept_bytes result.rest.now }
    ensures shorter { length result.rest.now < length text.now }
    ensures later { number < result.number }
    ensures numbers { result.number + length result.rest.now ≤ number + length text.now }
{
    let (line, after) = cut_physical(text);
    let piece = left_of(line);
    if !goes_on(line) {
        return Next {
            bytes: piece,
            rest: after,
            kept,
            number: number + 1,
        };
    }
    let mut long = piece.len();
    let mut rest = after;
    let mut next = number + 1;
    while !rest.is_empty() {
        let (line, after) = cut_physical(rest);
        let piece = left_of(line);
        long += piece.len();
        rest = after;
        next += 1;
        if !goes_on(line) {
            let (bytes, kept) = parted(kept, long);
            return Next {
                bytes,
                rest,
                kept,
                number: next,
            };
        }
    }
    let (bytes, kept) = parted(kept, long);
    Next {
        bytes,
        rest,
        kept,
        number: next,
    }
}
