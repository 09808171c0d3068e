//! The lines of a text, some of which are put together from several physical ones.

use blif_text::{Statement, kept_bytes, next_line, put_words, statement_of};
use std::process::Abort;
use std::test::Fail;

/// Whether these are a, b and c.
fn are_three(names: &[&[u8]]) -> bool {
    match names {
        [first, second, third] => {
            *first == b"a".as_slice() && *second == b"b".as_slice() && *third == b"c".as_slice()
        }
        _ => false,
    }
}

/// The first line goes on twice, so its bytes are kept; the second has a comment, and ends there, so that nothing of it is.
#[test]
fn lines_go_on(rt: HostRuntime) -> Result<(), Fail> {
    let text = b".inputs a \\\nb\\\n c\n.names a b # \\\n".as_slice();
    let kept = kept_bytes(rt.alloc(), text)?;
    assert!(rt; kept.as_slice() == b".inputs a b c".as_slice());
    let first = next_line(text, &kept, 1);
    let mut line = Vec::new(rt.alloc());
    put_words(&mut line, first.bytes)?;
    let Statement::Inputs(names) = statement_of(&line) else {
        panic!(&rt; "no inputs");
    };
    assert!(rt; are_three(names));
    assert!(rt; first.number == 4);
    assert!(rt; first.rest == b".names a b # \\\n".as_slice());
    assert!(rt; first.kept.is_empty());
    Ok(())
}

/// A line that is not put together has its words in the text itself.
#[test]
fn comments_are_taken_off(rt: HostRuntime) -> Result<(), Fail> {
    let text = b".latch a\tb re # c \\\n.end".as_slice();
    let kept = kept_bytes(rt.alloc(), text)?;
    assert!(rt; kept.is_empty());
    let first = next_line(text, &kept, 7);
    let mut line = Vec::new(rt.alloc());
    put_words(&mut line, first.bytes)?;
    let Statement::Latch(names) = statement_of(&line) else {
        panic!(&rt; "no latch");
    };
    assert!(rt; names.len() == 3);
    assert!(rt; first.number == 8);
    assert!(rt; first.rest == b".end".as_slice());
    Ok(())
}
