//! The widest table.
use std::test::Fail;
use table_shelves::open;
use words_rule::view::Opening;

/// A table of the most variables, elements and slots is opened, and its first seat given.
#[test]
fn the_widest_table_opens(rt: HostRuntime) -> Result<(), Fail> {
    let key = Opening {
        vars: 16_384,
        elements: 16_384,
        slots: 8_388_607,
        sessions: 64,
    };
    let (guard, mut closing) = open(rt.alloc(), &key)?;
    let _pass = guard.split(&mut closing);
    assert!(&rt; guard.calls(&mut closing) == 0);
    Ok(())
}
