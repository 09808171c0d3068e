//! A set of slots whose members stand far apart, at the edges of its words.

ghost use Rattle.std.specs.Prelude.{◌≡◌};

use held_slots::SlotSet;
use std::process::Abort;
use std::test::Fail;

/// Puts the first and the last slot in, and those on both sides of a word and of a word of words.
fn put_in(set: &mut SlotSet)
    requires { set.old.limit ≡ 8000000 }
    ensures { set.new.limit ≡ 8000000 }
{
    set.insert(0);
    set.insert(63);
    set.insert(64);
    set.insert(4_095);
    set.insert(4_096);
    set.insert(262_144);
    set.insert(7_999_999);
}

/// Takes two out, of which one is the only member of its word of words.
fn take_out(set: &mut SlotSet)
    requires { set.old.limit ≡ 8000000 }
    ensures { set.new.limit ≡ 8000000 }
{
    set.remove(64);
    set.remove(262_144);
}

/// Sees each member from behind the one before it.
fn see_all(rt: &impl Abort, set: &SlotSet) {
    assert!(rt; set.next(0) == Some(0));
    assert!(rt; set.next(1) == Some(63));
    assert!(rt; set.next(64) == Some(64));
    assert!(rt; set.next(65) == Some(4_095));
    assert!(rt; set.next(4_096) == Some(4_096));
    assert!(rt; set.next(4_097) == Some(262_144));
    assert!(rt; set.next(262_145) == Some(7_999_999));
    assert!(rt; set.next(8_000_000) == None);
}

/// Sees that two are gone, and no others.
fn see_rest(rt: &impl Abort, set: &SlotSet) {
    assert!(rt; set.next(64) == Some(4_095));
    assert!(rt; set.next(4_097) == Some(7_999_999));
    assert!(rt; !set.contains(64) && !set.contains(262_144));
    assert!(rt; set.contains(63) && set.contains(7_999_999));
}

#[test]
fn the_next_member_is_found(rt: HostRuntime) -> Result<(), Fail> {
    let mut set = SlotSet::new(rt.alloc(), 8_000_000)?;
    assert!(rt; set.next(0) == None);
    put_in(&mut set);
    see_all(&rt, &set);
    take_out(&mut set);
    see_rest(&rt, &set);
    Ok(())
}
