//! One note: a link, a mark and a pin in 32 bits.

ghost use Rattle.std.specs.Prelude.{◌≡◌, ℕ, ◌+◌, ◌<◌, ◌≤◌, ◌^◌, length, max, slice_index, vec_capacity};
ghost use Rattle.held_slots.specs.Notes.{flag, link_in, mark_in, pin_in};

/// The bit of a note that marks its slot. The bits below it have the link.
pub(crate) const MARK: u32 = 1 << 24;

/// The bit of a note that pins its slot.
pub(crate) const PIN: u32 = 1 << 25;

/// Adds zeros until there is a note for the slot.
pub(crate) fn lengthen(notes: &mut Vec<u32>, slot: usize)
    requires { slot < vec_capacity notes.old }
    ensures kept { length notes.old.items ≤ length notes.new.items }
    ensures reaches { slot < length notes.new.items }
    ensures within { length notes.new.items ≤ max (length notes.old.items) (slot + 1) }
    ensures same { (s : ℕ) → slice_index notes.new.items s ≡ slice_index notes.old.items s }
    ensures room { vec_capacity notes.new ≡ vec_capacity notes.old }
{
    for _ in notes.len()..slot + 1 {
        notes.push_reserved(0);
    }
}

/// A note with its mark set or taken away.
pub(crate) fn with_mark(note: u32, on: bool) -> u32
    ensures mark { mark_in result ≡ flag on }
    ensures pin { pin_in result ≡ pin_in note }
    ensures link { link_in result ≡ link_in note }
{
    let bare = note - note / MARK % 2 * MARK;
    if on { bare + MARK } else { bare }
}

/// A note with its pin set or taken away.
pub(crate) fn with_pin(note: u32, on: bool) -> u32
    ensures pin { pin_in result ≡ flag on }
    ensures mark { mark_in result ≡ mark_in note }
    ensures link { link_in result ≡ link_in note }
{
    let bare = note - note / PIN % 2 * PIN;
    if on { bare + PIN } else { bare }
}

/// A note with another link.
pub(crate) fn with_link(note: u32, link: u32) -> u32
    requires { link < 2 ^ 24 }
    ensures mark { mark_in result ≡ mark_in note }
    ensures pin { pin_in result ≡ pin_in note }
    ensures link { link_in result ≡ link }
{
    note / MARK % 4 * MARK + link
}

/// The note of a slot, which is 0 where none was written.
#[inline(always)]
pub(crate) fn note_of(notes: &[u32], slot: u32) -> u32
    ensures { result ≡ slice_index notes.now slot }
{
    let slot = slot as usize;
    if slot < notes.len() { notes[slot] } else { 0 }
}
