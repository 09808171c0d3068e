//! The words of a line at the places of its command.

ghost use Rattle.std.specs.Prelude.{◌≡◌, ◌++◌, ◌∷◌, [], ◌<◌, codes, false, is_some, length, option_map, MatchOption, List as ListOf};
ghost use Rattle.std.specs.List.{list_all};
ghost use Rattle.job_words.specs.Text.{Word, is_assignment, split_words};
ghost use Rattle.job_commands.specs.Commands.{filled, assignment_of, telling_of, command_of, has_form, is_at_word};
ghost use Rattle.job_commands.specs.Slots.{slot_of, slots_of, slots_before, line_of, or_again};

use crate::commands::{Known, Opcode, Place, assigning, telling};
use job_words::{first_word, is_bit, is_bits, is_integer, is_name, is_number};

/// A place of a line, and the word there.
#[derive(Clone, Copy)]
pub struct Slot<'a> {
    pub place: Place,
    pub word: &'a [u8],
}

/// The places of a line and the words there: one before the word of the command, where there is one, and those behind it.
#[derive(Clone, Copy)]
pub struct Slots<'a> {
    first: Option<Slot<'a>>,
    due: &'a [Place],
    repeated: &'a [Place],
    words: &'a [u8],
}

/// A line that has the form of a command.
#[derive(Clone, Copy)]
pub struct Line<'a> {
    pub opcode: Opcode,
    pub slots: Slots<'a>,
}

impl Slot<'_> {
    /// Whether the word has the form that is due.
    pub fn has_form(&self) -> bool
        ensures { result ≡ has_form (slot_of self.now) }
    {
        match self.place {
            Place::Fresh | Place::Held(_) | Place::Any | Place::Alike | Place::Literals => {
                is_name(self.word)
            }
            Place::Variable | Place::NewVariable | Place::Element | Place::Level(_) | Place::Cell =>
                { is_number(self.word) }
            Place::Value => is_integer(self.word),
            Place::Bit => is_bit(self.word),
            Place::Bits => is_bits(self.word),
        }
    }
}

impl<'a> Slots<'a> {
    /// The first place with its word, and those behind it.
    pub fn split_first(self) -> Option<(Slot<'a>, Slots<'a>)>
        ensures { MatchOption result (slots_of self.entry ≡ []) (λ p. slots_of self.entry ≡ slot_of p.0 ∷ slots_of p.1) }
    {
        let Slots {
            first,
            due,
            repeated,
            words,
        } = self;
        if let Some(slot) = first {
            return Some((
                slot,
                Slots {
                    first: None,
                    due,
                    repeated,
                    words,
                },
            ));
        }
        let (word, words) = first_word(words)?;
        let (place, due) = next_place(due, repeated)?;
        let slot = Slot {
            place: *place,
            word,
        };
        Some((
            slot,
            Slots {
                first: None,
                due,
                repeated,
                words,
            },
        ))
    }
}

/// Whether each word has the form that is due.
pub fn all_have_form(slots: Slots<'_>) -> bool
    ensures { result ≡ list_all has_form (slots_of slots.entry) }
{
    let mut rest = slots;
    while let Some((slot, after)) = rest.split_first() {
        if !slot.has_form() {
            return false;
        }
        rest = after;
    }
    true
}

/// The next place and those behind it. Behind the last one those that repeat begin again.
fn next_place<'a>(due: &'a [Place], repeated: &'a [Place]) -> Option<(&'a Place, &'a [Place])>
    ensures { MatchOption result (or_again due.now repeated.now ≡ []) (λ p. or_again due.now repeated.now ≡ p.0.now ∷ p.1.now) }
{
    let due = if due.is_empty() { repeated } else { due };
    due.split_first()
}

/// Whether there are as many words as are due.
fn fits(command: Known, words: &[u8]) -> bool
    ensures { result ≡ is_some (filled command.places.now command.repeated.now (split_words words.now)) }
{
    let mut due = command.places;
    let mut rest = words;
    while let Some((_, after)) = first_word(rest) {
        let Some((_, behind)) = next_place(due, command.repeated) else {
            return false;
        };
        due = behind;
        rest = after;
    }
    due.is_empty()
}

/// The line, where there are as many words as are due: a place before the word of the command, and then these.
fn filled<'a>(first: Option<Slot<'a>>, command: Known, words: &'a [u8]) -> Option<Line<'a>>
    ensures { option_map line_of result ≡ option_map (λ slots. (command.opcode, slots_before first.entry ++ slots)) (filled command.places.now command.repeated.now (split_words words.now)) }
{
    if !fits(command, words) {
        return None;
    }
    Some(Line {
        opcode: command.opcode,
        slots: Slots {
            first,
            due: command.places,
            repeated: command.repeated,
            words,
        },
    })
}

/// Whether something is due at the word of the command itself.
fn is_at_word(command: Known) -> bool
    ensures { result ≡ is_at_word command.places.now }
{
    matches!(command.places, [Place::Literals, ..])
}

/// `r = WORDS`, the first of which is the command.
fn assignment<'a>(r: &'a [u8], words: &'a [u8]) -> Option<Line<'a>>
    ensures { (command : Word) (rest : ListOf Word) → split_words words.now ≡ command ∷ rest → option_map line_of result ≡ assignment_of r.now command rest }
{
    let (word, behind) = first_word(words)?;
    let Some(command) = assigning(word) else {
        return None;
    };
    let target = Slot {
        place: Place::Fresh,
        word: r,
    };
    let due = if is_at_word(command) { words } else { behind };
    filled(Some(target), command, due)
}

/// `COMMAND WORDS`
fn statement<'a>(command: &[u8], words: &'a [u8]) -> Option<Line<'a>>
    ensures { option_map line_of result ≡ telling_of command.now (split_words words.now) }
{
    let Some(command) = telling(command) else {
        return None;
    };
    filled(None, command, words)
}

/// A target and, behind `=`, the words from that of the command on.
fn as_assignment(words: &[u8]) -> Option<(&[u8], &[u8])>
    ensures { MatchOption result (is_assignment (split_words words.now) ≡ false) (λ p. (command : Word) × (rest : ListOf Word) × (split_words words.now ≡ p.0.now ∷ codes "=" ∷ command ∷ rest) × (split_words p.1.now ≡ command ∷ rest)) }
{
    let (r, rest) = first_word(words)?;
    let (equals, rest) = first_word(rest)?;
    if equals == b"=".as_slice() && first_word(rest).is_some() {
        Some((r, rest))
    } else {
        None
    }
}

/// A command and its words.
fn as_command(words: &[u8]) -> (&[u8], &[u8])
    requires { 0 < length (split_words words.now) }
    ensures { split_words words.now ≡ result.0.now ∷ split_words result.1.now }
{
    match first_word(words) {
        Some(cut) => cut,
        None => unreachable!(),
    }
}

/// What a line does and its places, where it has the form of a command.
pub fn command_line<'a>(words: &'a [u8]) -> Option<Line<'a>>
    requires { 0 < length (split_words words.now) }
    ensures { option_map line_of result ≡ command_of (split_words words.now) }
{
    match as_assignment(words) {
        Some((r, rest)) => assignment(r, rest),
        None => {
            let (command, rest) = as_command(words);
            statement(command, rest)
        }
    }
}
