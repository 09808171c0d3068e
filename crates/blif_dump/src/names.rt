//! How the names of inputs, outputs and node lines are written.

ghost use Rattle.std.specs.Prelude.{◌≡◌, ◌≤◌, ◌∷◌, [], ◌++◌, ◌==◌, List as ListOf, codes, nat_eq, length, map, not, position, IfOk, OnOk};
ghost use Rattle.std.specs.Fmt.{decimal};
ghost use Rattle.std.specs.List.{ends_with, list_any, position_or_len};
ghost use Rattle.job_words.specs.Text.{Word};
ghost use Rattle.blif_dump.specs.Calls.{names_in};
ghost use Rattle.blif_dump.specs.Marks.{marks_before, marks_of, most_marks};
ghost use Rattle.blif_dump.specs.Multiplexers.{is_due};
ghost use Rattle.blif_dump.specs.Names.{by_place, called, is_odd, naming_of, node_name, place_in, prefix_for, prefix_with};
ghost use Rattle.blif_dump.specs.Tables.{ArePlaces};

use itoa::Buffer;
use std::alloc::{AllocError, Global};
use std::collections::BTreeMap;

/// A name as bytes.
pub type Name<'a> = &'a [u8];

/// Where the first byte stands that is no `_`.
fn other_at(bytes: &[u8]) -> Option<usize>
    ensures { result ≡ position (λ b. not (b == 95)) bytes.now }
{
    bytes.iter().position(|b| *b != b'_')
}

/// How many `_` there are before another byte.
fn marks_before(bytes: &[u8]) -> usize
    ensures count { result ≡ marks_before bytes.now }
    ensures within { result ≤ length bytes.now }
{
    other_at(bytes).unwrap_or(bytes.len())
}

/// How many `_` a prefix needs so that it does not begin this name.
fn marks_of(name: &[u8]) -> usize
    ensures { result ≡ marks_of name.now }
{
    match name.split_first() {
        Some((first, rest)) if *first == b'n' => 1 + marks_before(rest),
        _ => 0,
    }
}

/// How many it needs so that it begins none of them, where it is to have this many at least.
fn most_marks(names: &[Name<'_>], least: usize) -> usize
    ensures { result ≡ most_marks least (names_in names.now) }
{
    let mut most = least;
    for name in names {
        most = most.max(marks_of(name));
    }
    most
}

/// `n` and so many `_`.
fn prefix_with(alloc: Global, count: usize) -> Result<Vec<u8>, AllocError>
    ensures { IfOk result (λ front. front.items ≡ prefix_with count) }
{
    let mut front = Vec::from_slice(alloc, b"n")?;
    let marks = vec![in alloc; b'_'; count]?;
    front.extend_from_slice(&marks)?;
    Ok(front)
}

/// The shortest prefix that begins no name.
fn prefix_for(
    alloc: Global,
    inputs: &[Name<'_>],
    outputs: &[Name<'_>],
) -> Result<Vec<u8>, AllocError>
    ensures { IfOk result (λ front. front.items ≡ prefix_for (names_in inputs.now ++ names_in outputs.now)) }
{
    let least = most_marks(inputs, 0);
    let most = most_marks(outputs, least);
    let front = prefix_with(alloc, most)?;
    Ok(front)
}

fn has_comment(name: &[u8]) -> bool
    ensures { result ≡ list_any (λ b. b == 35) name.now }
{
    name.iter().any(|b| *b == b'#')
}

fn goes_on(name: &[u8]) -> bool
    ensures { result ≡ ends_with nat_eq name.now (92 ∷ []) }
{
    name.ends_with([b'\\'].as_slice())
}

/// Whether a name would not be read again as it stands.
fn is_odd(name: &[u8]) -> bool
    ensures { result ≡ is_odd name.now }
{
    has_comment(name) || goes_on(name)
}

/// Notes the place of a name, unless it stood before.
fn note<'a>(
    table: &mut BTreeMap<Name<'a>, usize>,
    name: Name<'a>,
    place: usize,
) -> Result<(), AllocError>
    ensures { OnOk result ((names : ListOf Word) → length names ≡ place → ArePlaces table.old names → ArePlaces table.new (names ++ name.now ∷ [])) }
{
    if table.contains_key(&name) {
        return Ok(());
    }
    table.insert(name, place)?;
    Ok(())
}

/// The first place of each name.
fn table_of<'a>(alloc: Global, names: &[Name<'a>]) -> Result<BTreeMap<Name<'a>, usize>, AllocError>
    ensures { IfOk result (λ table. ArePlaces table (names_in names.now)) }
{
    let mut table = BTreeMap::new(alloc);
    for (place, name) in names.iter().enumerate() {
        note(&mut table, *name, place)?;
    }
    Ok(table)
}

/// Adds a number.
pub fn put_number(text: &mut Vec<u8>, number: usize) -> Result<(), AllocError>
    ensures { OnOk result (text.new.items ≡ text.old.items ++ decimal number) }
{
    let mut buffer = Buffer::new();
    text.extend_from_slice(buffer.format(number).as_bytes())
}

/// Adds a letter and a number.
fn put_place(text: &mut Vec<u8>, letter: u8, place: usize) -> Result<(), AllocError>
    ensures { OnOk result (text.new.items ≡ text.old.items ++ letter ∷ decimal place) }
{
    text.push(letter)?;
    put_number(text, place)
}

/// How names are written: the prefix, and the first place of each name among the inputs and among the outputs.
#[derive(Drop)]
pub struct Names<'a> {
    front: Vec<u8>,
    inputs: BTreeMap<Name<'a>, usize>,
    outputs: BTreeMap<Name<'a>, usize>,
}

impl<'a> Names<'a> {
    ghost use Rattle.blif_dump.specs.Naming.{naming_in};

    /// The names of these inputs and outputs.
    pub fn new(
        alloc: Global,
        inputs: &[Name<'a>],
        outputs: &[Name<'a>],
    ) -> Result<Names<'a>, AllocError>
        ensures { IfOk result (λ names. naming_in names ≡ naming_of (names_in inputs.now) (names_in outputs.now)) }
    {
        let front = prefix_for(alloc, inputs, outputs)?;
        let inputs = table_of(alloc, inputs)?;
        let outputs = table_of(alloc, outputs)?;
        Ok(Names {
            front,
            inputs,
            outputs,
        })
    }

    /// The prefix of the names of node lines.
    pub fn front(&self) -> &[u8]
        ensures { result.now ≡ (naming_in self.now).front }
    {
        self.front.as_slice()
    }

    /// The first place of a name among the inputs.
    fn input_place(&self, name: Name<'a>) -> Option<usize>
        ensures { result ≡ (naming_in self.now).input_place name.now }
    {
        self.inputs.get(&name).copied()
    }

    /// The first place of a name among the outputs.
    fn output_place(&self, name: Name<'a>) -> Option<usize>
        ensures { result ≡ (naming_in self.now).output_place name.now }
    {
        self.outputs.get(&name).copied()
    }

    /// Whether an output is defined at this place: its first, unless it is an input.
    pub fn is_due(&self, name: Name<'a>, place: usize) -> bool
        ensures { result ≡ is_due ((naming_in self.now).input_place name.now) ((naming_in self.now).output_place name.now) place }
    {
        match (self.input_place(name), self.output_place(name)) {
            (None, Some(first)) => first == place,
            _ => false,
        }
    }

    /// Adds an odd name as it is written.
    fn put_by_place(&self, text: &mut Vec<u8>, name: Name<'a>) -> Result<(), AllocError>
        ensures { OnOk result (text.new.items ≡ text.old.items ++ by_place (naming_in self.now).front ((naming_in self.now).input_place name.now) ((naming_in self.now).output_place name.now)) }
    {
        text.extend_from_slice(self.front())?;
        match (self.input_place(name), self.output_place(name)) {
            (Some(place), _) => put_place(text, b'i', place),
            (None, Some(place)) => put_place(text, b'o', place),
            (None, None) => Ok(()),
        }
    }

    /// Adds a name as it is written.
    pub fn put_name(&self, text: &mut Vec<u8>, name: Name<'a>) -> Result<(), AllocError>
        ensures { OnOk result (text.new.items ≡ text.old.items ++ called (naming_in self.now) name.now) }
    {
        if is_odd(name) {
            self.put_by_place(text, name)
        } else {
            text.extend_from_slice(name)
        }
    }

    /// Adds a blank and a name as it is written.
    pub fn put_word(&self, text: &mut Vec<u8>, name: Name<'a>) -> Result<(), AllocError>
        ensures { OnOk result (text.new.items ≡ text.old.items ++ 32 ∷ called (naming_in self.now) name.now) }
    {
        text.push(b' ')?;
        self.put_name(text, name)
    }

    /// Adds a blank and the name of the signal of a line.
    pub fn put_signal(&self, text: &mut Vec<u8>, index: usize) -> Result<(), AllocError>
        ensures { OnOk result (text.new.items ≡ text.old.items ++ 32 ∷ node_name (naming_in self.now).front index) }
    {
        text.push(b' ')?;
        text.extend_from_slice(self.front())?;
        put_number(text, index)
    }
}
