//! The registers of a section.

ghost use Rattle.std.specs.Prelude.{◌≡◌, ◌≢◌, All, ◌∷◌, ◌++◌, [], ◌<◌, ◌^◌, length, map, position, IfOk, IfErr, IfSome, MatchOption, true, false, None, Some};
ghost use Rattle.std.specs.List.{list_any, position_or_len};
ghost use Rattle.edge_bits.specs.declared.edges.Kind.{Kind as KindOf};
ghost use Rattle.function_laws.specs.Makings.{kind_made as kind_of_making};
ghost use Rattle.job_words.specs.Text.{Word, is_name, split_words};
ghost use Rattle.job_text.specs.Places.{IsFresh, Refers, is_called, kind_at, same_kind};
ghost use Rattle.job_text.specs.Grammar.{Says, kind_called, register_called, register_made, registers_after, target_of, without};
ghost use Rattle.job_text.specs.declared.job.Counts.{Counts as CountsOf};
ghost use Rattle.job_text.specs.Faults.{name_fault};
ghost use Rattle.job_text.specs.declared.faults.FaultKind.TheVariants as kinds;

use crate::faults::JobStop;
use crate::job::Register;
use edge_bits::{Kind, List};
use function_laws::Making;
use job_commands::Act;
use job_words::first_word;
use std::alloc::Global;
use std::collections::BTreeMap;
use std::marker::Model;

/// The most registers of a section, whose numbers are 32 bits.
const MOST_REGISTERS: usize = 4_294_967_295;

/// The registers in order of assignment, and by each name its register's place. Whatever the names are, one is found in as many
/// steps as the logarithm of their number. Contracts see the registers.
#[derive(Drop)]
pub struct Registers {
    items: Vec<Register>,
    places: BTreeMap<Vec<u8>, usize>,
}

impl Model for Registers {
    ghost use Rattle.std.specs.Prelude.{◌<◌, ◌^◌, vec_len, List as ListOf};
    ghost use Rattle.job_text.specs.declared.job.Register.{Register as RegisterOf};
    ghost use Rattle.job_text.specs.Names.{AreDistinct, IsIndex};

    ghost Value = { ListOf RegisterOf };

    ghost view = { λ registers. registers.items.items };

    ghost invariant = { λ registers. IsIndex registers.places registers.items.items × AreDistinct registers.items.items × (vec_len registers.items < 2 ^ 32) };
}

/// A register that was looked up: its number, and its kind.
#[derive(Clone, Copy)]
pub struct Found {
    pub number: u32,
    pub kind: Kind,
}

impl Registers {
    /// No registers.
    pub fn new(alloc: Global) -> Registers
        ensures { result ≡ [] }
    {
        Registers {
            items: Vec::new(alloc),
            places: BTreeMap::new(alloc),
        }
    }

    /// The registers, fewer than 2^32.
    pub fn as_slice(&self) -> &[Register]
        ensures items { result.now ≡ self.now }
        ensures few { length result.now < 2 ^ 32 }
    {
        self.items.as_slice()
    }

    /// Whether a register has the name, dropped or not.
    pub fn is_assigned(&self, word: &[u8]) -> bool
        ensures some { result ≡ list_any (is_called word.now) self.now }
        ensures none { result ≡ false → All (λ register. register.name ≢ word.now) self.now }
    {
        self.places.contains_key(word)
    }

    fn position_of(&self, word: &[u8]) -> Option<usize>
        ensures { result ≡ position (is_called word.now) self.now }
    {
        self.places.get(word).copied()
    }

    /// The place of the first register of this name, or their number.
    fn place_of(&self, word: &[u8]) -> usize
        ensures { result ≡ position_or_len (is_called word.now) self.now }
    {
        self.position_of(word).unwrap_or(self.as_slice().len())
    }

    /// The register of the name, where it was not dropped.
    pub fn find(&self, word: &[u8]) -> Option<Found>
        requires name { is_name word.now ≡ true }
        ensures found { IfSome result (λ found. Refers self.now word.now found.number found.kind) }
        ensures fault { MatchOption result (name_fault (register_called self.now word.now) ≡ Some kinds.Name) (λ found. (name_fault (register_called self.now word.now) ≡ None) × (kind_called self.now word.now ≡ found.kind)) }
    {
        find_at(self.as_slice(), self.place_of(word), word)
    }

    /// The registers with one more, of a name that none has. There are fewer than 2^32: for more there is no memory.
    fn with_made(self, alloc: Global, name: &[u8], kind: Kind) -> Result<Registers, JobStop>
        requires { list_any (is_called name.now) self ≡ false }
        ensures ok { IfOk result (λ after. after ≡ self ++ register_made name.now kind ∷ []) }
        ensures stop { IfErr result (λ stop. stop ≡ JobStop.Memory) }
    {
        let Registers {
            mut items,
            mut places,
        } = self;
        let place = items.len();
        if place >= MOST_REGISTERS {
            return Err(JobStop::Memory);
        }
        places.insert(Vec::from_slice(alloc, name)?, place)?;
        items.push(made(alloc, name, kind)?)?;
        Ok(Registers { items, places })
    }

    /// The registers with one more, of the kind of another.
    fn with_handed(self, alloc: Global, name: &[u8], other: u32) -> Result<Registers, JobStop>
        requires { list_any (is_called name.now) self ≡ false }
        ensures ok { IfOk result (λ after. after ≡ self ++ register_made name.now (kind_at self other) ∷ []) }
        ensures stop { IfErr result (λ stop. stop ≡ JobStop.Memory) }
    {
        let kind = kind_at(self.as_slice(), other);
        self.with_made(alloc, name, kind)
    }

    /// The registers, where that of this number is dropped.
    fn without(self, number: u32) -> Registers
        requires { (word : Word) × (kind : KindOf) × Refers self word number kind }
        ensures { (word : Word) (kind : KindOf) → Refers self word number kind → result ≡ map (without word) self }
    {
        let place = number as usize;
        let Registers { mut items, places } = self;
        if place < items.len() {
            items[place].live = false;
        }
        Registers { items, places }
    }

    /// The registers after a command of these words, which does this.
    pub fn after(self, alloc: Global, words: &[u8], act: &Act) -> Result<Registers, JobStop>
        requires { (counts : CountsOf) × Says counts self (split_words words.now) act.now }
        ensures ok { IfOk result (λ after. after ≡ registers_after self (split_words words.now)) }
        ensures stop { IfErr result (λ stop. stop ≡ JobStop.Memory) }
    {
        match act {
            Act::Makes(making) => self.with_made(alloc, first_of(words), kind_made(making)),
            Act::Copy(a) => self.with_handed(alloc, first_of(words), *a),
            Act::Fetch(_, a) => self.with_handed(alloc, first_of(words), *a),
            Act::Drop(a) => Ok(self.without(*a)),
            _ => Ok(self),
        }
    }
}

/// The kind of what is made.
fn kind_made(making: &Making<u32, List<u32>, List<(u32, u32)>>) -> Kind
    ensures { result ≡ kind_of_making making.now }
{
    match making {
        Making::Bdd(_) => Kind::Bdd,
        Making::Add(_) | Making::Exact(_) => Kind::Add,
        Making::Zdd(_) => Kind::Zdd,
    }
}

/// The register at the place of the first of its name, where it was not dropped.
fn find_at(registers: &[Register], place: usize, word: &[u8]) -> Option<Found>
    requires few { length registers.now < 2 ^ 32 }
    requires name { is_name word.now ≡ true }
    requires place { place ≡ position_or_len (is_called word.now) registers.now }
    ensures found { IfSome result (λ found. Refers registers.now word.now found.number found.kind) }
    ensures fault { MatchOption result (name_fault (register_called registers.now word.now) ≡ Some kinds.Name) (λ found. (name_fault (register_called registers.now word.now) ≡ None) × (kind_called registers.now word.now ≡ found.kind)) }
{
    let Some(register) = registers.get(place) else {
        return None;
    };
    if !register.live {
        return None;
    }
    Some(Found {
        number: place as u32,
        kind: register.kind,
    })
}

/// The kind of the register at this place, or that of a BDD where there is none.
fn kind_at_place(registers: &[Register], place: usize) -> Kind
    ensures { result ≡ kind_at registers.now place }
{
    match registers.get(place) {
        Some(register) => register.kind,
        None => Kind::Bdd,
    }
}

/// The kind of the register of this number.
pub fn kind_at(registers: &[Register], number: u32) -> Kind
    ensures { result ≡ kind_at registers.now number }
{
    kind_at_place(registers, number as usize)
}

/// Whether two kinds are one.
pub fn same_kind(one: Kind, other: Kind) -> bool
    ensures { result ≡ same_kind one other }
{
    match (one, other) {
        (Kind::Bdd, Kind::Bdd) | (Kind::Add, Kind::Add) | (Kind::Zdd, Kind::Zdd) => true,
        _ => false,
    }
}

/// The first word, or none of its bytes.
fn first_of(words: &[u8]) -> &[u8]
    ensures { result.now ≡ target_of (split_words words.now) }
{
    match first_word(words) {
        Some((word, _)) => word,
        None => &[],
    }
}

/// What an assignment to this name adds.
fn made(alloc: Global, name: &[u8], kind: Kind) -> Result<Register, JobStop>
    ensures ok { IfOk result (λ register. register ≡ register_made name.now kind) }
    ensures stop { IfErr result (λ stop. stop ≡ JobStop.Memory) }
{
    let name = List::from_vec(Vec::from_slice(alloc, name)?);
    Ok(Register {
        name,
        live: true,
        kind,
    })
}
