//! A manager, as a session sees it that builds functions of truth values.

ghost use Rattle.std.specs.Prelude.{◌≡◌};
ghost use Rattle.net_builds.specs.declared.host.HostRefusal.TheVariants as refusals;

use diagram_dumps::Listing;
use edge_bits::Memory;
use function_laws::Name;
use std::alloc::{AllocError, AllocFailed, Global};

/// Why a session was refused: want of memory, or no slot was free for a node.
#[derive(Debug, Clone, Copy, PartialEq, Eq, Drop)]
pub enum HostRefusal<F> {
    Memory,
    Full(F),
}

impl<F> From<Memory> for HostRefusal<F> {
    ghost from_gives = { λ _ refusal. refusal ≡ refusals.Memory };

    fn from(_: Memory) -> HostRefusal<F> {
        HostRefusal::Memory
    }
}

impl<F> From<AllocError> for HostRefusal<F> {
    ghost from_gives = { λ _ refusal. refusal ≡ refusals.Memory };

    fn from(_: AllocError) -> HostRefusal<F> {
        HostRefusal::Memory
    }
}

impl<T: Drop, F> From<AllocFailed<T>> for HostRefusal<F> {
    ghost from_gives = { λ _ refusal. refusal ≡ refusals.Memory };

    fn from(_: AllocFailed<T>) -> HostRefusal<F> {
        HostRefusal::Memory
    }
}

/// The name that was fetched, and whether it stands for what was posted.
#[derive(Debug, Clone, Copy, PartialEq, Eq, Drop)]
pub struct Taken {
    pub name: Name,
    pub posted: bool,
}

/// An answer, and its place in the history.
#[derive(Debug, Clone, Copy, PartialEq, Eq, Drop)]
pub struct Told<T> {
    pub place: u64,
    pub value: T,
}

/// A manager of functions. Its sessions hold functions under names, and each call of a session is an entry of the history. A
/// session that has made all the calls that it may make waits for ever in place of a further one.
pub trait Host {
    ghost use Rattle.std.specs.Prelude.{◌≡◌, ◌<◌, ℕ, Bool, List, Some, IfErr, IfOk, All, length};
    ghost use Rattle.edge_bits.specs.declared.limits.TheConstants.{CELLS};
    ghost use Rattle.function_laws.specs.declared.history.Entry.{Entry};
    ghost use Rattle.function_laws.specs.declared.history.Function.TheVariants.{Bdd};
    ghost use Rattle.function_laws.specs.Lists.{truth};
    ghost use Rattle.function_laws.specs.Values.{assignment_of, conjunction, constant, disjunction, if_then_else, negation, projection};
    ghost use Rattle.net_builds.specs.Asked.{ComesBack, MayMakeRows};
    ghost use Rattle.net_builds.specs.Holdings.{IsCounted};
    ghost use Rattle.net_builds.specs.Standings.{Asks, Fetches, Holds, IsHeld, IsLive, LetsGo, Lists, Makes, Posts, Sifts, Standing};

    /// Whose calls they are.
    type Session;

    /// What tells of a refused call.
    type Full: Copy;

    /// What is seen of a session.
    ghost standing: { Self.Session → Standing };

    /// The session is one of this manager, and what a host may say of it besides: each call leaves it so.
    ghost has: { Self → Self.Session → Type 0 };

    /// The entry is of a call that was refused so.
    ghost tells: { Self → Self.Full → Entry → Type 0 };

    /// How many slots there are, by which a sift goes.
    ghost limit: { Self → ℕ };

    /// Called with an output's number, from 0 on, before that output is built. It tells nothing and changes nothing.
    fn pass(&self, output: u32);

    /// A constant, under a new name.
    fn constant(
        &self,
        session: &mut Self::Session,
        value: bool,
    ) -> Result<Name, HostRefusal<Self::Full>>
        requires may { MayMakeRows has standing self.now session.old 1 }
        ensures made { IfOk result (λ name. Makes (standing session.old) (standing session.new) name (constant value)) }
        ensures back { ComesBack has standing tells self.now session.old session.new result };

    /// The projection of a variable, under a new name.
    fn projection(
        &self,
        session: &mut Self::Session,
        variable: u32,
    ) -> Result<Name, HostRefusal<Self::Full>>
        requires may { MayMakeRows has standing self.now session.old 1 }
        requires variable { variable < (standing session.old).vars }
        ensures made { IfOk result (λ name. Makes (standing session.old) (standing session.new) name (projection variable)) }
        ensures back { ComesBack has standing tells self.now session.old session.new result };

    /// The complement of a function, under a new name.
    fn complement(
        &self,
        session: &mut Self::Session,
        f: Name,
    ) -> Result<Name, HostRefusal<Self::Full>>
        requires may { MayMakeRows has standing self.now session.old 1 }
        requires held { IsHeld (standing session.old) f }
        ensures made { IfOk result (λ name. (a : ℕ → Bool) → Holds (standing session.old) f a → Makes (standing session.old) (standing session.new) name (negation a)) }
        ensures back { ComesBack has standing tells self.now session.old session.new result };

    /// The conjunction of two functions, under a new name.
    fn conjunction(
        &self,
        session: &mut Self::Session,
        f: Name,
        g: Name,
    ) -> Result<Name, HostRefusal<Self::Full>>
        requires may { MayMakeRows has standing self.now session.old 1 }
        requires first { IsHeld (standing session.old) f }
        requires second { IsHeld (standing session.old) g }
        ensures made { IfOk result (λ name. (a b : ℕ → Bool) → Holds (standing session.old) f a → Holds (standing session.old) g b → Makes (standing session.old) (standing session.new) name (conjunction a b)) }
        ensures back { ComesBack has standing tells self.now session.old session.new result };

    /// The disjunction of two functions, under a new name.
    fn disjunction(
        &self,
        session: &mut Self::Session,
        f: Name,
        g: Name,
    ) -> Result<Name, HostRefusal<Self::Full>>
        requires may { MayMakeRows has standing self.now session.old 1 }
        requires first { IsHeld (standing session.old) f }
        requires second { IsHeld (standing session.old) g }
        ensures made { IfOk result (λ name. (a b : ℕ → Bool) → Holds (standing session.old) f a → Holds (standing session.old) g b → Makes (standing session.old) (standing session.new) name (disjunction a b)) }
        ensures back { ComesBack has standing tells self.now session.old session.new result };

    /// The function that is the second where the first is 1, and elsewhere the third, under a new name.
    fn choice(
        &self,
        session: &mut Self::Session,
        f: Name,
        g: Name,
        h: Name,
    ) -> Result<Name, HostRefusal<Self::Full>>
        requires may { MayMakeRows has standing self.now session.old 1 }
        requires first { IsHeld (standing session.old) f }
        requires second { IsHeld (standing session.old) g }
        requires third { IsHeld (standing session.old) h }
        ensures made { IfOk result (λ name. (a b c : ℕ → Bool) → Holds (standing session.old) f a → Holds (standing session.old) g b → Holds (standing session.old) h c → Makes (standing session.old) (standing session.new) name (if_then_else a b c)) }
        ensures back { ComesBack has standing tells self.now session.old session.new result };

    /// Lets a name go.
    fn let_go(&self, session: &mut Self::Session, f: Name)
        requires may { MayMakeRows has standing self.now session.old 1 }
        requires held { IsLive (standing session.old) f }
        ensures own { has self.now session.new }
        ensures gone { LetsGo (standing session.old) (standing session.new) f };

    /// The value of a function, where bit i is the value of variable i.
    fn value(&self, session: &mut Self::Session, f: Name, bits: &[bool]) -> bool
        requires may { MayMakeRows has standing self.now session.old 1 }
        requires held { IsLive (standing session.old) f }
        requires long { length bits.now ≡ (standing session.old).vars }
        ensures own { has self.now session.new }
        ensures asks { Asks (standing session.old) (standing session.new) }
        ensures value { (a : List Bool) → (standing session.old).stands f ≡ Some (Bdd a) → result ≡ truth a (assignment_of bits.now) };

    /// Puts a function into a cell of the board, in place of what was there.
    fn post(&self, session: &mut Self::Session, cell: u32, f: Name) -> Told<()>
        requires may { MayMakeRows has standing self.now session.old 1 }
        requires cell { cell < CELLS }
        requires held { IsLive (standing session.old) f }
        ensures own { has self.now session.new }
        ensures posts { Posts cell (standing session.old) (standing session.new) f result.place };

    /// The function in a cell of the board under a new name, or that of another name where the cell has none. Want of memory
    /// changes nothing.
    fn fetch(
        &self,
        session: &mut Self::Session,
        cell: u32,
        other: Name,
    ) -> Result<Told<Taken>, Memory>
        requires may { MayMakeRows has standing self.now session.old 1 }
        requires cell { cell < CELLS }
        requires held { IsLive (standing session.old) other }
        ensures own { has self.now session.new }
        ensures fetches { IfOk result (λ told. Fetches cell (standing session.old) (standing session.new) other told.value.name told.value.posted told.place) }
        ensures same { IfErr result (λ _. standing session.new ≡ standing session.old) };

    /// Sifts the variables in one default block (Rudell 1993), for the functions that rows and cells hold. It changes no function, and no
    /// row. Want of memory changes nothing.
    fn sift(&self, alloc: Global, session: &mut Self::Session, variables: u32) -> Result<(), Memory>
        requires may { MayMakeRows has standing self.now session.old 1 }
        requires variables { variables ≡ (standing session.old).vars }
        ensures own { has self.now session.new }
        ensures sifts { IfOk result (λ _. (place : ℕ) × Sifts (limit self.now) (standing session.old) (standing session.new) place) }
        ensures counted { IsCounted (standing session.old) }
        ensures same { IfErr result (λ _. standing session.new ≡ standing session.old) };

    /// The listing of some functions, under the order of the variables that the entries below some place leave. It is no call
    /// of the history. Want of memory changes nothing.
    fn list(&self, session: &mut Self::Session, names: &[Name]) -> Result<Listing, Memory>
        requires may { MayMakeRows has standing self.now session.old 1 }
        requires held { All (IsLive (standing session.old)) names.now }
        ensures own { has self.now session.new }
        ensures lists { IfOk result (λ listing. Lists (standing session.old) (standing session.new) names.now listing) }
        ensures same { IfErr result (λ _. standing session.new ≡ standing session.old) };
}
