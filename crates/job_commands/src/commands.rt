//! The commands: their words, what is due behind them, and what they do with it.

ghost use Rattle.std.specs.Prelude.{◌≡◌, IfOk, drop, false, map, option_map, pos, slice_index, slice_index_or};
ghost use Rattle.std.specs.List.{zip};
ghost use Rattle.function_laws.specs.declared.making.BddMaking.TheVariants as bdds;
ghost use Rattle.function_laws.specs.declared.making.Making.TheVariants as makings;
ghost use Rattle.job_commands.specs.Commands.{act_of, assigning, form_in, kind_made, kind_of, made_of, telling};
ghost use Rattle.job_commands.specs.Slots.{form_of};

use crate::acts::Act;
use crate::operands::Operands;
use edge_bits::{Kind, List};
use function_laws::{AddMaking, BddMaking, ExactMaking, Making, Order, ZddMaking};
use std::alloc::{AllocError, Global};

/// What a command does, before it is told with what.
#[derive(Clone, Copy)]
pub enum Opcode {
    /// `r = COMMAND ..`: it makes a function.
    Makes(Making<(), (), ()>),
    /// `r = copy A`
    Copy,
    /// `r = fetch K A`
    Fetch,
    /// `post K A`
    Post,
    /// `drop A`
    Drop,
    /// `same A B`
    Same,
    /// `leq A B`
    Leq,
    /// `eval A bits`
    Eval,
    /// `sweep`
    Sweep,
    /// `swap L`, `eswap L`
    Swap(Order),
    /// `sift`, `esift`
    Sift(Order),
}

/// What is due at a place of a command.
#[derive(Clone, Copy)]
pub enum Place {
    /// A name that was not assigned in this section.
    Fresh,
    /// A register of this kind that was assigned and not dropped.
    Held(Kind),
    /// A register of any kind that was assigned and not dropped.
    Any,
    /// A register of the kind of the one to its left.
    Alike,
    /// The number of a variable.
    Variable,
    /// The number of a variable that no word to its left names.
    NewVariable,
    /// The number of an element.
    Element,
    /// The number of a level of this order, from 0, that has a next one.
    Level(Order),
    /// The number of a cell, from 0 to 255.
    Cell,
    /// A whole number from -2^46 to 2^46 - 1.
    Value,
    /// `0` or `1`.
    Bit,
    /// As many bits as are due for the register to its left.
    Bits,
    /// The word of the command itself, where there must be an element for each literal: two for each variable.
    Literals,
}

/// A command: its word, what it does, and what is due behind the word, first the places and then those that repeat any number of times.
/// Where the first place is `Literals`, the word itself stands there.
#[derive(Clone, Copy)]
pub struct Known {
    pub word: &'static [u8],
    pub opcode: Opcode,
    pub places: &'static [Place],
    pub repeated: &'static [Place],
}

/// A register that is a BDD.
const BDD: Place = Place::Held(Kind::Bdd);

/// A register that is an ADD.
const ADD: Place = Place::Held(Kind::Add);

/// A register that is a family.
const ZDD: Place = Place::Held(Kind::Zdd);

/// The commands that assign, by the word behind `r =`.
const ASSIGNING: [Known; 43] = [
    Known {
        word: b"true",
        opcode: Opcode::Makes(Making::Bdd(BddMaking::One)),
        places: &[],
        repeated: &[],
    },
    Known {
        word: b"false",
        opcode: Opcode::Makes(Making::Bdd(BddMaking::Zero)),
        places: &[],
        repeated: &[],
    },
    Known {
        word: b"var",
        opcode: Opcode::Makes(Making::Bdd(BddMaking::Var(0))),
        places: &[Place::Variable],
        repeated: &[],
    },
    Known {
        word: b"not",
        opcode: Opcode::Makes(Making::Bdd(BddMaking::Not(()))),
        places: &[BDD],
        repeated: &[],
    },
    Known {
        word: b"and",
        opcode: Opcode::Makes(Making::Bdd(BddMaking::And((), ()))),
        places: &[BDD, BDD],
        repeated: &[],
    },
    Known {
        word: b"or",
        opcode: Opcode::Makes(Making::Bdd(BddMaking::Or((), ()))),
        places: &[BDD, BDD],
        repeated: &[],
    },
    Known {
        word: b"xor",
        opcode: Opcode::Makes(Making::Bdd(BddMaking::Xor((), ()))),
        places: &[BDD, BDD],
        repeated: &[],
    },
    Known {
        word: b"ite",
        opcode: Opcode::Makes(Making::Bdd(BddMaking::Ite((), (), ()))),
        places: &[BDD, BDD, BDD],
        repeated: &[],
    },
    Known {
        word: b"cofactor",
        opcode: Opcode::Makes(Making::Bdd(BddMaking::Cofactor((), 0, false))),
        places: &[BDD, Place::Variable, Place::Bit],
        repeated: &[],
    },
    Known {
        word: b"exists",
        opcode: Opcode::Makes(Making::Bdd(BddMaking::Exists((), ()))),
        places: &[BDD],
        repeated: &[Place::Variable],
    },
    Known {
        word: b"forall",
        opcode: Opcode::Makes(Making::Bdd(BddMaking::Forall((), ()))),
        places: &[BDD],
        repeated: &[Place::Variable],
    },
    Known {
        word: b"andexists",
        opcode: Opcode::Makes(Making::Bdd(BddMaking::AndExists((), (), ()))),
        places: &[BDD, BDD],
        repeated: &[Place::Variable],
    },
    Known {
        word: b"compose",
        opcode: Opcode::Makes(Making::Bdd(BddMaking::Compose((), 0, ()))),
        places: &[BDD, Place::Variable, BDD],
        repeated: &[],
    },
    Known {
        word: b"vcompose",
        opcode: Opcode::Makes(Making::Bdd(BddMaking::VectorCompose((), ()))),
        places: &[BDD, Place::NewVariable, BDD],
        repeated: &[Place::NewVariable, BDD],
    },
    Known {
        word: b"restrict",
        opcode: Opcode::Makes(Making::Bdd(BddMaking::Restrict((), ()))),
        places: &[BDD, BDD],
        repeated: &[],
    },
    Known {
        word: b"support",
        opcode: Opcode::Makes(Making::Bdd(BddMaking::Support(()))),
        places: &[BDD],
        repeated: &[],
    },
    Known {
        word: b"num",
        opcode: Opcode::Makes(Making::Add(AddMaking::Constant(0))),
        places: &[Place::Value],
        repeated: &[],
    },
    Known {
        word: b"ofbdd",
        opcode: Opcode::Makes(Making::Add(AddMaking::FromBdd(()))),
        places: &[BDD],
        repeated: &[],
    },
    Known {
        word: b"plus",
        opcode: Opcode::Makes(Making::Exact(ExactMaking::Plus((), ()))),
        places: &[ADD, ADD],
        repeated: &[],
    },
    Known {
        word: b"minus",
        opcode: Opcode::Makes(Making::Exact(ExactMaking::Minus((), ()))),
        places: &[ADD, ADD],
        repeated: &[],
    },
    Known {
        word: b"times",
        opcode: Opcode::Makes(Making::Exact(ExactMaking::Times((), ()))),
        places: &[ADD, ADD],
        repeated: &[],
    },
    Known {
        word: b"min",
        opcode: Opcode::Makes(Making::Add(AddMaking::Min((), ()))),
        places: &[ADD, ADD],
        repeated: &[],
    },
    Known {
        word: b"max",
        opcode: Opcode::Makes(Making::Add(AddMaking::Max((), ()))),
        places: &[ADD, ADD],
        repeated: &[],
    },
    Known {
        word: b"threshold",
        opcode: Opcode::Makes(Making::Add(AddMaking::Threshold((), ()))),
        places: &[ADD, ADD],
        repeated: &[],
    },
    Known {
        word: b"addite",
        opcode: Opcode::Makes(Making::Add(AddMaking::AddIte((), (), ()))),
        places: &[BDD, ADD, ADD],
        repeated: &[],
    },
    Known {
        word: b"sum",
        opcode: Opcode::Makes(Making::Exact(ExactMaking::SumOver((), 0))),
        places: &[ADD, Place::Variable],
        repeated: &[],
    },
    Known {
        word: b"atleast",
        opcode: Opcode::Makes(Making::Bdd(BddMaking::AtLeast((), 0))),
        places: &[ADD, Place::Value],
        repeated: &[],
    },
    Known {
        word: b"pattern",
        opcode: Opcode::Makes(Making::Bdd(BddMaking::Pattern(()))),
        places: &[ADD],
        repeated: &[],
    },
    Known {
        word: b"empty",
        opcode: Opcode::Makes(Making::Zdd(ZddMaking::Empty)),
        places: &[],
        repeated: &[],
    },
    Known {
        word: b"base",
        opcode: Opcode::Makes(Making::Zdd(ZddMaking::Base)),
        places: &[],
        repeated: &[],
    },
    Known {
        word: b"single",
        opcode: Opcode::Makes(Making::Zdd(ZddMaking::Single(0))),
        places: &[Place::Element],
        repeated: &[],
    },
    Known {
        word: b"union",
        opcode: Opcode::Makes(Making::Zdd(ZddMaking::Union((), ()))),
        places: &[ZDD, ZDD],
        repeated: &[],
    },
    Known {
        word: b"meet",
        opcode: Opcode::Makes(Making::Zdd(ZddMaking::Meet((), ()))),
        places: &[ZDD, ZDD],
        repeated: &[],
    },
    Known {
        word: b"diff",
        opcode: Opcode::Makes(Making::Zdd(ZddMaking::Diff((), ()))),
        places: &[ZDD, ZDD],
        repeated: &[],
    },
    Known {
        word: b"on",
        opcode: Opcode::Makes(Making::Zdd(ZddMaking::Subset1((), 0))),
        places: &[ZDD, Place::Element],
        repeated: &[],
    },
    Known {
        word: b"off",
        opcode: Opcode::Makes(Making::Zdd(ZddMaking::Subset0((), 0))),
        places: &[ZDD, Place::Element],
        repeated: &[],
    },
    Known {
        word: b"flip",
        opcode: Opcode::Makes(Making::Zdd(ZddMaking::Change((), 0))),
        places: &[ZDD, Place::Element],
        repeated: &[],
    },
    Known {
        word: b"product",
        opcode: Opcode::Makes(Making::Zdd(ZddMaking::Product((), ()))),
        places: &[ZDD, ZDD],
        repeated: &[],
    },
    Known {
        word: b"quotient",
        opcode: Opcode::Makes(Making::Zdd(ZddMaking::Quotient((), ()))),
        places: &[ZDD, ZDD],
        repeated: &[],
    },
    Known {
        word: b"isop",
        opcode: Opcode::Makes(Making::Zdd(ZddMaking::Isop((), ()))),
        places: &[Place::Literals, BDD, BDD],
        repeated: &[],
    },
    Known {
        word: b"coverof",
        opcode: Opcode::Makes(Making::Bdd(BddMaking::CoverOf(()))),
        places: &[Place::Literals, ZDD],
        repeated: &[],
    },
    Known {
        word: b"copy",
        opcode: Opcode::Copy,
        places: &[Place::Any],
        repeated: &[],
    },
    Known {
        word: b"fetch",
        opcode: Opcode::Fetch,
        places: &[Place::Cell, Place::Any],
        repeated: &[],
    },
];

/// The other commands, by their first word.
const TELLING: [Known; 10] = [
    Known {
        word: b"post",
        opcode: Opcode::Post,
        places: &[Place::Cell, Place::Any],
        repeated: &[],
    },
    Known {
        word: b"drop",
        opcode: Opcode::Drop,
        places: &[Place::Any],
        repeated: &[],
    },
    Known {
        word: b"same",
        opcode: Opcode::Same,
        places: &[Place::Any, Place::Alike],
        repeated: &[],
    },
    Known {
        word: b"leq",
        opcode: Opcode::Leq,
        places: &[BDD, BDD],
        repeated: &[],
    },
    Known {
        word: b"eval",
        opcode: Opcode::Eval,
        places: &[Place::Any, Place::Bits],
        repeated: &[],
    },
    Known {
        word: b"sweep",
        opcode: Opcode::Sweep,
        places: &[],
        repeated: &[],
    },
    Known {
        word: b"swap",
        opcode: Opcode::Swap(Order::Variables),
        places: &[Place::Level(Order::Variables)],
        repeated: &[],
    },
    Known {
        word: b"eswap",
        opcode: Opcode::Swap(Order::Elements),
        places: &[Place::Level(Order::Elements)],
        repeated: &[],
    },
    Known {
        word: b"sift",
        opcode: Opcode::Sift(Order::Variables),
        places: &[],
        repeated: &[],
    },
    Known {
        word: b"esift",
        opcode: Opcode::Sift(Order::Elements),
        places: &[],
        repeated: &[],
    },
];

/// The command of this word.
fn find_command(commands: &[Known], word: &[u8]) -> Option<Known>
    ensures { option_map form_of result ≡ form_in (map form_of commands.now) word.now }
{
    for command in commands {
        if command.word == word {
            return Some(*command);
        }
    }
    None
}

/// The command of the word behind `r =`.
pub fn assigning(word: &[u8]) -> Option<Known>
    ensures { option_map form_of result ≡ form_in assigning word.now }
{
    find_command(&ASSIGNING, word)
}

/// The command of a first word.
pub fn telling(word: &[u8]) -> Option<Known>
    ensures { option_map form_of result ≡ form_in telling word.now }
{
    find_command(&TELLING, word)
}

impl Operands {
    /// The register of this place among them.
    fn register(&self, place: usize) -> u32
        ensures { result ≡ slice_index self.now.registers place }
    {
        number_at(self.registers.as_slice(), place)
    }

    /// The variables, which are taken out.
    fn take_variables(&mut self, alloc: Global) -> List<u32>
        ensures { result ≡ self.old.variables }
    {
        std::mem::replace(&mut self.variables, List::new(alloc))
    }

    /// The bits, which are taken out.
    fn take_bits(&mut self, alloc: Global) -> List<bool>
        ensures { result ≡ self.old.bits }
    {
        std::mem::replace(&mut self.bits, List::new(alloc))
    }

    /// What an operation does with them.
    pub fn act(mut self, alloc: Global, opcode: Opcode) -> Result<Act, AllocError>
        ensures { IfOk result (λ act. act ≡ act_of opcode self) }
    {
        self.take_act(alloc, opcode)
    }

    /// The same, with the lists taken out.
    fn take_act(&mut self, alloc: Global, opcode: Opcode) -> Result<Act, AllocError>
        ensures { IfOk result (λ act. act ≡ act_of opcode self.old) }
    {
        let a = self.register(0);
        let b = self.register(1);
        let k = cell_at(self.cells.as_slice(), 0);
        let level = number_at(self.levels.as_slice(), 0);
        match opcode {
            Opcode::Makes(making) => Ok(Act::Makes(self.making(alloc, making)?)),
            Opcode::Copy => Ok(Act::Copy(a)),
            Opcode::Fetch => Ok(Act::Fetch(k, a)),
            Opcode::Post => Ok(Act::Post(k, a)),
            Opcode::Drop => Ok(Act::Drop(a)),
            Opcode::Same => Ok(Act::Same(a, b)),
            Opcode::Leq => Ok(Act::Leq(a, b)),
            Opcode::Eval => Ok(Act::Eval(a, self.take_bits(alloc))),
            Opcode::Sweep => Ok(Act::Sweep),
            Opcode::Swap(order) => Ok(Act::Swap(order, level)),
            Opcode::Sift(order) => Ok(Act::Sift(order)),
        }
    }

    /// What makes a function of them.
    fn making(
        &mut self,
        alloc: Global,
        making: Making<(), (), ()>,
    ) -> Result<Making<u32, List<u32>, List<(u32, u32)>>, AllocError>
        ensures { IfOk result (λ made. made ≡ made_of making self.old) }
    {
        Ok(match making {
            Making::Bdd(making) => Making::Bdd(self.bdd_making(alloc, making)?),
            Making::Add(making) => Making::Add(self.add_making(making)),
            Making::Exact(making) => Making::Exact(self.exact_making(making)),
            Making::Zdd(making) => Making::Zdd(self.zdd_making(making)),
        })
    }

    /// What makes a BDD of them.
    fn bdd_making(
        &mut self,
        alloc: Global,
        making: BddMaking<(), (), ()>,
    ) -> Result<BddMaking<u32, List<u32>, List<(u32, u32)>>, AllocError>
        ensures { IfOk result (λ made. makings.Bdd made ≡ made_of (makings.Bdd making) self.old) }
    {
        let a = self.register(0);
        let b = self.register(1);
        let c = self.register(2);
        let v = number_at(self.variables.as_slice(), 0);
        let bit = bit_at(self.bits.as_slice(), 0);
        let w = value_at(self.values.as_slice(), 0);
        Ok(match making {
            BddMaking::One => BddMaking::One,
            BddMaking::Zero => BddMaking::Zero,
            BddMaking::Var(_) => BddMaking::Var(v),
            BddMaking::Not(_) => BddMaking::Not(a),
            BddMaking::And(_, _) => BddMaking::And(a, b),
            BddMaking::Or(_, _) => BddMaking::Or(a, b),
            BddMaking::Xor(_, _) => BddMaking::Xor(a, b),
            BddMaking::Ite(_, _, _) => BddMaking::Ite(a, b, c),
            BddMaking::Cofactor(_, _, _) => BddMaking::Cofactor(a, v, bit),
            BddMaking::Exists(_, _) => BddMaking::Exists(a, self.take_variables(alloc)),
            BddMaking::Forall(_, _) => BddMaking::Forall(a, self.take_variables(alloc)),
            BddMaking::AndExists(_, _, _) => BddMaking::AndExists(a, b, self.take_variables(alloc)),
            BddMaking::Compose(_, _, _) => BddMaking::Compose(a, v, b),
            BddMaking::VectorCompose(_, _) => vector_compose(
                alloc,
                &self.registers,
                &self.variables,
            )?,
            BddMaking::Restrict(_, _) => BddMaking::Restrict(a, b),
            BddMaking::Support(_) => BddMaking::Support(a),
            BddMaking::AtLeast(_, _) => BddMaking::AtLeast(a, w),
            BddMaking::Pattern(_) => BddMaking::Pattern(a),
            BddMaking::CoverOf(_) => BddMaking::CoverOf(a),
        })
    }

    /// What makes an ADD of them, of values in range.
    fn add_making(&self, making: AddMaking<()>) -> AddMaking<u32>
        ensures { makings.Add result ≡ made_of (makings.Add making) self.now }
    {
        let a = self.register(0);
        let b = self.register(1);
        let c = self.register(2);
        let w = value_at(self.values.as_slice(), 0);
        match making {
            AddMaking::Constant(_) => AddMaking::Constant(w),
            AddMaking::FromBdd(_) => AddMaking::FromBdd(a),
            AddMaking::Min(_, _) => AddMaking::Min(a, b),
            AddMaking::Max(_, _) => AddMaking::Max(a, b),
            AddMaking::Threshold(_, _) => AddMaking::Threshold(a, b),
            AddMaking::AddIte(_, _, _) => AddMaking::AddIte(a, b, c),
        }
    }

    /// What makes an ADD of them, whose values may be out of range.
    fn exact_making(&self, making: ExactMaking<()>) -> ExactMaking<u32>
        ensures { makings.Exact result ≡ made_of (makings.Exact making) self.now }
    {
        let a = self.register(0);
        let b = self.register(1);
        let v = number_at(self.variables.as_slice(), 0);
        match making {
            ExactMaking::Plus(_, _) => ExactMaking::Plus(a, b),
            ExactMaking::Minus(_, _) => ExactMaking::Minus(a, b),
            ExactMaking::Times(_, _) => ExactMaking::Times(a, b),
            ExactMaking::SumOver(_, _) => ExactMaking::SumOver(a, v),
        }
    }

    /// What makes a ZDD of them.
    fn zdd_making(&self, making: ZddMaking<()>) -> ZddMaking<u32>
        ensures { makings.Zdd result ≡ made_of (makings.Zdd making) self.now }
    {
        let a = self.register(0);
        let b = self.register(1);
        let e = number_at(self.elements.as_slice(), 0);
        match making {
            ZddMaking::Empty => ZddMaking::Empty,
            ZddMaking::Base => ZddMaking::Base,
            ZddMaking::Single(_) => ZddMaking::Single(e),
            ZddMaking::Union(_, _) => ZddMaking::Union(a, b),
            ZddMaking::Meet(_, _) => ZddMaking::Meet(a, b),
            ZddMaking::Diff(_, _) => ZddMaking::Diff(a, b),
            ZddMaking::Subset1(_, _) => ZddMaking::Subset1(a, e),
            ZddMaking::Subset0(_, _) => ZddMaking::Subset0(a, e),
            ZddMaking::Change(_, _) => ZddMaking::Change(a, e),
            ZddMaking::Product(_, _) => ZddMaking::Product(a, b),
            ZddMaking::Quotient(_, _) => ZddMaking::Quotient(a, b),
            ZddMaking::Isop(_, _) => ZddMaking::Isop(a, b),
        }
    }
}

/// `r = vcompose A V B V B ..`: A is the first register, and the others are put for the variables in order.
fn vector_compose(
    alloc: Global,
    registers: &List<u32>,
    variables: &List<u32>,
) -> Result<BddMaking<u32, List<u32>, List<(u32, u32)>>, AllocError>
    ensures { IfOk result (λ making. making ≡ bdds.VectorCompose (slice_index registers.now 0) (zip variables.now (drop 1 registers.now))) }
{
    let a = number_at(registers.as_slice(), 0);
    let others = behind_first(registers.as_slice());
    let pairs = paired(alloc, variables.as_slice(), others)?;
    Ok(BddMaking::VectorCompose(a, pairs))
}

/// The numbers behind the first.
fn behind_first(numbers: &[u32]) -> &[u32]
    ensures { result.now ≡ drop 1 numbers.now }
{
    match numbers {
        [_, rest @ ..] => rest,
        [] => numbers,
    }
}

/// Each variable with the register at its place, as far as there are both.
fn paired(
    alloc: Global,
    variables: &[u32],
    registers: &[u32],
) -> Result<List<(u32, u32)>, AllocError>
    ensures { IfOk result (λ pairs. pairs ≡ zip variables.now registers.now) }
{
    let mut pairs = List::new(alloc);
    for (variable, register) in variables.iter().zip(registers) {
        pairs.push((*variable, *register))?;
    }
    Ok(pairs)
}

/// The number at the place, and 0 where there is none.
fn number_at(numbers: &[u32], place: usize) -> u32
    ensures { result ≡ slice_index numbers.now place }
{
    numbers.get(place).copied().unwrap_or(0)
}

/// The cell at the place, and 0 where there is none.
fn cell_at(cells: &[u8], place: usize) -> u8
    ensures { result ≡ slice_index cells.now place }
{
    cells.get(place).copied().unwrap_or(0)
}

/// The value at the place, and 0 where there is none.
fn value_at(values: &[i64], place: usize) -> i64
    ensures { result ≡ slice_index_or values.now place (pos 0) }
{
    values.get(place).copied().unwrap_or(0)
}

/// The bit at the place, and 0 where there is none.
fn bit_at(bits: &[bool], place: usize) -> bool
    ensures { result ≡ slice_index_or bits.now place false }
{
    bits.get(place).copied().unwrap_or(false)
}
