//! The words of a command against what they may name.

ghost use Rattle.std.specs.Prelude.{◌≡◌, ◌<◌, ◌≤◌, ◌^◌, true, length, IfOk, IfErr, OnOk, None, Some, if◌then◌else◌, List as ListOf};
ghost use Rattle.std.specs.List.{list_all};
ghost use Rattle.edge_bits.specs.declared.limits.TheConstants.{MOST_ELEMENTS, MOST_VARIABLES};
ghost use Rattle.job_words.specs.Text.{IsNumber, is_integer, is_name, is_number, is_bit, is_bits, split_words};
ghost use Rattle.job_commands.specs.Commands.{no_operands};
ghost use Rattle.job_text.specs.Places.{AllFit, Refers, bits_for, levels_of, misfit, with_operand, with_operands};
ghost use Rattle.job_text.specs.Grammar.{Says, kind_called, register_called};
ghost use Rattle.job_text.specs.Faults.{below_fault, name_fault, word_fault};
ghost use Rattle.job_commands.specs.Commands.{has_form};
ghost use Rattle.job_text.specs.declared.faults.FaultKind.{FaultKind as FaultOf};
ghost use Rattle.job_text.specs.declared.faults.FaultKind.TheVariants as kinds;
ghost use Rattle.job_text.specs.Drafts.{IsOperand, AreOperands, SlotStop, SlotsStop, CommandStop, left_by};
ghost use Rattle.job_commands.specs.Slots.{slot_of, slots_of};
ghost use Rattle.job_commands.specs.declared.commands.Place.TheVariants as places;
ghost use Rattle.job_text.specs.declared.operands.Operand.{Operand as OperandOf};

use crate::faults::{FaultKind, JobStop};
use crate::job::Counts;
use crate::operands::{Operand, add_operand, names};
use crate::registers::{Found, Registers, kind_at, same_kind};
use edge_bits::{CELLS, Kind, List};
use function_laws::Order;
use job_commands::{Act, Operands, Place, Slot, Slots, all_have_form, command_line};
use job_words::{bits_of, integer_value, number_value};
use std::alloc::Global;

/// What the commands of a section may name.
#[derive(Drop)]
pub struct Scope {
    /// The numbers of variables and elements.
    pub counts: Counts,
    /// The registers in order of assignment.
    pub registers: Registers,
}

impl Counts {
    /// How many bits a diagram of the kind is evaluated at.
    fn bits_for(&self, kind: Kind) -> u32
        ensures { result ≡ bits_for self.now kind }
    {
        match kind {
            Kind::Bdd | Kind::Add => self.vars,
            Kind::Zdd => self.elements,
        }
    }

    /// How many levels the order has.
    fn levels_of(&self, order: Order) -> u32
        ensures { result ≡ levels_of self.now order }
    {
        match order {
            Order::Variables => self.vars,
            Order::Elements => self.elements,
        }
    }
}

/// The fault, unless all is well.
fn unless(well: bool, fault: FaultKind) -> Option<FaultKind>
    ensures { result ≡ (if well then None else Some fault) }
{
    if well { None } else { Some(fault) }
}

/// The number that a word is, where it is below another.
fn number_below(bound: u32, word: &[u8]) -> Result<u32, JobStop>
    requires number { is_number word.now ≡ true }
    requires few { bound < 4000000000 }
    ensures ok { IfOk result (λ number. IsNumber word.now number × (number < bound)) }
    ensures stop { IfErr result (λ stop. (stop ≡ JobStop.Fault kinds.Range) × (below_fault bound word.now ≡ Some kinds.Range)) }
{
    let number = number_value(word);
    if number < bound {
        Ok(number)
    } else {
        Err(JobStop::Fault(FaultKind::Range))
    }
}

impl Scope {
    /// A target.
    fn target(&self, word: &[u8]) -> Result<Operand, JobStop>
        requires { is_name word.now ≡ true }
        ensures ok { IfOk result (λ operand. IsOperand self.now.counts self.now.registers (places.Fresh, word.now) operand) }
        ensures stop { IfErr result (λ stop. SlotStop self.now.counts self.now.registers (places.Fresh, word.now) stop) }
    {
        if self.registers.is_assigned(word) {
            return Err(JobStop::Fault(FaultKind::Again));
        }
        Ok(Operand::Target)
    }

    /// The register of this name.
    fn find(&self, word: &[u8]) -> Result<Found, JobStop>
        requires name { is_name word.now ≡ true }
        ensures found { IfOk result (λ found. Refers self.now.registers word.now found.number found.kind) }
        ensures called { IfOk result (λ found. (name_fault (register_called self.now.registers word.now) ≡ None) × (kind_called self.now.registers word.now ≡ found.kind)) }
        ensures stop { IfErr result (λ stop. (stop ≡ JobStop.Fault kinds.Name) × (name_fault (register_called self.now.registers word.now) ≡ Some kinds.Name)) }
    {
        match self.registers.find(word) {
            Some(found) => Ok(found),
            None => Err(JobStop::Fault(FaultKind::Name)),
        }
    }

    /// A register of this kind.
    fn register(&self, kind: Kind, word: &[u8]) -> Result<Operand, JobStop>
        requires name { is_name word.now ≡ true }
        ensures ok { IfOk result (λ operand. IsOperand self.now.counts self.now.registers (places.Held kind, word.now) operand) }
        ensures stop { IfErr result (λ stop. SlotStop self.now.counts self.now.registers (places.Held kind, word.now) stop) }
    {
        let found = self.find(word)?;
        if same_kind(kind, found.kind) {
            Ok(Operand::Register(kind, found.number))
        } else {
            Err(JobStop::Fault(FaultKind::Kind))
        }
    }

    /// A register of any kind.
    fn any(&self, word: &[u8]) -> Result<u32, JobStop>
        requires name { is_name word.now ≡ true }
        ensures ok { IfOk result (λ a. IsOperand self.now.counts self.now.registers (places.Any, word.now) (Operand.Any a)) }
        ensures ok_alike { IfOk result (λ a. IsOperand self.now.counts self.now.registers (places.Alike, word.now) (Operand.Alike a)) }
        ensures stop { IfErr result (λ stop. SlotStop self.now.counts self.now.registers (places.Any, word.now) stop) }
        ensures stop_alike { IfErr result (λ stop. SlotStop self.now.counts self.now.registers (places.Alike, word.now) stop) }
    {
        Ok(self.find(word)?.number)
    }

    /// The number of a variable.
    fn variable(&self, word: &[u8]) -> Result<u32, JobStop>
        requires number { is_number word.now ≡ true }
        requires few { self.now.counts.vars ≤ MOST_VARIABLES }
        ensures ok { IfOk result (λ v. IsOperand self.now.counts self.now.registers (places.Variable, word.now) (Operand.Variable v)) }
        ensures ok_new { IfOk result (λ v. IsOperand self.now.counts self.now.registers (places.NewVariable, word.now) (Operand.NewVariable v)) }
        ensures stop { IfErr result (λ stop. SlotStop self.now.counts self.now.registers (places.Variable, word.now) stop) }
        ensures stop_new { IfErr result (λ stop. SlotStop self.now.counts self.now.registers (places.NewVariable, word.now) stop) }
    {
        number_below(self.counts.vars, word)
    }

    /// The number of an element.
    fn element(&self, word: &[u8]) -> Result<Operand, JobStop>
        requires number { is_number word.now ≡ true }
        requires few { self.now.counts.elements ≤ MOST_ELEMENTS }
        ensures ok { IfOk result (λ operand. IsOperand self.now.counts self.now.registers (places.Element, word.now) operand) }
        ensures stop { IfErr result (λ stop. SlotStop self.now.counts self.now.registers (places.Element, word.now) stop) }
    {
        Ok(Operand::Element(number_below(self.counts.elements, word)?))
    }

    /// The number of a level of the order that has a next one.
    fn level(&self, order: Order, word: &[u8]) -> Result<Operand, JobStop>
        requires number { is_number word.now ≡ true }
        requires vars { self.now.counts.vars ≤ MOST_VARIABLES }
        requires elements { self.now.counts.elements ≤ MOST_ELEMENTS }
        ensures ok { IfOk result (λ operand. IsOperand self.now.counts self.now.registers (places.Level order, word.now) operand) }
        ensures stop { IfErr result (λ stop. SlotStop self.now.counts self.now.registers (places.Level order, word.now) stop) }
    {
        let levels = self.counts.levels_of(order);
        let level = number_below(levels.saturating_sub(1), word)?;
        Ok(Operand::Level(order, level))
    }

    /// The number of a cell.
    fn cell(&self, word: &[u8]) -> Result<Operand, JobStop>
        requires { is_number word.now ≡ true }
        ensures ok { IfOk result (λ operand. IsOperand self.now.counts self.now.registers (places.Cell, word.now) operand) }
        ensures stop { IfErr result (λ stop. SlotStop self.now.counts self.now.registers (places.Cell, word.now) stop) }
    {
        Ok(Operand::Cell(number_below(CELLS, word)? as u8))
    }

    /// A whole number.
    fn value(&self, word: &[u8]) -> Result<Operand, JobStop>
        requires number { is_integer word.now ≡ true }
        ensures ok { IfOk result (λ operand. IsOperand self.now.counts self.now.registers (places.Value, word.now) operand) }
        ensures stop { IfErr result (λ stop. SlotStop self.now.counts self.now.registers (places.Value, word.now) stop) }
    {
        match integer_value(word) {
            Some(w) => Ok(Operand::Value(w)),
            None => Err(JobStop::Fault(FaultKind::Range)),
        }
    }

    /// Bits.
    fn bits(&self, alloc: Global, word: &[u8]) -> Result<Operand, JobStop>
        requires { is_bits word.now ≡ true }
        ensures ok { IfOk result (λ operand. IsOperand self.now.counts self.now.registers (places.Bits, word.now) operand) }
        ensures stop { IfErr result (λ stop. SlotStop self.now.counts self.now.registers (places.Bits, word.now) stop) }
    {
        Ok(Operand::Bits(bits_of(alloc, word)?))
    }

    /// The word of a command that takes an element for each literal.
    fn literals(&self, word: &[u8]) -> Result<Operand, JobStop>
        requires name { is_name word.now ≡ true }
        requires vars { self.now.counts.vars ≤ MOST_VARIABLES }
        ensures ok { IfOk result (λ operand. IsOperand self.now.counts self.now.registers (places.Literals, word.now) operand) }
        ensures stop { IfErr result (λ stop. SlotStop self.now.counts self.now.registers (places.Literals, word.now) stop) }
    {
        if 2 * self.counts.vars <= self.counts.elements {
            Ok(Operand::Literals)
        } else {
            Err(JobStop::Fault(FaultKind::Range))
        }
    }

    /// What a word of due form stands for.
    fn operand(&self, alloc: Global, slot: &Slot<'_>) -> Result<Operand, JobStop>
        requires form { has_form (slot_of slot.now) ≡ true }
        requires vars { self.now.counts.vars ≤ MOST_VARIABLES }
        requires elements { self.now.counts.elements ≤ MOST_ELEMENTS }
        ensures ok { IfOk result (λ operand. IsOperand self.now.counts self.now.registers (slot_of slot.now) operand) }
        ensures stop { IfErr result (λ stop. SlotStop self.now.counts self.now.registers (slot_of slot.now) stop) }
    {
        match slot.place {
            Place::Fresh => self.target(slot.word),
            Place::Held(kind) => self.register(kind, slot.word),
            Place::Any => Ok(Operand::Any(self.any(slot.word)?)),
            Place::Alike => Ok(Operand::Alike(self.any(slot.word)?)),
            Place::Variable => Ok(Operand::Variable(self.variable(slot.word)?)),
            Place::NewVariable => Ok(Operand::NewVariable(self.variable(slot.word)?)),
            Place::Element => self.element(slot.word),
            Place::Level(order) => self.level(order, slot.word),
            Place::Cell => self.cell(slot.word),
            Place::Value => self.value(slot.word),
            Place::Bit => Ok(Operand::Bit(slot.word == b"1".as_slice())),
            Place::Bits => self.bits(alloc, slot.word),
            Place::Literals => self.literals(slot.word),
        }
    }

    /// What is wrong with an operand beside those to its left.
    fn misfit(&self, others: &Operands, operand: &Operand) -> Option<FaultKind>
        ensures { result ≡ misfit self.now.counts self.now.registers others.now operand.now }
    {
        match operand {
            Operand::Alike(a) => {
                let kind = kind_at(self.registers.as_slice(), *a);
                unless(same_kind(others.kind, kind), FaultKind::Kind)
            }
            Operand::NewVariable(v) => unless(!names(others, *v), FaultKind::Range),
            Operand::Bits(bits) => {
                let due = self.counts.bits_for(others.kind);
                unless(bits.len() == due as usize, FaultKind::Range)
            }
            _ => None,
        }
    }

    /// Takes what a word of due form stands for, where it fits those to its left.
    fn take(&self, alloc: Global, operands: &mut Operands, slot: &Slot<'_>) -> Result<(), JobStop>
        requires form { has_form (slot_of slot.now) ≡ true }
        requires vars { self.now.counts.vars ≤ MOST_VARIABLES }
        requires elements { self.now.counts.elements ≤ MOST_ELEMENTS }
        ensures ok { OnOk result ((own : OperandOf) × IsOperand self.now.counts self.now.registers (slot_of slot.now) own × (misfit self.now.counts self.now.registers operands.old own ≡ None) × (operands.new ≡ with_operand self.now.registers operands.old own)) }
        ensures stop { IfErr result (λ stop. (fault : FaultOf) → stop ≡ JobStop.Fault fault → word_fault self.now.counts self.now.registers (left_by operands.old) (slot_of slot.now) ≡ Some fault) }
    {
        let operand = self.operand(alloc, slot)?;
        if let Some(fault) = self.misfit(operands, &operand) {
            return Err(JobStop::Fault(fault));
        }
        Ok(add_operand(operands, self.registers.as_slice(), operand)?)
    }

    /// What words of due form stand for.
    fn operands(&self, alloc: Global, slots: Slots<'_>) -> Result<Operands, JobStop>
        requires forms { list_all has_form (slots_of slots) ≡ true }
        requires vars { self.now.counts.vars ≤ MOST_VARIABLES }
        requires elements { self.now.counts.elements ≤ MOST_ELEMENTS }
        ensures ok { IfOk result (λ operands. (each : ListOf OperandOf) × AreOperands self.now.counts self.now.registers (slots_of slots.entry) each × AllFit self.now.counts self.now.registers no_operands each × (operands ≡ with_operands self.now.registers no_operands each)) }
        ensures stop { IfErr result (λ stop. SlotsStop self.now.counts self.now.registers (slots_of slots.entry) stop) }
    {
        let mut operands = Operands::new(alloc);
        let mut left = slots;
        while let Some((slot, behind)) = left.split_first() {
            self.take(alloc, &mut operands, &slot)?;
            left = behind;
        }
        Ok(operands)
    }

    /// A line of a section that is no `session`.
    pub fn command(&self, alloc: Global, words: &[u8]) -> Result<Act, JobStop>
        requires some { 0 < length (split_words words.now) }
        requires vars { self.now.counts.vars ≤ MOST_VARIABLES }
        requires elements { self.now.counts.elements ≤ MOST_ELEMENTS }
        ensures ok { IfOk result (λ act. Says self.now.counts self.now.registers (split_words words.now) act) }
        ensures stop { IfErr result (λ stop. CommandStop self.now.counts self.now.registers (split_words words.now) stop) }
    {
        let Some(line) = command_line(words) else {
            return Err(JobStop::Fault(FaultKind::Word));
        };
        if !all_have_form(line.slots) {
            return Err(JobStop::Fault(FaultKind::Word));
        }
        let operands = self.operands(alloc, line.slots)?;
        Ok(operands.act(alloc, line.opcode)?)
    }
}
