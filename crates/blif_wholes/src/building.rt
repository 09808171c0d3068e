//! The network of a whole.

ghost use Rattle.std.specs.Prelude.{◌≡◌, ◌+◌, ◌<◌, All, Some, get_or, length, map, slice_get, slice_index, IfOk, ℕ, List as ListOf};
ghost use Rattle.blif_models.specs.Circuits.{Circuit};
ghost use Rattle.blif_models.specs.Models.{Model};
ghost use Rattle.blif_order.specs.Orders.{Once};
ghost use Rattle.blif_wholes.specs.Bodies.{KeepRows};
ghost use Rattle.blif_wholes.specs.Built.{BuiltIs, IsSound};
ghost use Rattle.blif_wholes.specs.Drafting.{IsWholeDraft};
ghost use Rattle.blif_wholes.specs.Names.{words_in};
ghost use Rattle.blif_wholes.specs.Placing.{AreSignals, IsBuilt, gate_of, no_cover, signal_in};

use crate::bodies::{CoverRows, rows_at};
use crate::drafting::WholeDraft;
use crate::names::WholeNames;
use crate::parting::WholeCover;
use crate::reads::arranged;
use crate::roles::{Role, number_of};
use blif_order::Arranged;
use cover_nets::{Cover, Net, Output};
use edge_bits::List;
use std::alloc::{AllocError, Global};

/// What comes of a whole: the line of the first cover that lies on a cycle or depends on one, or its network.
#[derive(Drop)]
pub enum Built {
    Cyclic(u64),
    Network(Net),
}

/// The signals of covers that stand in this order, from this signal on. There are fewer than 2^32: for more there is no memory.
fn cover_signals(
    alloc: Global,
    first: u32,
    order: &[u32],
    covers: usize,
) -> Result<Vec<u32>, AllocError>
    requires within { All (λ c. c < covers) order.now }
    requires once { Once order.now }
    ensures many { IfOk result (λ signals. length signals.items ≡ covers) }
    ensures placed { IfOk result (λ signals. (p c : ℕ) → slice_get order.now p ≡ Some c → slice_get signals.items c ≡ Some (first + p)) }
{
    let mut signals = vec![in alloc; 0u32; covers]?;
    let mut signal = first;
    for cover in order {
        signals[*cover as usize] = signal;
        let Some(next) = signal.checked_add(1) else {
            return Err(AllocError);
        };
        signal = next;
    }
    Ok(signals)
}

/// The signal of a name, where covers have these signals.
fn signal_of(role: Role, covers: &[u32]) -> u32
    requires { (c : ℕ) → role ≡ Role.Cover c → c < length covers.now }
    ensures { result ≡ signal_in covers.now role }
{
    match role {
        Role::Unknown => 0,
        Role::Input(input) => input,
        Role::Cover(cover) => covers[cover as usize],
    }
}

/// The signals of names of these roles, where covers have these signals.
fn name_signals(alloc: Global, roles: &[Role], covers: &[u32]) -> Result<Vec<u32>, AllocError>
    requires { (n c : ℕ) → slice_get roles.now n ≡ Some (Role.Cover c) → c < length covers.now }
    ensures { IfOk result (λ signals. signals.items ≡ map (signal_in covers.now) roles.now) }
{
    let mut signals = Vec::with_capacity(alloc, roles.len())?;
    for role in roles {
        signals.push(signal_of(*role, covers))?;
    }
    Ok(signals)
}

/// The signals of the names of a draft whose covers were put in this order.
fn signals_of(alloc: Global, draft: &WholeDraft, order: &[u32]) -> Result<Vec<u32>, AllocError>
    requires circuit { (models : ListOf Model) × (circuit : Circuit) × IsWholeDraft models circuit draft.now }
    requires within { All (λ c. c < length draft.now.covers.items) order.now }
    requires once { Once order.now }
    ensures { IfOk result (λ signals. AreSignals draft.now order.now signals.items) }
{
    let first = number_of(draft.inputs.len())?;
    let covers = cover_signals(alloc, first, order, draft.covers.len())?;
    let signals = name_signals(alloc, draft.names.roles(), &covers)?;
    Ok(signals)
}

/// The signals of the names of these numbers.
fn signals_at(alloc: Global, signals: &[u32], numbers: &[u32]) -> Result<List<u32>, AllocError>
    requires { All (λ n. n < length signals.now) numbers.now }
    ensures { IfOk result (λ found. found ≡ map (slice_index signals.now) numbers.now) }
{
    let mut found = Vec::with_capacity(alloc, numbers.len())?;
    for number in numbers {
        found.push(signals[*number as usize])?;
    }
    Ok(List::from_vec(found))
}

/// The gate of a cover.
fn gate(
    alloc: Global,
    kept: &[Vec<Option<CoverRows>>],
    signals: &[u32],
    one: &WholeCover,
) -> Result<Cover, AllocError>
    requires { All (λ n. n < length signals.now) one.now.cover.ins }
    ensures { IfOk result (λ gate. gate ≡ gate_of kept.now signals.now one.now) }
{
    let ins = signals_at(alloc, signals, one.cover.ins.as_slice())?;
    let CoverRows { rows, on } = rows_at(alloc, kept, one.model, one.place)?;
    Ok(Cover { ins, rows, on })
}

/// The gates of covers in this order.
fn gates(
    alloc: Global,
    kept: &[Vec<Option<CoverRows>>],
    signals: &[u32],
    covers: &[WholeCover],
    order: &[u32],
) -> Result<List<Cover>, AllocError>
    requires within { All (λ c. c < length covers.now) order.now }
    requires in_range { All (λ one. All (λ n. n < length signals.now) one.cover.ins) covers.now }
    ensures { IfOk result (λ gates. gates ≡ map (λ c. gate_of kept.now signals.now (get_or covers.now c no_cover)) order.now) }
{
    let mut gates = Vec::with_capacity(alloc, order.len())?;
    for cover in order {
        gates.push(gate(alloc, kept, signals, &covers[*cover as usize])?)?;
    }
    Ok(List::from_vec(gates))
}

/// The words of the names of these numbers.
fn words_at(
    alloc: Global,
    names: &WholeNames,
    numbers: &[u32],
) -> Result<List<List<u8>>, AllocError>
    requires { All (λ n. n < length names.now) numbers.now }
    ensures { IfOk result (λ words. map Some words ≡ map (slice_get (words_in names.now)) numbers.now) }
{
    let mut words = Vec::with_capacity(alloc, numbers.len())?;
    for number in numbers {
        words.push(names.word_at(alloc, *number as usize)?)?;
    }
    Ok(List::from_vec(words))
}

/// The outputs of these numbers.
fn outputs_at(
    alloc: Global,
    names: &WholeNames,
    signals: &[u32],
    numbers: &[u32],
) -> Result<List<Output>, AllocError>
    requires names { All (λ n. n < length names.now) numbers.now }
    requires signals { length signals.now ≡ length names.now }
    ensures names { IfOk result (λ outputs. map (λ output. Some output.name) outputs ≡ map (slice_get (words_in names.now)) numbers.now) }
    ensures signals { IfOk result (λ outputs. map (λ output. output.signal) outputs ≡ map (slice_index signals.now) numbers.now) }
{
    let mut outputs = Vec::with_capacity(alloc, numbers.len())?;
    for number in numbers {
        let place = *number as usize;
        outputs.push(Output {
            name: names.word_at(alloc, place)?,
            signal: signals[place],
        })?;
    }
    Ok(List::from_vec(outputs))
}

/// The network of a draft whose covers were put in this order, with rows that are kept so.
fn net_of(
    alloc: Global,
    kept: &[Vec<Option<CoverRows>>],
    draft: &WholeDraft,
    order: &[u32],
) -> Result<Net, AllocError>
    requires circuit { (models : ListOf Model) × (circuit : Circuit) × IsWholeDraft models circuit draft.now }
    requires within { All (λ c. c < length draft.now.covers.items) order.now }
    requires once { Once order.now }
    ensures { IfOk result (IsBuilt kept.now draft.now order.now) }
{
    let signals = signals_of(alloc, draft, order)?;
    Ok(Net {
        inputs: words_at(alloc, &draft.names, &draft.inputs)?,
        outputs: outputs_at(alloc, &draft.names, &signals, &draft.outputs)?,
        gates: gates(alloc, kept, &signals, &draft.covers, order)?,
    })
}

/// The network of a whole of which this is the draft, where rows of covers are kept so, or the line of its first cover that lies on a
/// cycle or depends on one. No signal of the whole may be defined twice, and what it reads and shows has to be a signal of it.
pub fn network_of(
    alloc: Global,
    kept: &[Vec<Option<CoverRows>>],
    draft: &WholeDraft,
) -> Result<Built, AllocError>
    requires { (models : ListOf Model) × (circuit : Circuit) × IsWholeDraft models circuit draft.now × IsSound circuit }
    ensures { IfOk result (λ built. (models : ListOf Model) (circuit : Circuit) → IsWholeDraft models circuit draft.now → IsSound circuit → KeepRows models kept.now → BuiltIs circuit built) }
{
    match arranged(alloc, draft)? {
        Arranged::Cyclic(root) => {
            let one = &draft.covers[root as usize];
            Ok(Built::Cyclic(one.cover.line))
        }
        Arranged::Ordering(order) => {
            let net = net_of(alloc, kept, draft, &order)?;
            Ok(Built::Network(net))
        }
    }
}
