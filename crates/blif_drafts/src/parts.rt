//! Models part by part.

ghost use Rattle.std.specs.Prelude.{◌≡◌, ◌++◌, ◌∷◌, [], All, IfOk, OnOk, length, List as ListOf};
ghost use Rattle.blif_drafts.specs.declared.drafts.Draft.{Draft as DraftIs};
ghost use Rattle.blif_drafts.specs.Drafts.{HasPorts};
ghost use Rattle.blif_formals.specs.Joining.{IsInterface};
ghost use Rattle.blif_drafts.specs.Parts.{ArePartsOf, IsPorted, names_by};

use crate::drafts::{Draft, DraftItem};
use blif_formals::{Call, Definition, Heading, Interface, Words, interface_of};
use blif_models::Adding;
use edge_bits::List;
use std::alloc::{AllocError, Global};

/// What is kept of several models, part by part: for each model what begins it, its names, its interface, the definitions of its inputs,
/// what its lines of inputs add, what stands in it, and its instances with the words behind the names of their models.
#[derive(Drop)]
pub struct Parts<'a> {
    pub headings: Vec<Heading>,
    pub names: Vec<Words>,
    pub interfaces: Vec<Interface>,
    pub inputs: Vec<List<Definition>>,
    pub added: Vec<List<Adding>>,
    pub items: Vec<List<DraftItem>>,
    pub calls: Vec<List<Call>>,
    pub joined: Vec<List<List<&'a [u8]>>>,
}

/// The names that definitions define.
fn names_by(alloc: Global, ones: &[Definition]) -> Result<List<u32>, AllocError>
    ensures { IfOk result (λ names. names ≡ names_by ones.now) }
{
    let mut names = List::new(alloc);
    for one in ones {
        names.push(one.name)?;
    }
    Ok(names)
}

/// The interface of a model with these names, definitions of inputs, and outputs.
fn interface_by(
    alloc: Global,
    names: &Words,
    inputs: &[Definition],
    outputs: List<u32>,
) -> Result<Interface, AllocError>
    requires { HasPorts (length names.now) (names_by inputs.now) outputs }
    ensures inputs { IfOk result (λ interface. interface.inputs ≡ names_by inputs.now) }
    ensures outputs { IfOk result (λ interface. interface.outputs ≡ outputs) }
    ensures many { IfOk result (λ interface. length interface.ports.items ≡ length names.now) }
    ensures interface { IfOk result IsInterface }
{
    let numbers = names_by(alloc, inputs)?;
    interface_of(alloc, names.len() as u32, numbers, outputs)
}

impl<'a> Parts<'a> {
    /// No models.
    fn new(alloc: Global) -> Parts<'a>
        ensures { ArePartsOf [] result }
    {
        Parts {
            headings: Vec::new(alloc),
            names: Vec::new(alloc),
            interfaces: Vec::new(alloc),
            inputs: Vec::new(alloc),
            added: Vec::new(alloc),
            items: Vec::new(alloc),
            calls: Vec::new(alloc),
            joined: Vec::new(alloc),
        }
    }

    /// One model more.
    fn add(&mut self, alloc: Global, draft: Draft<'a>) -> Result<(), AllocError>
        requires { IsPorted draft }
        ensures { OnOk result ((before : ListOf DraftIs) → ArePartsOf before self.old → ArePartsOf (before ++ draft.entry ∷ []) self.new) }
    {
        let Draft {
            heading,
            names,
            inputs,
            outputs,
            added,
            items,
            calls,
            joined,
        } = draft;
        let interface = interface_by(alloc, &names, inputs.as_slice(), outputs)?;
        self.headings.push(heading)?;
        self.names.push(names)?;
        self.interfaces.push(interface)?;
        self.inputs.push(inputs)?;
        self.added.push(added)?;
        self.items.push(items)?;
        self.calls.push(calls)?;
        self.joined.push(joined)?;
        Ok(())
    }
}

/// The parts of drafts, in their order.
pub fn parts_of<'a>(alloc: Global, drafts: Vec<Draft<'a>>) -> Result<Parts<'a>, AllocError>
    requires { All IsPorted drafts.items }
    ensures { IfOk result (ArePartsOf drafts.entry.items) }
{
    let mut parts = Parts::new(alloc);
    for draft in drafts {
        parts.add(alloc, draft)?;
    }
    Ok(parts)
}
