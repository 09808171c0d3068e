//! What stands in a model defines signals of it.

ghost use Rattle.std.specs.Prelude.{◌≡◌, ◌<◌, ◌++◌, All, OnOk, length};
ghost use Rattle.std.specs.List.{flat_map};
ghost use Rattle.blif_formals.specs.Definitions.{JoinsNames, definitions_by, outputs_joined};

use crate::clashes::Definition;
use crate::interface::{Interface, Port};
use blif_models::{Entry, NumberedJoin};
use std::alloc::AllocError;

/// Adds the actual names of joins to outputs, which the instance on this line defines.
fn add_outputs(
    found: &mut Vec<Definition>,
    ports: &[Port],
    line: u64,
    joins: &[NumberedJoin],
) -> Result<(), AllocError>
    requires { All (λ join. join.formal < length ports.now) joins.now }
    ensures { OnOk result (found.new.items ≡ found.old.items ++ outputs_joined ports.now line joins.now) }
{
    for join in joins {
        if ports[join.formal as usize] == Port::Output {
            found.push(Definition {
                name: join.actual,
                line,
            })?;
        }
    }
    Ok(())
}

/// Adds what an entry defines, where the models have these interfaces.
fn add_definition(
    found: &mut Vec<Definition>,
    interfaces: &[Interface],
    entry: &Entry,
) -> Result<(), AllocError>
    requires { JoinsNames interfaces.now entry.now }
    ensures { OnOk result (found.new.items ≡ found.old.items ++ definitions_by interfaces.now entry.now) }
{
    match entry {
        Entry::Cover(cover) => found.push(Definition {
            name: cover.name,
            line: cover.line,
        })?,
        Entry::Latch(latch) => found.push(Definition {
            name: latch.output,
            line: latch.line,
        })?,
        Entry::Instance(instance) => {
            let ports = interfaces[instance.model as usize].ports.as_slice();
            add_outputs(found, ports, instance.line, instance.joins.as_slice())?;
        }
    }
    Ok(())
}

/// Adds what the entries of a model define, where the models have these interfaces.
pub fn add_definitions(
    found: &mut Vec<Definition>,
    interfaces: &[Interface],
    entries: &[Entry],
) -> Result<(), AllocError>
    requires { All (JoinsNames interfaces.now) entries.now }
    ensures { OnOk result (found.new.items ≡ found.old.items ++ flat_map (definitions_by interfaces.now) entries.now) }
{
    for entry in entries {
        add_definition(found, interfaces, entry)?;
    }
    Ok(())
}
