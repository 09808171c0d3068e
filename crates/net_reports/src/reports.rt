//! The report of a network or of a stored diagram, and the summary of a network.

ghost use Rattle.std.specs.Prelude.{◌≡◌, ◌++◌, [], List as ListOf, ℕ, codes, IfOk, IsPermutation, OnOk, length, map};
ghost use Rattle.std.specs.List.{flat_map, range_with_len};
ghost use Rattle.net_reports.specs.Classes.{AreClasses};
ghost use Rattle.net_reports.specs.Evaluations.{AreValues, patterns_of};
ghost use Rattle.net_reports.specs.Reports.{IsReport, IsSummary, count_firsts, count_line, dump_subject, eval_line, net_subject, node_count, out_lines, output_functions, output_names, report_text, rest_text, root_names, summary_text};
ghost use Rattle.net_reports.specs.RootClasses.{root_functions};

use crate::classes::Class;
use crate::lines::{put_count, put_evaluation, put_order, put_output};
use crate::patterns::Evaluation;
use cover_nets::{Net, Output};
use diagram_dumps::Dump;
use edge_bits::Memory;
use std::alloc::{AllocError, Global};

/// How many inputs and outputs there are.
fn counted(alloc: Global, inputs: usize, outputs: usize) -> Result<Vec<u8>, AllocError>
    ensures { IfOk result (λ text. text.items ≡ count_line (codes "inputs") inputs ++ count_line (codes "outputs") outputs) }
{
    let mut text = Vec::new(alloc);
    put_count(alloc, &mut text, "inputs", inputs)?;
    put_count(alloc, &mut text, "outputs", outputs)?;
    Ok(text)
}

/// A line for each output of a network.
fn put_outputs(
    alloc: Global,
    text: &mut Vec<u8>,
    outputs: &[Output],
    classes: &[Class],
) -> Result<(), AllocError>
    requires { length classes.now ≡ length outputs.now }
    ensures { OnOk result (text.new.items ≡ text.old.items ++ out_lines (map (λ output. output.name) outputs.now) classes.now) }
{
    for (number, output) in outputs.iter().enumerate() {
        put_output(
            alloc,
            text,
            number,
            output.name.as_slice(),
            &classes[number],
        )?;
    }
    Ok(())
}

/// A line for each root, which is named by its number.
fn put_roots(alloc: Global, text: &mut Vec<u8>, classes: &[Class]) -> Result<(), AllocError>
    ensures { OnOk result (text.new.items ≡ text.old.items ++ out_lines (root_names (length classes.now)) classes.now) }
{
    for (number, class) in classes.iter().enumerate() {
        let name = format!(in alloc; "r{number}")?;
        put_output(alloc, text, number, name.as_bytes(), class)?;
    }
    Ok(())
}

/// A line for each pattern.
fn put_evaluations(text: &mut Vec<u8>, evaluations: &[Evaluation]) -> Result<(), AllocError>
    ensures { OnOk result (text.new.items ≡ text.old.items ++ flat_map (λ one. eval_line one.pattern one.values) evaluations.now) }
{
    for evaluation in evaluations {
        put_evaluation(text, evaluation)?;
    }
    Ok(())
}

/// What stands behind the outputs.
fn put_rest(
    alloc: Global,
    text: &mut Vec<u8>,
    evaluations: &[Evaluation],
    order: &[u32],
    nodes: usize,
) -> Result<(), AllocError>
    ensures { OnOk result (text.new.items ≡ text.old.items ++ rest_text evaluations.now order.now nodes) }
{
    put_evaluations(text, evaluations)?;
    put_order(alloc, text, order)?;
    put_count(alloc, text, "nodes", nodes)
}

/// The report of a network: how many inputs and outputs it has, the name and the class of each output, the values of the outputs
/// at each pattern, the variables from the top, and the number of nodes.
#[tactic(auto, unfolding(crate::specs::Reports::report_text))]
pub fn report(
    alloc: Global,
    net: &Net,
    classes: &[Class],
    evaluations: &[Evaluation],
    order: &[u32],
    nodes: usize,
) -> Result<Vec<u8>, Memory>
    requires { length classes.now ≡ length net.now.outputs }
    ensures text { IfOk result (λ text. text.items ≡ report_text (length net.now.inputs) (output_names net.now) classes.now evaluations.now order.now nodes) }
    ensures report { IfOk result (λ text.
        IsPermutation (range_with_len 0 (length net.now.inputs)) order.now
        → AreClasses (length net.now.inputs) (output_functions net.now) classes.now
        → AreValues (length net.now.inputs) (output_functions net.now) evaluations.now
        → nodes ≡ node_count order.now (output_functions net.now)
        → IsReport (net_subject net.now order.now (patterns_of evaluations.now)) text.items) }
{
    let mut text = counted(alloc, net.inputs().len(), net.outputs().len())?;
    put_outputs(alloc, &mut text, net.outputs(), classes)?;
    put_rest(alloc, &mut text, evaluations, order, nodes)?;
    Ok(text)
}

/// The report of a stored diagram. Its roots are the outputs, and are named `r0`, `r1` and so on.
#[tactic(auto, unfolding(crate::specs::Reports::report_text))]
pub fn dump_report(
    alloc: Global,
    dump: &Dump,
    classes: &[Class],
    evaluations: &[Evaluation],
    order: &[u32],
    nodes: usize,
) -> Result<Vec<u8>, Memory>
    requires { length classes.now ≡ length dump.now.roots }
    ensures text { IfOk result (λ text. text.items ≡ report_text dump.now.nvars (root_names (length dump.now.roots)) classes.now evaluations.now order.now nodes) }
    ensures report { IfOk result (λ text.
        IsPermutation (range_with_len 0 dump.now.nvars) order.now
        → AreClasses dump.now.nvars (root_functions dump.now) classes.now
        → AreValues dump.now.nvars (root_functions dump.now) evaluations.now
        → nodes ≡ node_count order.now (root_functions dump.now)
        → IsReport (dump_subject dump.now order.now (patterns_of evaluations.now)) text.items) }
{
    let mut text = counted(alloc, dump.nvars as usize, dump.roots.len())?;
    put_roots(alloc, &mut text, classes)?;
    put_rest(alloc, &mut text, evaluations, order, nodes)?;
    Ok(text)
}

/// How many are their own first.
fn count_firsts(classes: &[Class]) -> usize
    ensures { result ≡ count_firsts classes.now }
{
    classes
        .iter()
        .enumerate()
        .filter(|(number, class)| class.first == *number)
        .count()
}

/// The summary of a network: how many inputs, outputs, classes of outputs and nodes it has.
#[tactic(auto, unfolding(crate::specs::Reports::summary_text))]
pub fn summary(alloc: Global, net: &Net, classes: &[Class], nodes: usize) -> Result<Vec<u8>, Memory>
    ensures text { IfOk result (λ text. text.items ≡ summary_text (length net.now.inputs) (length net.now.outputs) (count_firsts classes.now) nodes) }
    ensures summary { IfOk result (λ text. (order : ListOf ℕ)
        → IsPermutation (range_with_len 0 (length net.now.inputs)) order
        → AreClasses (length net.now.inputs) (output_functions net.now) classes.now
        → nodes ≡ node_count order (output_functions net.now)
        → IsSummary (net_subject net.now order []) text.items) }
{
    let mut text = counted(alloc, net.inputs().len(), net.outputs().len())?;
    put_count(alloc, &mut text, "classes", count_firsts(classes))?;
    put_count(alloc, &mut text, "nodes", nodes)?;
    Ok(text)
}
