//! The reader of stored diagrams, line by line.

ghost use Rattle.std.specs.Prelude.{◌≡◌, ◌+◌, ◌<◌, ◌≤◌, ◌^◌, [], IfErr, IfOk, None, false, length, map, nat_abs};
ghost use Rattle.job_words.specs.Text.{lines_of};
ghost use Rattle.dddmp_text.specs.Faults.{IsDddmpText, at_start, ended, faulty_line, listing, nodes_fault};
ghost use Rattle.dddmp_text.specs.Reading.{AreLeft, AreOfHeader, ErrorIs, HasFault, IsDumpBehind, fault_behind, left_behind};

use crate::faults::{DddmpError, DddmpStop, FaultKind};
use crate::fields::{Field, Given, number_in, numbers_in};
use crate::header::take_header_line;
use crate::node_lines::Listed;
use crate::sorting::variables_of;
use diagram_dumps::Dump;
use edge_bits::{Line, List};
use job_words::cut_line;
use std::alloc::{AllocError, Global};

/// The fields of a header, what stands behind its `.nodes`, and the number of the first line there.
#[derive(Drop)]
struct Headed<'a> {
    given: List<Given>,
    rest: &'a [u8],
    number: u64,
}

/// The header of a text.
fn read_header<'a>(alloc: Global, text: &'a [u8]) -> Result<Headed<'a>, DddmpError>
    ensures left { IfOk result (λ headed. AreLeft 1 at_start (lines_of text.now) headed.number (listing headed.given false []) headed.rest.now) }
    ensures whole { IfOk result (λ headed. nodes_fault headed.given ≡ None) }
    ensures few { IfOk result (λ headed. headed.number + length headed.rest.now ≤ 1 + length text.now) }
    ensures fault { IfErr result (ErrorIs (faulty_line 1 at_start (lines_of text.now))) }
{
    let mut given = List::new(alloc);
    let mut rest = text;
    let mut number = 1u64;
    while !rest.is_empty() {
        let (line, behind) = cut_line(rest);
        let begins = match take_header_line(alloc, &mut given, line) {
            Ok(begins) => begins,
            Err(stop) => return Err(stop.at(number)),
        };
        rest = behind;
        number += 1;
        if begins {
            return Ok(Headed {
                given,
                rest,
                number,
            });
        }
    }
    Err(DddmpStop::Fault(FaultKind::Missing).at(number))
}

/// The nodes of the lines behind a header, by the variables of the internal indices.
fn read_nodes(alloc: Global, headed: &Headed, variables: &[u32]) -> Result<List<Line>, DddmpError>
    requires few { headed.now.number + length headed.now.rest.now < 2 ^ 64 }
    requires variables { AreOfHeader headed.now.given variables.now }
    ensures faultless { IfOk result (λ nodes. fault_behind headed.now.given headed.now.number headed.now.rest.now ≡ None) }
    ensures left { IfOk result (λ nodes. left_behind headed.now.given headed.now.rest.now ≡ ended headed.now.given nodes) }
    ensures fault { IfErr result (ErrorIs (fault_behind headed.now.given headed.now.number headed.now.rest.now)) }
{
    let mut listed = Listed {
        started: false,
        nodes: List::new(alloc),
    };
    let mut rest = headed.rest;
    let mut number = headed.number;
    while !rest.is_empty() {
        let (line, behind) = cut_line(rest);
        let ends = match listed.take_line(headed.given.as_slice(), variables, line) {
            Ok(ends) => ends,
            Err(stop) => return Err(stop.at(number)),
        };
        if ends {
            return Ok(listed.nodes);
        }
        rest = behind;
        number += 1;
    }
    Err(DddmpStop::Fault(FaultKind::End).at(number))
}

/// Numbers without their signs.
fn sizes_of(alloc: Global, numbers: &[i32]) -> Result<Vec<u32>, AllocError>
    ensures { IfOk result (λ sizes. sizes.items ≡ map nat_abs numbers.now) }
{
    let mut sizes = Vec::with_capacity(alloc, numbers.len())?;
    for number in numbers {
        sizes.push(number.unsigned_abs())?;
    }
    Ok(sizes)
}

/// The diagram of a header and of the lines behind it.
fn read_dump(alloc: Global, headed: &Headed) -> Result<Dump, DddmpError>
    requires few { headed.now.number + length headed.now.rest.now < 2 ^ 64 }
    requires whole { nodes_fault headed.now.given ≡ None }
    ensures dump { IfOk result (IsDumpBehind headed.now.given headed.now.number headed.now.rest.now) }
    ensures fault { IfErr result (ErrorIs (fault_behind headed.now.given headed.now.number headed.now.rest.now)) }
{
    let given = headed.given.as_slice();
    let ids = sizes_of(alloc, numbers_in(given, Field::Ids))?;
    let permids = sizes_of(alloc, numbers_in(given, Field::Permids))?;
    let variables = variables_of(alloc, &ids, &permids)?;
    let nodes = read_nodes(alloc, headed, &variables)?;
    let roots = Vec::from_slice(alloc, numbers_in(given, Field::Rootids))?;
    Ok(Dump {
        nvars: number_in(given, Field::Nvars),
        ids: List::from_vec(ids),
        permids: List::from_vec(permids),
        nodes,
        roots: List::from_vec(roots),
    })
}

/// The stored diagram of a text of any length (DDDMP-2.0, by F. Somenzi's package CUDD), or its first faulty line and the first fault on
/// it. Its time is that of the text; behind `.end` nothing is read. Want of memory may be the answer to any text.
pub fn read(alloc: Global, text: &[u8]) -> Result<Dump, DddmpError>
    ensures dump { IfOk result (IsDddmpText text.now) }
    ensures fault { IfErr result (HasFault text.now) }
{
    let headed = read_header(alloc, text)?;
    read_dump(alloc, &headed)
}
