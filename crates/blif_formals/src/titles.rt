//! Models by the numbers of their names.

ghost use Rattle.std.specs.Prelude.{◌≡◌, All, IfOk, filter, get_or, length, map, vec_len, None, ℕ};
ghost use Rattle.blif_models.specs.ModelFaults.{least};
ghost use Rattle.blif_formals.specs.Titles.{IsTitleBelow, mistitled_by, mistitled_lines, noted, title_of};

use crate::clashes::lesser;
use blif_models::number_of;
use std::alloc::{AllocError, Global};

/// What begins a model: its line, and the number of its name, if it has one.
#[derive(Debug, Clone, Copy, PartialEq, Eq, Drop)]
pub struct Heading {
    pub line: u64,
    pub title: Option<u32>,
}

/// The name of a model: the first model that has it, and whether another one has it too.
#[derive(Debug, Clone, Copy, PartialEq, Eq, Drop)]
pub struct Title {
    pub model: u32,
    pub again: bool,
}

/// Notes one more model of a title.
fn noted(known: Option<Title>, model: u32) -> Title
    ensures { result ≡ noted known model }
{
    match known {
        Some(title) => Title {
            model: title.model,
            again: true,
        },
        None => Title {
            model,
            again: false,
        },
    }
}

/// For each of so many numbers of names the first model of the name, and whether another one has it too.
pub fn titles_of(
    alloc: Global,
    headings: &[Heading],
    names: usize,
) -> Result<Vec<Option<Title>>, AllocError>
    requires { All (λ heading. IsTitleBelow names heading.title) headings.now }
    ensures many { IfOk result (λ titles. vec_len titles ≡ names) }
    ensures titles { IfOk result (λ titles. (n : ℕ) → get_or titles.items n None ≡ title_of headings.now n) }
{
    let count = number_of(headings.len())?;
    let mut titles = vec![in alloc; None::<Title>; names]?;
    for model in 0..count {
        if let Some(number) = headings[model as usize].title {
            let place = number as usize;
            titles[place] = Some(noted(titles[place], model));
        }
    }
    Ok(titles)
}

/// Whether a model has no name, or one that another model has too.
fn is_mistitled(titles: &[Option<Title>], title: Option<u32>) -> bool
    requires { IsTitleBelow (length titles.now) title }
    ensures { result ≡ mistitled_by titles.now title }
{
    match title {
        None => true,
        Some(number) => match titles[number as usize] {
            None => true,
            Some(title) => title.again,
        },
    }
}

/// The first line of these models that has no name, or one that another model has too.
fn first_mistitled(titles: &[Option<Title>], headings: &[Heading]) -> Option<u64>
    requires { All (λ heading. IsTitleBelow (length titles.now) heading.title) headings.now }
    ensures { result ≡ least (map (λ heading. heading.line) (filter (λ heading. mistitled_by titles.now heading.title) headings.now)) }
{
    let mut first = None;
    for heading in headings {
        if is_mistitled(titles, heading.title) {
            first = Some(lesser(heading.line, first));
        }
    }
    first
}

/// The first line of a further model that has no name of its own, where it is known which models have which names.
pub fn mistitled_line(headings: &[Heading], titles: &[Option<Title>]) -> Option<u64>
    requires within { All (λ heading. IsTitleBelow (length titles.now) heading.title) headings.now }
    requires titles { (n : ℕ) → get_or titles.now n None ≡ title_of headings.now n }
    ensures { result ≡ least (mistitled_lines headings.now) }
{
    let (_main, further) = headings.split_first()?;
    first_mistitled(titles, further)
}
