//! The reader of jobs, line by line.

ghost use Rattle.std.specs.Prelude.{◌≡◌, ◌++◌, ◌∷◌, [], ◌<◌, ◌≤◌, ◌+◌, ◌^◌, length, IfOk, IfErr, IfSome, IfNone, min, Bool, true, None, Some, codes, nat_le, ◌&&◌, List as ListOf, ℕ};
ghost use Rattle.std.specs.Str.Parse.{digits_value};
ghost use Rattle.job_words.specs.Text.{is_number, split_words, IsNumber};
ghost use Rattle.std.specs.Str.{bytes_eq};
ghost use Rattle.job_text.specs.Grammar.{IsJobText, target_of};
ghost use Rattle.job_text.specs.Faults.{HasFault, number_fault, is_session};
ghost use Rattle.job_text.specs.Readings.{EachHasOne, OneJob, OneFault, JobOrFault};
ghost use Rattle.job_text.specs.Drafts.{Adds, LineStop, EndStop, IsSmall};
ghost use Rattle.job_text.specs.declared.faults.FaultKind.{FaultKind as Kind};
ghost use Rattle.job_text.specs.declared.faults.FaultKind.TheVariants as kinds;
ghost use Rattle.job_text.specs.declared.draft.Section.{Section as SectionOf};
ghost use Rattle.job_text.specs.declared.job.Command.{Command as CommandOf};

use crate::draft::{Draft, Section};
use crate::faults::{FaultKind, JobError, JobFault, JobStop};
use crate::job::{Command, Counts, Job};
use edge_bits::{
    FIRST_PROJECTION, List, MOST_ELEMENTS, MOST_SESSIONS, MOST_SLOTS, MOST_VARIABLES, USUAL_LIMIT,
};
use job_words::{cut_line, first_word, is_number, number_value, words};
use std::alloc::Global;

/// The number of a line that is this word and a number.
fn number_line(words: &[u8], due: &[u8]) -> Option<u32>
    ensures found { IfSome result (λ v. (w : ListOf ℕ) × ((split_words words.now) ≡ due.now ∷ w ∷ []) × (is_number w ≡ true) × (v ≡ min (digits_value 10 w) 4000000000)) }
    ensures none { IfNone result ((in_range : ℕ → Bool) (kind : Kind) → number_fault due.now in_range kind (split_words words.now) ≡ Some kinds.Word) }
{
    let (first, rest) = first_word(words)?;
    let (second, rest) = first_word(rest)?;
    if first == due && is_number(second) && first_word(rest).is_none() {
        Some(number_value(second))
    } else {
        None
    }
}

/// `vars N` or `elements M`, of at most so many
fn count_line(words: &[u8], due: &[u8], most: u32) -> Result<u32, FaultKind>
    requires { most < 4000000000 }
    ensures ok { IfOk result (λ n. (w : ListOf ℕ) × ((split_words words.now) ≡ due.now ∷ w ∷ []) × IsNumber w n × (n ≤ most)) }
    ensures fault { IfErr result (λ kind. number_fault due.now (λ n. nat_le n most) kinds.Range (split_words words.now) ≡ Some kind) }
{
    let Some(n) = number_line(words, due) else {
        return Err(FaultKind::Word);
    };
    if n <= most {
        Ok(n)
    } else {
        Err(FaultKind::Range)
    }
}

/// `limit L`
fn limit_line(vars: u32, words: &[u8]) -> Result<u32, FaultKind>
    requires { vars ≤ MOST_VARIABLES }
    ensures ok { IfOk result (λ limit. (w : ListOf ℕ) × ((split_words words.now) ≡ codes "limit" ∷ w ∷ []) × IsNumber w limit × (5 + vars ≤ limit) × (limit ≤ MOST_SLOTS)) }
    ensures fault { IfErr result (λ kind. number_fault (codes "limit") (λ limit. nat_le (5 + vars) limit && nat_le limit MOST_SLOTS) kinds.Limit (split_words words.now) ≡ Some kind) }
{
    let Some(limit) = number_line(words, b"limit".as_slice()) else {
        return Err(FaultKind::Word);
    };
    if FIRST_PROJECTION + vars <= limit && limit <= MOST_SLOTS {
        Ok(limit)
    } else {
        Err(FaultKind::Limit)
    }
}

/// `session`
fn session_line(words: &[u8]) -> bool
    ensures { result ≡ is_session (split_words words.now) }
{
    match first_word(words) {
        Some((word, rest)) => word == b"session".as_slice() && first_word(rest).is_none(),
        None => false,
    }
}

/// What the lines give with one more of these words.
fn with_line(alloc: Global, draft: Draft, words: &[u8]) -> Result<Draft, JobStop>
    requires { IsSmall draft }
    ensures ok { IfOk result (λ next. Adds draft (split_words words.now) next) }
    ensures stop { IfErr result (λ stop. LineStop draft (split_words words.now) stop) }
{
    if first_word(words).is_none() {
        return Ok(draft);
    }
    match draft {
        Draft::Nothing => Ok(Draft::Sized {
            vars: count_line(words, b"vars".as_slice(), MOST_VARIABLES)?,
            elements: None,
            limit: None,
        }),
        Draft::Sized {
            vars,
            elements,
            limit,
        } => sized_line(alloc, vars, elements, limit, words),
        Draft::Begun {
            limit,
            done,
            section,
        } => begun_line(alloc, limit, done, section, words),
    }
}

/// A line between `vars` and the first `session`.
fn sized_line(
    alloc: Global,
    vars: u32,
    elements: Option<u32>,
    limit: Option<u32>,
    words: &[u8],
) -> Result<Draft, JobStop>
    requires some { 0 < length (split_words words.now) }
    requires vars { vars ≤ MOST_VARIABLES }
    ensures ok { IfOk result (λ next. Adds (Draft.Sized vars elements limit) (split_words words.now) next) }
    ensures stop { IfErr result (λ stop. LineStop (Draft.Sized vars elements limit) (split_words words.now) stop) }
{
    if session_line(words) {
        let limit = limit.unwrap_or(USUAL_LIMIT);
        let counts = Counts {
            vars,
            elements: elements.unwrap_or(0),
        };
        return Ok(Draft::Begun {
            limit,
            done: List::new(alloc),
            section: Section::new(alloc, counts),
        });
    }
    if limit.is_some() {
        return Err(JobStop::Fault(FaultKind::Word));
    }
    if elements.is_none() && begins(words, b"elements".as_slice()) {
        return elements_line(vars, words);
    }
    Ok(Draft::Sized {
        vars,
        elements,
        limit: Some(limit_line(vars, words)?),
    })
}

/// Whether this is the first word.
fn begins(words: &[u8], due: &[u8]) -> bool
    requires { 0 < length (split_words words.now) }
    ensures { result ≡ bytes_eq (target_of (split_words words.now)) due.now }
{
    match first_word(words) {
        Some((word, _)) => word == due,
        None => unreachable!(),
    }
}

/// A line that begins with `elements`, behind `vars`.
fn elements_line(vars: u32, words: &[u8]) -> Result<Draft, JobStop>
    requires first { bytes_eq (target_of (split_words words.now)) (codes "elements") ≡ true }
    ensures ok { IfOk result (λ next. Adds (Draft.Sized vars None None) (split_words words.now) next) }
    ensures stop { IfErr result (λ stop. LineStop (Draft.Sized vars None None) (split_words words.now) stop) }
{
    Ok(Draft::Sized {
        vars,
        elements: Some(count_line(words, b"elements".as_slice(), MOST_ELEMENTS)?),
        limit: None,
    })
}

/// A line of a section, or the first of the next one.
fn begun_line(
    alloc: Global,
    limit: u32,
    done: List<List<Command>>,
    section: Section,
    words: &[u8],
) -> Result<Draft, JobStop>
    requires some { 0 < length (split_words words.now) }
    requires vars { section.scope.counts.vars ≤ MOST_VARIABLES }
    requires elements { section.scope.counts.elements ≤ MOST_ELEMENTS }
    requires few { length done < MOST_SESSIONS }
    ensures ok { IfOk result (λ next. Adds (Draft.Begun limit done section) (split_words words.now) next) }
    ensures stop { IfErr result (λ stop. LineStop (Draft.Begun limit done section) (split_words words.now) stop) }
{
    if session_line(words) {
        return next_section(alloc, limit, done, section);
    }
    let mut section = section;
    section.add_command(alloc, words)?;
    Ok(Draft::Begun {
        limit,
        done,
        section,
    })
}

/// A further section, behind one that is done with it.
fn next_section(
    alloc: Global,
    limit: u32,
    done: List<List<Command>>,
    section: Section,
) -> Result<Draft, JobStop>
    requires { length done < MOST_SESSIONS }
    ensures ok { IfOk result (λ next. Adds (Draft.Begun limit done section) (codes "session" ∷ []) next) }
    ensures stop { IfErr result (λ stop. LineStop (Draft.Begun limit done section) (codes "session" ∷ []) stop) }
{
    if done.len() + 1 >= MOST_SESSIONS as usize {
        return Err(JobStop::Fault(FaultKind::Limit));
    }
    let Section { scope, commands } = section;
    let mut done = done;
    done.push(commands)?;
    Ok(Draft::Begun {
        limit,
        done,
        section: Section::new(alloc, scope.counts),
    })
}

/// The job of a text of any length, or its first faulty line and the first fault on it.
/// Want of memory may be the answer to any text.
pub fn parse(alloc: Global, text: &[u8]) -> Result<Job, JobError>
    ensures job { IfOk result (λ job. IsJobText text.now job) }
    ensures fault { IfErr result (λ error. HasFault text.now error) }
{
    let mut rest = text;
    let mut line = 0u64;
    let mut draft = Draft::Nothing;
    while !rest.is_empty() {
        let (front, after) = cut_line(rest);
        line += 1;
        let Some(words) = words(front) else {
            return Err(JobError::Fault(JobFault {
                line,
                what: FaultKind::Word,
            }));
        };
        draft = match with_line(alloc, draft, words) {
            Ok(draft) => draft,
            Err(JobStop::Memory) => return Err(JobError::Memory),
            Err(JobStop::Fault(what)) => return Err(JobError::Fault(JobFault { line, what })),
        };
        rest = after;
    }
    finish(draft, line)
}

/// The job, where a section has begun.
fn finish(draft: Draft, lines: u64) -> Result<Job, JobError>
    requires { lines < 2 ^ 63 }
    ensures job { IfOk result (λ job. (limit : ℕ) × (done : ListOf (ListOf CommandOf)) × (section : SectionOf) × (draft ≡ Draft.Begun limit done section)
        × (job ≡ record { vars = section.scope.counts.vars; elements = section.scope.counts.elements; limit = limit; sections = done ++ section.commands ∷ [] })) }
    ensures fault { IfErr result (λ error. EndStop draft lines error) }
{
    match draft {
        Draft::Begun {
            limit,
            done,
            section,
        } => {
            let Section { scope, commands } = section;
            let mut sections = done;
            if sections.push(commands).is_err() {
                return Err(JobError::Memory);
            }
            Ok(Job {
                vars: scope.counts.vars,
                elements: scope.counts.elements,
                limit,
                sections,
            })
        }
        _ => Err(JobError::Fault(JobFault {
            line: lines + 1,
            what: FaultKind::Word,
        })),
    }
}

/// Each text, of any length, is that of one job or has one fault, and not both.
pub fn texts_have_one_reading()
    ensures each_has_one { EachHasOne }
    ensures one_job { OneJob }
    ensures one_fault { OneFault }
    ensures job_or_fault { JobOrFault }
{}
