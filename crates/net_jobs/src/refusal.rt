//! Why a run has nothing to tell but a fault.

ghost use Rattle.std.specs.Prelude.{◌≡◌, ◌++◌, codes, IfOk, string_bytes};
ghost use Rattle.std.specs.Fmt.{decimal};
ghost use Rattle.net_jobs.specs.Ends.{blif_word, dddmp_word, kind_word};
ghost use Rattle.net_jobs.specs.Refusals.{refusal_line, status_of};

use crate::status::Status;
use blif_net::{BlifFault, FaultKind as BlifKind};
use dd_session::Full;
use dddmp_text::{DddmpFault, FaultKind as DddmpKind};
use job_text::{FaultKind, JobFault};
use std::alloc::{AllocError, Global};

/// Why there is no history, no report and no summary to tell.
#[derive(Debug, Clone, Copy, PartialEq, Eq)]
pub enum RunRefusal {
    Usage,
    Memory,
    Read,
    TooLong,
    Job(JobFault),
    Blif(BlifFault),
    Dddmp(DddmpFault),
    Full(Full),
    Large(u64),
}

impl RunRefusal {
    /// The status with which a refused run ends.
    pub fn status(self) -> Status
        ensures { result ≡ status_of self }
    {
        match self {
            RunRefusal::Usage => Status::Usage,
            RunRefusal::Memory => Status::Memory,
            RunRefusal::Read => Status::ReadFault,
            RunRefusal::TooLong => Status::TooLong,
            RunRefusal::Job(_) => Status::Job,
            RunRefusal::Blif(_) => Status::Blif,
            RunRefusal::Dddmp(_) => Status::Dddmp,
            RunRefusal::Full(_) => Status::Full,
            RunRefusal::Large(_) => Status::Large,
        }
    }

    /// The one line of a refused run.
    pub fn line(self, alloc: Global) -> Result<String, AllocError>
        ensures { IfOk result (λ line. string_bytes line ≡ refusal_line self) }
    {
        match self {
            RunRefusal::Usage => String::from_str(alloc, "fault: usage\n"),
            RunRefusal::Memory => String::from_str(alloc, "fault: memory\n"),
            RunRefusal::Read => String::from_str(alloc, "fault: read\n"),
            RunRefusal::TooLong => String::from_str(alloc, "fault: too long\n"),
            RunRefusal::Job(fault) => job_line(alloc, fault.line, kind_name(fault.what)),
            RunRefusal::Blif(fault) => blif_line(alloc, fault.line, blif_name(fault.what)),
            RunRefusal::Dddmp(fault) => dddmp_line(alloc, fault.line, dddmp_name(fault.what)),
            RunRefusal::Full(full) => full_line(alloc, full.in_use, full.limit),
            RunRefusal::Large(signals) => large_line(alloc, signals),
        }
    }
}

/// The name of a kind of fault of a job.
fn kind_name(kind: FaultKind) -> &'static str
    ensures { result.now ≡ kind_word kind }
{
    match kind {
        FaultKind::Word => "word",
        FaultKind::Name => "name",
        FaultKind::Kind => "kind",
        FaultKind::Range => "range",
        FaultKind::Limit => "limit",
        FaultKind::Again => "again",
    }
}

/// The line of a faulty job.
fn job_line(alloc: Global, line: u64, kind: &str) -> Result<String, AllocError>
    ensures { IfOk result (λ text. string_bytes text ≡ codes "fault: job " ++ decimal line ++ codes " " ++ kind.now ++ codes "\n") }
{
    format!(in alloc; "fault: job {line} {kind}\n")
}

/// The name of a kind of fault of a network's text.
fn blif_name(kind: BlifKind) -> &'static str
    ensures { result.now ≡ blif_word kind }
{
    match kind {
        BlifKind::Word => "word",
        BlifKind::Row => "row",
        BlifKind::Mixed => "mixed",
        BlifKind::Twice => "twice",
        BlifKind::TooMany => "too-many",
        BlifKind::LeftOut => "left-out",
        BlifKind::Model => "model",
        BlifKind::Formal => "formal",
        BlifKind::Undefined => "undefined",
        BlifKind::Cycle => "cycle",
        BlifKind::NoOutputs => "no-outputs",
    }
}

/// The line of a faulty network's text.
fn blif_line(alloc: Global, line: u64, kind: &str) -> Result<String, AllocError>
    ensures { IfOk result (λ text. string_bytes text ≡ codes "fault: blif " ++ decimal line ++ codes " " ++ kind.now ++ codes "\n") }
{
    format!(in alloc; "fault: blif {line} {kind}\n")
}

/// The name of a kind of fault of a stored diagram's text.
fn dddmp_name(kind: DddmpKind) -> &'static str
    ensures { result.now ≡ dddmp_word kind }
{
    match kind {
        DddmpKind::Header => "header",
        DddmpKind::Missing => "missing",
        DddmpKind::Count => "count",
        DddmpKind::Variable => "variable",
        DddmpKind::Root => "root",
        DddmpKind::Node => "node",
        DddmpKind::Order => "order",
        DddmpKind::End => "end",
    }
}

/// The line of a faulty stored diagram's text.
fn dddmp_line(alloc: Global, line: u64, kind: &str) -> Result<String, AllocError>
    ensures { IfOk result (λ text. string_bytes text ≡ codes "fault: dddmp " ++ decimal line ++ codes " " ++ kind.now ++ codes "\n") }
{
    format!(in alloc; "fault: dddmp {line} {kind}\n")
}

/// The line of a full manager.
fn full_line(alloc: Global, in_use: u32, limit: u32) -> Result<String, AllocError>
    ensures { IfOk result (λ text. string_bytes text ≡ codes "fault: full " ++ decimal in_use ++ codes " of " ++ decimal limit ++ codes "\n") }
{
    format!(in alloc; "fault: full {in_use} of {limit}\n")
}

/// The line of a network of multiplexers that would have too many signals.
fn large_line(alloc: Global, signals: u64) -> Result<String, AllocError>
    ensures { IfOk result (λ text. string_bytes text ≡ codes "fault: large " ++ decimal signals ++ codes "\n") }
{
    format!(in alloc; "fault: large {signals}\n")
}
