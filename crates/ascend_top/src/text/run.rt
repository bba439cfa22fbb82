ghost use Rattle.std.specs.Prelude.{◌≡◌, ◌++◌, codes, IfOk, string_bytes};
ghost use Rattle.ascend_top.specs.Texts.{evidence_text, run_ending_text, run_text};

use super::report::kind_name;
use crate::commands::run::Encrypted;
use asc_base::Evidence;
use secure_machine::Ending;
use std::alloc::{AllocError, Global};

/// The line of a run that ended with evidence that the memory was altered.
fn evidence_line(alloc: Global, evidence: &Evidence) -> Result<String, AllocError>
    ensures { IfOk result (λ text. string_bytes text ≡ codes "end integrity " ++ evidence_text evidence.now) }
{
    match evidence {
        Evidence::BadSlot { bucket, slot } => {
            format!(in alloc; "end integrity BadSlot {bucket} {slot}")
        }
        Evidence::OffPath { bucket, slot } => {
            format!(in alloc; "end integrity OffPath {bucket} {slot}")
        }
        Evidence::Doubled { address } => {
            let address = address.0;
            format!(in alloc; "end integrity Doubled {address}")
        }
        Evidence::Missing { address, .. } => {
            let address = address.0;
            format!(in alloc; "end integrity Missing {address}")
        }
        Evidence::Unexpected { address } => {
            let address = address.0;
            format!(in alloc; "end integrity Unexpected {address}")
        }
        Evidence::BadTag { message, .. } => {
            let address = message.address.0;
            format!(in alloc; "end integrity BadTag {address}")
        }
    }
}

fn ending_line(alloc: Global, ending: &Ending) -> Result<String, AllocError>
    ensures { IfOk result (λ text. string_bytes text ≡ run_ending_text ending.now) }
{
    match ending {
        Ending::Exit { status } => format!(in alloc; "end exit {status}"),
        Ending::Trap { kind, pc } => {
            let kind = kind_name(*kind);
            format!(in alloc; "end trap {kind} {pc}")
        }
        Ending::Budget => String::from_str(alloc, "end budget"),
        Ending::TimeUp { at } => format!(in alloc; "end time {at}"),
        Ending::StashFull { held } => format!(in alloc; "end stash {held}"),
        Ending::Integrity(evidence) => evidence_line(alloc, evidence),
        Ending::Device => String::from_str(alloc, "end device"),
    }
}

/// The report of a run over encrypted memory: ten lines.
pub(crate) fn run_text(alloc: Global, run: &Encrypted) -> Result<String, AllocError>
    ensures { IfOk result (λ text. string_bytes text ≡ run_text run.now.report run.now.altered) }
{
    let report = &run.report;
    let ending = ending_line(alloc, &report.ending)?;
    let instructions = report.instructions;
    let cycles = report.cycles;
    let last = report.last;
    let fetches = report.fetches;
    let real = report.real;
    let dummies = report.dummies;
    let choices = report.choices;
    let code = report.code;
    let altered = run.altered;
    let first = format!(in alloc;
        "{ending}\ninstructions {instructions}\ncycles {cycles}\nlast {last}\n"
    )?;
    let second = format!(in alloc; "fetches {fetches}\nreal {real}\ndummies {dummies}\n")?;
    format!(in alloc; "{first}{second}choices {choices}\ncode {code}\naltered {altered}\n")
}
