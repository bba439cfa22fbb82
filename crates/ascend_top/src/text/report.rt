ghost use Rattle.std.specs.Prelude.{◌≡◌, IfOk, string_bytes};
ghost use Rattle.ascend_top.specs.FlatRun.{ending_of, outcome_report};
ghost use Rattle.ascend_top.specs.Texts.{kind_text, ending_text, report_text};

use crate::commands::flat::Outcome;
use crate::status::Ending;
use rv32_core::TrapKind;
use std::alloc::{AllocError, Global};

pub(super) fn kind_name(kind: TrapKind) -> &'static str
    ensures { result.now ≡ kind_text kind }
{
    match kind {
        TrapKind::FetchFault => "FetchFault",
        TrapKind::Illegal => "Illegal",
        TrapKind::FetchMisaligned => "FetchMisaligned",
        TrapKind::LoadMisaligned => "LoadMisaligned",
        TrapKind::StoreMisaligned => "StoreMisaligned",
        TrapKind::LoadFault => "LoadFault",
        TrapKind::StoreFault => "StoreFault",
        TrapKind::Breakpoint => "Breakpoint",
        TrapKind::OutputLimit => "OutputLimit",
    }
}

fn ending_line(alloc: Global, ending: Ending) -> Result<String, AllocError>
    ensures { IfOk result (λ text. string_bytes text ≡ ending_text (ending_of ending)) }
{
    match ending {
        Ending::Exit { status } => format!(in alloc; "end exit {status}"),
        Ending::Trap { kind, pc } => {
            let kind = kind_name(kind);
            format!(in alloc; "end trap {kind} {pc}")
        }
        Ending::Budget => String::from_str(alloc, "end budget"),
    }
}

/// The report of a run: how it ended, and how many instructions finished.
pub(crate) fn report_text(alloc: Global, outcome: &Outcome) -> Result<String, AllocError>
    ensures { IfOk result (λ text. string_bytes text ≡ report_text (outcome_report outcome.now)) }
{
    let ending = ending_line(alloc, outcome.ending)?;
    let instructions = outcome.instructions;
    format!(in alloc; "{ending}\ninstructions {instructions}\n")
}
