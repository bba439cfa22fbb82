ghost use Rattle.std.specs.Prelude.{◌≡◌, ◌++◌, ◌∷◌, [], IfOk, OnErr, IsSome, codes, string_bytes, option_map};
ghost use Rattle.ascend_top.specs.Texts.{asm_kind_text, asm_line, fails_text, fault_text, refusal_text};
ghost use Rattle.ascend_top.specs.Texts.{setting_text, trace_kind_text, trace_text};

use crate::refusal::Refusal;
use asc_base::Setting;
use bus_trace::TraceKind;
use elf_loader::ElfFault;
use rv32_asm::AsmKind;
use std::alloc::{AllocError, Global};

fn setting_name(setting: Setting) -> &'static str
    ensures { result.now ≡ setting_text setting }
{
    match setting {
        Setting::Size => "size",
        Setting::Base => "base",
        Setting::Sets => "sets",
        Setting::Ways => "ways",
        Setting::Plb => "plb",
        Setting::Roots => "roots",
        Setting::Ic => "ic",
        Setting::Stash => "stash",
        Setting::Budget => "budget",
        Setting::Time => "time",
        Setting::Leak => "leak",
        Setting::Rates => "rates",
        Setting::First => "first",
        Setting::Epoch => "epoch",
    }
}

/// The line of a fault: its name, and the index of the program header where it has one.
fn fault_line(alloc: Global, fault: &ElfFault) -> Result<String, AllocError>
    ensures { IfOk result (λ text. string_bytes text ≡ codes "elf " ++ fault_text fault.now ++ 10 ∷ []) }
{
    let name = match fault {
        ElfFault::Segment { index } => return format!(in alloc; "elf Segment {index}\n"),
        ElfFault::Outside { index } => return format!(in alloc; "elf Outside {index}\n"),
        ElfFault::Overlap { index } => return format!(in alloc; "elf Overlap {index}\n"),
        ElfFault::Short => "Short",
        ElfFault::Magic => "Magic",
        ElfFault::Class => "Class",
        ElfFault::Order => "Order",
        ElfFault::Version => "Version",
        ElfFault::FileType => "FileType",
        ElfFault::Machine => "Machine",
        ElfFault::Compressed => "Compressed",
        ElfFault::HeaderSize => "HeaderSize",
        ElfFault::Table => "Table",
        ElfFault::Interp => "Interp",
        ElfFault::Entry => "Entry",
        ElfFault::NoMemory => "NoMemory",
    };
    format!(in alloc; "elf {name}\n")
}

/// What is wrong in a line of a text that is assembled.
fn asm_kind_name(kind: AsmKind) -> &'static str
    ensures { result.now ≡ asm_kind_text kind }
{
    match kind {
        AsmKind::Byte => "Byte",
        AsmKind::Label => "Label",
        AsmKind::Word => "Word",
        AsmKind::Operands => "Operands",
        AsmKind::TooLong => "TooLong",
        AsmKind::Unknown => "Unknown",
        AsmKind::Range => "Range",
    }
}

/// The line of a text's fault: its line's number, and what is wrong in it.
fn asm_line(alloc: Global, line: u32, kind: AsmKind) -> Result<String, AllocError>
    ensures { IfOk result (λ text. string_bytes text ≡ asm_line line kind) }
{
    let kind = asm_kind_name(kind);
    format!(in alloc; "asm line {line} {kind}\n")
}

/// What is wrong with a line of a text that is no trace's.
fn trace_kind_name(kind: TraceKind) -> &'static str
    ensures { result.now ≡ trace_kind_text kind }
{
    match kind {
        TraceKind::Form => "Form",
        TraceKind::Range => "Range",
        TraceKind::Cut => "Cut",
        TraceKind::Extra => "Extra",
    }
}

/// The line of a text that is no trace's.
fn trace_line(alloc: Global, line: u64, kind: TraceKind) -> Result<String, AllocError>
    ensures { IfOk result (λ text. string_bytes text ≡ trace_text line kind) }
{
    let name = trace_kind_name(kind);
    format!(in alloc; "trace line {line} {name}\n")
}

/// The line of a trace that fails.
fn fails_line(alloc: Global, line: u64, found: u64, wanted: u64) -> Result<String, AllocError>
    ensures { IfOk result (λ text. string_bytes text ≡ fails_text line found wanted) }
{
    format!(in alloc; "fails line {line} found {found} wanted {wanted}\n")
}

/// The text of a refusal: None where none is printed.
pub(crate) fn refusal_text(alloc: Global, refusal: &Refusal) -> Result<Option<String>, AllocError>
    ensures text { IfOk result (λ text. option_map string_bytes text ≡ refusal_text refusal.now) }
    ensures err { OnErr result (IsSome (refusal_text refusal.now)) }
{
    let text = match refusal {
        Refusal::Usage { word } => format!(in alloc; "usage word {word}\n")?,
        Refusal::OutOfRange(setting) => {
            let name = setting_name(*setting);
            format!(in alloc; "setting {name}\n")?
        }
        Refusal::NumberOutOfRange(name) => {
            let name = name.text();
            format!(in alloc; "setting {name}\n")?
        }
        Refusal::Assembler { line, kind } => asm_line(alloc, *line, *kind)?,
        Refusal::Trace { line, kind } => trace_line(alloc, *line, *kind)?,
        Refusal::Fails {
            line,
            found,
            wanted,
        } => fails_line(alloc, *line, *found, *wanted)?,
        Refusal::Elf(fault) => fault_line(alloc, fault)?,
        Refusal::KeyLength { length } => format!(in alloc; "key length {length}\n")?,
        Refusal::TooLong(source) => {
            let name = source.name().text();
            format!(in alloc; "long {name}\n")?
        }
        Refusal::Host | Refusal::NoMemory => return Ok(None),
    };
    Ok(Some(text))
}
