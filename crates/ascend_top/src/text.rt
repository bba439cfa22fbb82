//! The texts that commands print.

mod held;
mod refusal;
mod report;
mod run;

pub(crate) use held::held_text;
pub(crate) use refusal::refusal_text;
pub(crate) use report::report_text;
pub(crate) use run::run_text;
