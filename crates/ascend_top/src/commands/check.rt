//! The command `check`.
ghost use Rattle.ascend_top.specs.Check.{AreHeld, check_steps, held_steps};
ghost use Rattle.ascend_top.specs.Command.{StepsEnd};
ghost use Rattle.ascend_top.specs.Steps.{Shows};

use crate::commands::file_of;
use crate::refusal::Refusal;
use crate::{steps, text};
use asc_outside::Host;
use ascend_words::{Name, Words};
use std::alloc::Global;

/// What a check says of a trace that holds.
#[derive(Clone, Copy, Debug, PartialEq, Eq)]
pub(crate) struct Held {
    /// The least code of the choices that make its slots.
    pub code: u64,
    /// How many bits they tell.
    pub bits: u32,
}

/// The command `check`, up to the first refusal.
pub(crate) fn check<H: Host>(alloc: Global, words: &Words, host: &mut H) -> Result<Held, Refusal>
    ensures { StepsEnd (check_steps words.now.given) (λ held. held_steps held.code held.bits)
        (λ told held. Shows told (λ files. AreHeld words.now.given files held.code held.bits)) result
        (H.state host.old) (H.state host.new) }
{
    let trace = file_of(words, Name::Trace);
    let held = match steps::read_trace(alloc, trace, host) {
        Ok(held) => held,
        Err(refusal) => return Err(refusal),
    };
    let text = match text::held_text(alloc, held) {
        Ok(text) => text,
        Err(_) => return Err(Refusal::NoMemory),
    };
    match steps::print(text.as_bytes(), host) {
        Ok(()) => Ok(held),
        Err(refusal) => Err(refusal),
    }
}
