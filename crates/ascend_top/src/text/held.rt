ghost use Rattle.std.specs.Prelude.{◌≡◌, IfOk, string_bytes};
ghost use Rattle.ascend_top.specs.Texts.{held_text};

use crate::commands::check::Held;
use std::alloc::{AllocError, Global};

/// The text of a trace that holds.
pub(crate) fn held_text(alloc: Global, held: Held) -> Result<String, AllocError>
    ensures { IfOk result (λ text. string_bytes text ≡ held_text held.code held.bits) }
{
    let code = held.code;
    let bits = held.bits;
    format!(in alloc; "holds code {code} bits {bits}\n")
}
