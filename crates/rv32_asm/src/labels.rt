//! The labels of a text.

ghost use Rattle.std.specs.Prelude.{◌≡◌};
ghost use Rattle.rv32_asm.specs.OperandViews.{text_view};
ghost use Rattle.rv32_asm.specs.Passes.{place_of, labelled};
ghost use Rattle.rv32_asm.specs.PassViews.{labels_of, Gives};

use crate::fault::AsmKind;
use crate::problem::Problem;
use crate::scanning::is_name;
use indexmap::IndexMap;

/// The labels and their places, in the order of their definitions.
pub(crate) type Labels<'t> = IndexMap<&'t [u8], u32>;

/// The place of a label.
pub(crate) fn place_of(name: &[u8], labels: &Labels<'_>) -> Option<u32>
    ensures { result ≡ place_of name.now (labels_of labels.now) }
{
    labels.get(name).copied()
}

/// Defines a line's label, if it has one, at a place.
pub(crate) fn define<'t>(
    label: Option<&'t [u8]>,
    place: u32,
    labels: &mut Labels<'t>,
) -> Result<(), Problem>
    ensures { Gives (λ _. labels_of labels.new) result (labelled (text_view label.entry) place (labels_of labels.old)) }
{
    let Some(name) = label else {
        return Ok(());
    };
    if !is_name(name) || place_of(name, labels).is_some() {
        return Err(Problem::Kind(AsmKind::Label));
    }
    match labels.insert(name, place) {
        Ok(_) => Ok(()),
        Err(_) => Err(Problem::NoMemory),
    }
}
