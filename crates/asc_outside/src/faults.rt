//! Laws of counts of faults. The function does nothing: it states them in its contract.

ghost use Rattle.std.specs.Prelude.{ℕ, ◌-◌, ◌^◌, ◌<◌, ◌≤◌};
ghost use Rattle.asc_outside.specs.Rose.{Rose};

/// A count rose where it is greater than before, and where it stands at its type's end, and nowhere else. Over a
/// stretch in which it never falls it rose where it did so in a part of it.
pub fn counts_rise()
    ensures grown { (before now : ℕ) → before < now → Rose before now }
    ensures full { (before now : ℕ) → 2 ^ 64 - 1 ≤ now → Rose before now }
    ensures only { (before now : ℕ) → Rose before now → now < 2 ^ 64 - 1 → before < now }
    ensures since { (before mid now : ℕ) → before ≤ mid → Rose mid now → Rose before now }
    ensures until { (before mid now : ℕ) → Rose before mid → mid ≤ now → Rose before now }
{}
