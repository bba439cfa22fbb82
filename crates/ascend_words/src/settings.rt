ghost use Rattle.std.specs.Prelude.{◌≡◌};
ghost use Rattle.ascend_words.specs.Reading.{pairs};
ghost use Rattle.ascend_words.specs.Settings.{default_settings, number_in, rates_in, settings_of};

use crate::given::{Given, value_of};
use crate::number::number;
use crate::rates::rates;
use crate::table::{Kind, Name};
use asc_base::{Settings, WideRates};

/// The settings of words that give none.
#[tactic(auto, unfolding(crate::specs::Settings::default_settings))]
fn defaults() -> Settings
    ensures { result ≡ default_settings }
{
    Settings {
        size: 1_048_576,
        base: 0,
        sets: 64,
        ways: 8,
        plb: 32,
        roots: 16,
        ic: 14,
        stash: 200,
        budget: 10_000_000,
        time: 268_435_456,
        leak: 16,
        rates: WideRates {
            list: [
                256, 1_024, 4_096, 16_384, 0, 0, 0, 0, 0, 0, 0, 0, 0, 0, 0, 0,
            ],
            count: 4,
        },
        first: 3,
        epoch: 65_536,
    }
}

/// The number that these give the name, where it is that of a number.
pub(crate) fn number_in(given: &[Given], name: Name) -> Option<u64>
    ensures { result ≡ number_in (pairs given.now) name }
{
    match name.kind() {
        Kind::File | Kind::Rates => None,
        Kind::Number => match value_of(given, name) {
            Some(value) => number(value),
            None => None,
        },
    }
}

/// The rates that these give.
fn rates_in(given: &[Given]) -> Option<WideRates>
    ensures { result ≡ rates_in (pairs given.now) }
{
    match value_of(given, Name::Rates) {
        Some(value) => rates(value),
        None => None,
    }
}

/// The settings that these give, and else the defaults.
#[tactic(auto, unfolding(crate::specs::Settings::settings_of))]
pub(crate) fn settings_of(given: &[Given]) -> Settings
    ensures { result ≡ settings_of (pairs given.now) }
{
    let defaults = defaults();
    Settings {
        size: number_in(given, Name::Size).unwrap_or(defaults.size),
        base: number_in(given, Name::Base).unwrap_or(defaults.base),
        sets: number_in(given, Name::Sets).unwrap_or(defaults.sets),
        ways: number_in(given, Name::Ways).unwrap_or(defaults.ways),
        plb: number_in(given, Name::Plb).unwrap_or(defaults.plb),
        roots: number_in(given, Name::Roots).unwrap_or(defaults.roots),
        ic: number_in(given, Name::Ic).unwrap_or(defaults.ic),
        stash: number_in(given, Name::Stash).unwrap_or(defaults.stash),
        budget: number_in(given, Name::Budget).unwrap_or(defaults.budget),
        time: number_in(given, Name::Time).unwrap_or(defaults.time),
        leak: number_in(given, Name::Leak).unwrap_or(defaults.leak),
        rates: rates_in(given).unwrap_or(defaults.rates),
        first: number_in(given, Name::First).unwrap_or(defaults.first),
        epoch: number_in(given, Name::Epoch).unwrap_or(defaults.epoch),
    }
}
