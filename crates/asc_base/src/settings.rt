ghost use Rattle.std.specs.Prelude.{◌≡◌, ℕ, ◌+◌, ◌-◌, ◌/◌, ◌<◌, ◌≤◌, ◌↔◌, IsTrue, IsNone, IfSome, IsOk, IfOk, Err};
ghost use Rattle.std.specs.Prelude.{length, take, drop, replicate};
ghost use Rattle.std.specs.List.Sorted.{IsStrictlyIncreasing};
ghost use Rattle.asc_base.specs.declared.settings.Setting.{Setting as SettingValue};
ghost use Rattle.asc_base.specs.Shape.{IsShape, shape_of};
ghost use Rattle.asc_base.specs.Settings.{IsPowerTo, IsFromTo, AreRates, InRange, AreBefore, AreAllowed};
ghost use Rattle.asc_base.specs.Settings.{IsFirstFault, IsConfig, greatest_rate, narrow_rates, config_of};

use crate::shape::Shape;

/// The rates of a configuration: the cycles from a slot's end to the next slot's start.
#[derive(Clone, Copy, Debug, PartialEq, Eq)]
pub struct Rates {
    /// The rates, rising; 0 from `count` on.
    pub list: [u32; 16],
    /// How many there are: 1, 2, 4, 8 or 16.
    pub count: u32,
}

/// Rates as they were given, before any range is tested.
#[derive(Clone, Copy, Debug, PartialEq, Eq)]
pub struct WideRates {
    /// The rates; those from `count` on don't matter.
    pub list: [u64; 16],
    /// How many there are.
    pub count: u32,
}

/// The settings as they were given, before any range is tested.
#[derive(Clone, Copy, Debug, PartialEq, Eq)]
pub struct Settings {
    /// The bytes of memory: 4,096 to 16,777,216, a multiple of 4,096.
    pub size: u64,
    /// The first address of memory: a multiple of 4,096, and `base + size` is at most 4,294,901,760.
    pub base: u64,
    /// The sets of the cache: a power of two, at most 1,024.
    pub sets: u64,
    /// The ways of the cache: 1 to 16.
    pub ways: u64,
    /// The blocks in the lookaside buffer: 1 to 4,096.
    pub plb: u64,
    /// The most blocks of the top layer, whose counters are on chip: 1 to 4,096.
    pub roots: u64,
    /// The bits of an individual counter: 2 to 14.
    pub ic: u64,
    /// The most entries that stay in the stash after a slot: 0 to 4,096.
    pub stash: u64,
    /// The most instructions: 0 to 1,000,000,000.
    pub budget: u64,
    /// The cycles of the run: 1 to 268,435,456.
    pub time: u64,
    /// The bits that the choices of rates may tell: 0 to 60.
    pub leak: u64,
    /// The rates: 1, 2, 4, 8 or 16 strictly rising numbers, 64 to 1,048,576.
    pub rates: WideRates,
    /// The place of the first rate in the list: below the number of rates.
    pub first: u64,
    /// The cycles of the first epoch: from a slot's length plus the greatest rate to 268,435,456.
    pub epoch: u64,
}

/// The name of a setting.
#[derive(Clone, Copy, Debug, PartialEq, Eq)]
pub enum Setting {
    /// The bytes of memory.
    Size,
    /// The first address of memory.
    Base,
    /// The sets of the cache.
    Sets,
    /// The ways of the cache.
    Ways,
    /// The blocks in the lookaside buffer.
    Plb,
    /// The most blocks of the top layer.
    Roots,
    /// The bits of an individual counter.
    Ic,
    /// The most entries that stay in the stash.
    Stash,
    /// The most instructions.
    Budget,
    /// The cycles of the run.
    Time,
    /// The bits that the choices may tell.
    Leak,
    /// The rates.
    Rates,
    /// The place of the first rate.
    First,
    /// The cycles of the first epoch.
    Epoch,
}

/// Settings that are all in their ranges, with the shape of their tree.
#[derive(Clone, Copy, Debug, PartialEq, Eq)]
pub struct Config {
    /// The bytes of memory.
    pub size: u32,
    /// The first address of memory.
    pub base: u32,
    /// The sets of the cache.
    pub sets: u32,
    /// The ways of the cache.
    pub ways: u32,
    /// The blocks in the lookaside buffer.
    pub plb: u32,
    /// The most blocks of the top layer.
    pub roots: u32,
    /// The bits of an individual counter.
    pub ic: u32,
    /// The most entries that stay in the stash after a slot.
    pub stash: u32,
    /// The most instructions.
    pub budget: u64,
    /// The cycles of the run.
    pub time: u64,
    /// The bits that the choices of rates may tell.
    pub leak: u32,
    /// The rates.
    pub rates: Rates,
    /// The place of the first rate in the list.
    pub first: u32,
    /// The cycles of the first epoch.
    pub epoch: u64,
    /// The shape of the tree: that of `size / 64` lines.
    pub shape: Shape,
}

/// The settings in the order in which they are tested.
const TABLE: [Setting; 14] = [
    Setting::Size,
    Setting::Base,
    Setting::Sets,
    Setting::Ways,
    Setting::Plb,
    Setting::Roots,
    Setting::Ic,
    Setting::Stash,
    Setting::Budget,
    Setting::Time,
    Setting::Leak,
    Setting::Rates,
    Setting::First,
    Setting::Epoch,
];

impl Config {
    /// The configuration with these settings, and the shape of `size / 64` lines under `roots`.
    ///
    /// Err exactly where a setting isn't in its range; it names the first, in the order of the fields of `Settings`.
    pub fn check(settings: &Settings) -> Result<Config, Setting>
        ensures fault { (setting : SettingValue) → (result ≡ Err setting) ↔ IsFirstFault settings.now setting }
        ensures allowed { IsOk result ↔ AreAllowed settings.now }
        ensures config { IfOk result (λ config. config ≡ config_of settings.now) }
        ensures is_config { IfOk result IsConfig }
    {
        if let Some(fault) = settings.first_fault() {
            return Err(fault);
        }
        Ok(settings.config())
    }
}

impl Settings {
    /// The first setting that isn't in its range, and none where all are.
    fn first_fault(&self) -> Option<Setting>
        ensures none { IsNone result → AreAllowed self.now }
        ensures first { IfSome result (IsFirstFault self.now) }
    {
        for setting in TABLE {
            if !self.allows(setting) {
                return Some(setting);
            }
        }
        None
    }

    /// Whether a setting is in its range.
    fn allows(&self, setting: Setting) -> bool
        requires { AreBefore self.now setting }
        ensures { IsTrue result ↔ InRange self.now setting }
    {
        match setting {
            Setting::Size => is_from_to(self.size, 4_096, 16_777_216) && self.size % 4_096 == 0,
            Setting::Base => self.base % 4_096 == 0 && self.base <= 4_294_901_760 - self.size,
            Setting::Sets => is_power_to(self.sets, 10),
            Setting::Ways => is_from_to(self.ways, 1, 16),
            Setting::Plb => is_from_to(self.plb, 1, 4_096),
            Setting::Roots => is_from_to(self.roots, 1, 4_096),
            Setting::Ic => is_from_to(self.ic, 2, 14),
            Setting::Stash => self.stash <= 4_096,
            Setting::Budget => self.budget <= 1_000_000_000,
            Setting::Time => is_from_to(self.time, 1, 268_435_456),
            Setting::Leak => self.leak <= 60,
            Setting::Rates => self.rates.are_allowed(),
            Setting::First => self.first < self.rates.count as u64,
            Setting::Epoch => self.allows_epoch(),
        }
    }

    /// Whether the first epoch is in its range.
    fn allows_epoch(&self) -> bool
        requires { AreBefore self.now Setting.Epoch }
        ensures { IsTrue result ↔ InRange self.now Setting.Epoch }
    {
        let shape = self.shape();
        is_from_to(
            self.epoch,
            shape.olat() + self.rates.greatest(),
            268_435_456,
        )
    }

    /// The shape of the tree: that of `size / 64` lines.
    fn shape(&self) -> Shape
        requires size { InRange self.now Setting.Size }
        requires roots { InRange self.now Setting.Roots }
        ensures shape { result ≡ shape_of (self.now.size / 64) self.now.roots }
        ensures is_shape { IsShape result }
    {
        match Shape::new((self.size / 64) as u32, self.roots as u32) {
            Some(shape) => shape,
            None => unreachable!(),
        }
    }

    /// The configuration of settings that are all in their ranges.
    fn config(&self) -> Config
        requires { AreAllowed self.now }
        ensures config { result ≡ config_of self.now }
        ensures is_config { IsConfig result }
    {
        let rates = self.rates.narrowed();
        let shape = self.shape();
        Config {
            size: self.size as u32,
            base: self.base as u32,
            sets: self.sets as u32,
            ways: self.ways as u32,
            plb: self.plb as u32,
            roots: self.roots as u32,
            ic: self.ic as u32,
            stash: self.stash as u32,
            budget: self.budget,
            time: self.time,
            leak: self.leak as u32,
            rates,
            first: self.first as u32,
            epoch: self.epoch,
            shape,
        }
    }
}

impl WideRates {
    /// Whether these are 1, 2, 4, 8 or 16 strictly rising numbers from 64 to 1,048,576.
    fn are_allowed(&self) -> bool
        ensures { IsTrue result ↔ AreRates self.now.list self.now.count }
    {
        if !is_power_to(self.count as u64, 4) {
            return false;
        }
        let rates = &self.list[..self.count as usize];
        rise(rates) && rates.iter().all(|rate| is_from_to(*rate, 64, 1_048_576))
    }

    /// The greatest rate.
    fn greatest(&self) -> u64
        requires { AreRates self.now.list self.now.count }
        ensures { result ≡ greatest_rate self.now.list self.now.count }
    {
        self.list[..self.count as usize]
            .iter()
            .fold(0, |greatest, rate| greatest.max(*rate))
    }

    /// The rates in 32 bits each, with zeros in the places that are left.
    fn narrowed(&self) -> Rates
        requires { AreRates self.now.list self.now.count }
        ensures rates { result ≡ narrow_rates self.now }
        ensures kept { take result.count result.list ≡ take self.now.count self.now.list }
        ensures rest { drop result.count result.list ≡ replicate (16 - result.count) 0 }
        ensures sixteen { length result.list ≡ 16 }
    {
        let mut list = [0; 16];
        for place in 0..self.count as usize {
            list[place] = self.list[place] as u32;
        }
        Rates {
            list,
            count: self.count,
        }
    }
}

/// Whether each number is below the next.
fn rise(numbers: &[u64]) -> bool
    ensures { IsTrue result ↔ IsStrictlyIncreasing numbers.now }
{
    for place in 1..numbers.len() {
        if numbers[place - 1] >= numbers[place] {
            return false;
        }
    }
    true
}

/// Whether a number is a power of two, at most `2 ^ most`.
fn is_power_to(number: u64, most: u32) -> bool
    requires { most < 64 }
    ensures { IsTrue result ↔ IsPowerTo most number }
{
    for power in 0..=most {
        if number == 1 << power {
            return true;
        }
    }
    false
}

/// Whether a number is one of `least`, `most` and those between.
fn is_from_to(number: u64, least: u64, most: u64) -> bool
    ensures { IsTrue result ↔ IsFromTo least most number }
{
    least <= number && number <= most
}
