//! The learner of rates: from how long the accesses of an epoch waited it chooses the rate of the next.
//!
//! A choice falls at the first end of a slot in a new epoch, while choices are left; that is the timetable's own
//! rule, which knows no access. Which rate it takes is `learner_rule` of `specs/LearnerRule.antt`, a sum over the
//! accesses since the last choice. A learner keeps the sums alone; `Remembers` of `specs/Learner.antt` ties them to a
//! list of accesses that only contracts carry, and `Follows` ties the learner to the timetable. Epochs, rates and the
//! rule are this project's own.
#![tactic(auto)]

ghost use Rattle.std.specs.Prelude.{◌≡◌, ℕ, ◌+◌, ◌-◌, ◌^◌, ◌<◌, ◌≤◌, IfSome, take};
ghost use Rattle.std.specs.Int.{abs_diff};
ghost use Rattle.asc_base.specs.declared.settings.Config.{Config as ConfigValue};
ghost use Rattle.asc_base.specs.Settings.{AreRates, IsConfig, IsFromTo};
ghost use Rattle.bus_schedule.specs.Timetable.{public_of, rate_at, first_beat};
ghost use Rattle.epoch_learner.specs.LearnerRule.{waiting, real_count, nearest};
ghost use Rattle.epoch_learner.specs.Heard.{Heard};
ghost use Rattle.epoch_learner.specs.Learner.{IsLearnerOf, IsLearner, learner_at_start, after_access, chosen_at};
ghost use Rattle.epoch_learner.specs.Learner.{after_end, choice_by_sums, choice_at, Remembers, Follows};

use asc_base::{Config, Rates};
use bus_schedule::{epoch_of, most_choices, with_digit};

mod laws;
mod stand_laws;
#[cfg(test)]
mod tests;

pub use laws::{
    choices_are_few, choices_take_the_nearest, codes_grow, ends_follow, learners_choose_by_rule,
    learners_follow, learners_remember, logs_are_remembered, logs_go_on, nearest_is_near,
    rule_rows,
};
pub use stand_laws::{
    first_slot_stands, learners_stand, next_slots_follow, stands_begin, stands_end, stands_go_on,
    stands_keep_pace, sums_stay_small,
};

/// A learner of rates. Times are in cycles.
#[derive(Clone, Copy, Debug, PartialEq, Eq)]
pub struct Learner {
    /// The rates that it chooses from.
    pub rates: Rates,
    /// The length of epoch 0.
    pub epoch: u64,
    /// The length of a slot.
    pub olat: u64,
    /// How many choices are allowed.
    pub most: u32,
    /// How many fell.
    pub choices: u32,
    /// The rate in force.
    pub rate: u32,
    /// The indices chosen, as the digits of a number to the base of the number of rates, the first the least.
    pub code: u64,
    /// The greatest epoch of an end so far.
    pub reached: u32,
    /// The end at which the last choice fell, or 0.
    pub since: u64,
    /// How many real accesses there were since.
    pub real: u64,
    /// How many cycles they waited in all.
    pub waste: u64,
}

impl Learner {
    /// A learner before the first slot, with the first rate of a configuration in force.
    pub fn new(config: &Config) -> Learner
        requires { IsConfig config.now }
        ensures start { result ≡ learner_at_start config.now }
        ensures learner { IsLearnerOf config.now result }
        ensures follows { Follows config.now (first_beat (public_of config.now)) result }
    {
        Learner {
            rates: config.rates,
            epoch: config.epoch,
            olat: config.shape.olat(),
            most: most_choices(config.rates.count, config.leak),
            choices: 0,
            rate: config.rates.list[config.first as usize],
            code: 0,
            reached: 0,
            since: 0,
            real: 0,
            waste: 0,
        }
    }

    /// Takes note of an access: the start of its slot, and when it was asked for, None of a dummy. Both are in
    /// cycles, below 2^40, and `asked` isn't above `start`. Since the last choice there are, with this one, fewer
    /// than 2^32 real accesses, and they waited fewer than 2^60 cycles in all.
    pub fn saw(&mut self, start: u64, asked: Option<u64>)
        requires learner { IsLearner self.old }
        requires time { start < 2 ^ 40 }
        requires waited { IfSome asked (λ time. time ≤ start) }
        requires real { self.old.real + real_count asked < 2 ^ 32 }
        requires waste { self.old.waste + waiting start asked < 2 ^ 60 }
        ensures after { self.new ≡ after_access self.old start asked }
        ensures config { (config : ConfigValue) → IsLearnerOf config self.old → IsLearnerOf config self.new }
        ensures learner { IsLearner self.new }
    {
        if let Some(asked) = asked {
            self.real += 1;
            self.waste += start - asked;
        }
    }

    /// Takes note of the end of a slot. A choice falls there where its epoch is greater than that of every earlier
    /// end and choices are left, and only there; the answer is then the index that it takes, by the rule over the
    /// accesses since the last choice, and that rate is in force. The end is in cycles, below 2^40, and isn't below
    /// the last choice's end.
    pub fn ended(&mut self, end: u64) -> Option<u32>
        requires learner { IsLearner self.old }
        requires time { end < 2 ^ 40 }
        requires later { self.old.since ≤ end }
        requires real { self.old.real < 2 ^ 32 }
        requires waste { self.old.waste < 2 ^ 60 }
        ensures choice { (heard : Heard) → Remembers self.old heard → result ≡ choice_at self.old heard end }
        ensures sums { result ≡ choice_by_sums self.old end }
        ensures after { self.new ≡ after_end self.old end }
        ensures config { (config : ConfigValue) → IsLearnerOf config self.old → IsLearnerOf config self.new }
        ensures learner { IsLearner self.new }
    {
        let epoch = epoch_of(end, self.epoch);
        if epoch <= self.reached || self.most <= self.choices {
            self.reached = self.reached.max(epoch);
            return None;
        }
        let index = self.chosen(end);
        self.rate = self.rates.list[index as usize];
        self.code = with_digit(self.code, self.rates.count, self.choices, index);
        self.choices += 1;
        self.reached = epoch;
        self.since = end;
        self.real = 0;
        self.waste = 0;
        Some(index)
    }

    /// The index that a choice at an end takes, by the sums.
    fn chosen(&self, end: u64) -> u32
        requires learner { IsLearner self.now }
        requires time { end < 2 ^ 40 }
        requires later { self.now.since ≤ end }
        requires real { self.now.real < 2 ^ 32 }
        requires waste { self.now.waste < 2 ^ 60 }
        ensures { result ≡ chosen_at self.now end }
    {
        if self.real == 0 {
            return self.rates.count - 1;
        }
        let busy = self.waste + self.real * self.olat;
        let idle = (end - self.since).saturating_sub(busy);
        nearest_rate(&self.rates, idle / self.real)
    }

    /// The rate in force, in cycles, from 64 to 1,048,576.
    pub fn rate(&self) -> u32
        ensures value { result ≡ self.now.rate }
        ensures bounds { (config : ConfigValue) → IsLearnerOf config self.now → IsFromTo 64 1048576 result }
    {
        self.rate
    }

    /// The code of the choices so far.
    pub fn code(&self) -> u64
        ensures { result ≡ self.now.code }
    {
        self.code
    }

    /// How many choices fell so far.
    pub fn choices(&self) -> u32
        ensures { result ≡ self.now.choices }
    {
        self.choices
    }
}

/// The index of the rate that is nearest to a number, the smaller on a tie.
fn nearest_rate(rates: &Rates, number: u64) -> u32
    requires { AreRates rates.now.list rates.now.count }
    ensures { result ≡ nearest (take rates.now.count rates.now.list) number }
{
    let mut best = 0;
    for index in 1..rates.count {
        if apart(rates, index, number) < apart(rates, best, number) {
            best = index;
        }
    }
    best
}

/// How far the rate with an index is from a number.
fn apart(rates: &Rates, index: u32, number: u64) -> u64
    requires { index < 16 }
    ensures { result ≡ abs_diff number (rate_at rates.now.list index) }
{
    number.abs_diff(u64::from(rates.list[index as usize]))
}
