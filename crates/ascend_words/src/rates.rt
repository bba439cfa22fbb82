//! The rates of the command line: numbers with a comma between each two.

ghost use Rattle.std.specs.Prelude.{◌≡◌, ◌<◌, ◌++◌, ◌∷◌, [], ℕ, List, length, option_map};
ghost use Rattle.ascend_words.specs.Numbers.{number_of, rates_of, wide_rates};

use crate::number::number;
use asc_base::WideRates;

/// The most rates.
const MOST: usize = 16;

/// No rate yet.
fn no_rates() -> WideRates
    ensures { result ≡ wide_rates [] }
{
    WideRates {
        list: [0; MOST],
        count: 0,
    }
}

/// One rate more than these.
fn with_rate(rates: WideRates, rate: u64) -> WideRates
    requires { rates.count < 16 }
    ensures { (numbers : List ℕ) → rates ≡ wide_rates numbers → result ≡ wide_rates (numbers ++ rate ∷ []) }
{
    let mut list = rates.list;
    list[rates.count as usize] = rate;
    WideRates {
        list,
        count: rates.count + 1,
    }
}

/// The rates that are written so: one to sixteen numbers with a comma between each two.
pub(crate) fn rates(text: &str) -> Option<WideRates>
    ensures { result ≡ option_map wide_rates (rates_of text.now) }
{
    let mut found = no_rates();
    let mut rest = text;
    for _ in 0..MOST {
        match rest.split_once(',') {
            Some((part, more)) => match number(part) {
                Some(rate) => {
                    found = with_rate(found, rate);
                    rest = more;
                }
                None => return None,
            },
            None => return last(found, rest),
        }
    }
    None
}

/// These rates with the last one, which is written so.
fn last(found: WideRates, rest: &str) -> Option<WideRates>
    requires { found.count < 16 }
    ensures { (numbers : List ℕ) → found ≡ wide_rates numbers
        → result ≡ option_map (λ rate. wide_rates (numbers ++ rate ∷ [])) (number_of rest.now) }
{
    match number(rest) {
        Some(rate) => Some(with_rate(found, rate)),
        None => None,
    }
}
