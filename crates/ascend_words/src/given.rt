ghost use Rattle.std.specs.Prelude.{◌≡◌, ◌↔◌, ℕ, List, IsTrue, MatchOption, IfOk, IfErr, IsOkUnless, option_copied};
ghost use Rattle.std.specs.Prelude.{string_bytes};
ghost use Rattle.std.specs.List.{find};
ghost use Rattle.ascend_words.specs.Grammar.{Pair, HasForm, MayFollow, AreGiven, texts, value_in, word_of};
ghost use Rattle.ascend_words.specs.Reading.{pairs, IsStop};
ghost use Rattle.ascend_words.specs.Tables.{is_same};

use crate::fault::WordFault;
use crate::number::number;
use crate::rates::rates;
use crate::table::{Command, Kind, Name};
use std::alloc::Global;

/// A name and the value that a word gives it.
#[derive(Debug, Drop)]
pub(crate) struct Given {
    pub name: Name,
    pub value: String,
}

/// The first of these that is of the name.
fn first_of(given: &[Given], name: Name) -> Option<&Given>
    ensures { option_copied result ≡ find (λ one. is_same one.name name) given.now }
{
    given.iter().find(|one| one.name.is(name))
}

/// The value that these give the name.
pub(crate) fn value_of(given: &[Given], name: Name) -> Option<&str>
    ensures { option_copied result ≡ value_in (pairs given.now) name }
{
    match first_of(given, name) {
        Some(one) => Some(one.value.as_str()),
        None => None,
    }
}

/// The name and the value of a word: None where it isn't a name, `=` and a value.
fn name_and_value(word: &str) -> Option<(Name, &str)>
    ensures { MatchOption result
        ((pair : Pair) → ¬ (word.now ≡ word_of pair))
        (λ read. word.now ≡ word_of (record { name = read.0; value = read.1.now })) }
{
    let (text, value) = word.split_once('=')?;
    Some((Name::written(text)?, value))
}

/// Whether a value has the form of its kind.
fn has_form(kind: Kind, value: &str) -> bool
    ensures { IsTrue result ↔ HasForm kind value.now }
{
    match kind {
        Kind::File => !value.is_empty(),
        Kind::Number => number(value).is_some(),
        Kind::Rates => rates(value).is_some(),
    }
}

/// Whether the value may be given to the name after these.
fn may_follow(command: Command, given: &[Given], name: Name, value: &str) -> bool
    ensures { IsTrue result ↔ MayFollow command (pairs given.now) (record { name = name; value = value.now }) }
{
    if !command.has(name) {
        return false;
    }
    if value_of(given, name).is_some() {
        return false;
    }
    has_form(name.kind(), value)
}

/// The name and the value of a word that keeps the rules after these.
fn next<'w>(command: Command, given: &[Given], word: &'w str) -> Option<(Name, &'w str)>
    ensures { MatchOption result
        ((pair : Pair) → word.now ≡ word_of pair → ¬ MayFollow command (pairs given.now) pair)
        (λ read. (word.now ≡ word_of (record { name = read.0; value = read.1.now }))
        × MayFollow command (pairs given.now) (record { name = read.0; value = read.1.now })) }
{
    let (name, value) = name_and_value(word)?;
    if !may_follow(command, given, name, value) {
        return None;
    }
    Some((name, value))
}

/// The pair of a word, which owns its value.
fn own(alloc: Global, name: Name, value: &str) -> Result<Given, WordFault>
    ensures ok { IfOk result (λ one. (one.name ≡ name) × (string_bytes one.value ≡ value.now)) }
    ensures only_memory { IsOkUnless result WordFault.NoMemory }
{
    match String::from_str(alloc, value) {
        Ok(value) => Ok(Given { name, value }),
        Err(_) => Err(WordFault::NoMemory),
    }
}

/// The pairs of the words after the command.
pub(crate) fn read_given(
    alloc: Global,
    command: Command,
    words: &[String],
) -> Result<Vec<Given>, WordFault>
    ensures read { IfOk result (λ given. AreGiven command (texts words.now) (pairs given.items)) }
    ensures stop { IfErr result (IsStop command (texts words.now)) }
{
    let mut given = Vec::new(alloc);
    for (index, word) in words.iter().enumerate() {
        let Some((name, value)) = next(command, given.as_slice(), word.as_str()) else {
            return Err(WordFault::Usage {
                word: index as u64 + 2,
            });
        };
        let one = own(alloc, name, value)?;
        match given.push(one) {
            Ok(()) => {}
            Err(_) => return Err(WordFault::NoMemory),
        }
    }
    Ok(given)
}
