ghost use Rattle.std.specs.Prelude.{◌≡◌, ◌⊎◌, ℕ, IsTrue, Ok, Err, IfOk, IfErr, option_copied};
ghost use Rattle.ascend_words.specs.Grammar.{Read, IsFault, IsWords, has_required, texts};
ghost use Rattle.ascend_words.specs.Reading.{pairs, IsFaultOf};
ghost use Rattle.ascend_words.specs.Settings.{text_in, number_in, settings_of};

use crate::fault::WordFault;
use crate::given::{Given, read_given, value_of};
use crate::settings;
use crate::table::{Command, Kind, Name};
use asc_base::Settings;
use std::alloc::Global;
use std::marker::Model;

/// Words that are right: the command, and the names with their values in the order of the words.
#[derive(Debug, Drop)]
pub struct Words {
    command: Command,
    given: Vec<Given>,
    settings: Settings,
}

impl Model for Words {
    ghost use Rattle.ascend_words.specs.Grammar.{Read};

    ghost Value = { Read };

    ghost use Rattle.ascend_words.specs.WordsView.{words_view, KeepsSettings};

    ghost view = { words_view };

    ghost invariant = { KeepsSettings };
}

impl Words {
    /// The command.
    pub fn command(&self) -> Command
        ensures { result ≡ self.now.command }
    {
        self.command
    }

    /// The text that a name is given: None exactly where it is given none, or isn't that of a file.
    pub fn text(&self, name: Name) -> Option<&str>
        ensures { option_copied result ≡ text_in self.now.given name }
    {
        match name.kind() {
            Kind::File => value_of(self.given.as_slice(), name),
            Kind::Number | Kind::Rates => None,
        }
    }

    /// The number that a name is given: None exactly where it is given none, or isn't that of a number.
    pub fn number(&self, name: Name) -> Option<u64>
        ensures { result ≡ number_in self.now.given name }
    {
        settings::number_in(self.given.as_slice(), name)
    }

    /// The settings that are given, and else the defaults.
    pub fn settings(&self) -> &Settings
        ensures { result.now ≡ settings_of self.now.given }
    {
        &self.settings
    }
}

/// Whether each required name has a value.
fn has_required(command: Command, given: &[Given]) -> bool
    ensures { result ≡ has_required (record { command = command; given = pairs given.now }) }
{
    command
        .required()
        .iter()
        .all(|name| value_of(given, *name).is_some())
}

/// Reads the words of the command line, without the program's own name.
///
/// The first word is the command, and each other one is `name=value` with a name of the command, each at most once,
/// in any order; the value is what follows the first `=`. Each required name is given. The value of a file is any text
/// that isn't empty; a number is `0`, or a digit from 1 to 9 and at most nine more digits.
///
/// `Usage` is exact: it names the first word that breaks a rule.
pub fn read_words(alloc: Global, words: &[String]) -> Result<Words, WordFault>
    ensures read { IfOk result (λ read. IsWords (texts words.now) read) }
    ensures fault { IfErr result (IsFaultOf (texts words.now)) }
    ensures accepted { (read : Read) → IsWords (texts words.now) read
        → (result ≡ Ok read) ⊎ (result ≡ Err WordFault.NoMemory) }
    ensures refused { (word : ℕ) → IsFault (texts words.now) word
        → (result ≡ Err (WordFault.Usage word)) ⊎ (result ≡ Err WordFault.NoMemory) }
{
    let Some((first, rest)) = words.split_first() else {
        return Err(WordFault::Usage { word: 1 });
    };
    let Some(command) = Command::written(first.as_str()) else {
        return Err(WordFault::Usage { word: 1 });
    };
    let given = match read_given(alloc, command, rest) {
        Ok(given) => given,
        Err(fault) => return Err(fault),
    };
    if !has_required(command, given.as_slice()) {
        return Err(WordFault::Usage {
            word: words.len() as u64 + 1,
        });
    }
    let settings = settings::settings_of(given.as_slice());
    Ok(Words {
        command,
        given,
        settings,
    })
}
