ghost use Rattle.std.specs.Prelude.{◌≡◌};
ghost use Rattle.std.specs.List.{find, list_any};
ghost use Rattle.std.specs.Str.{bytes_eq};
ghost use Rattle.ascend_words.specs.Tables.{command_text, required, optional, name_text, kind_of, is_same};
ghost use Rattle.ascend_words.specs.Tables.{commanded, named, is_name_of};

/// A command.
#[derive(Clone, Copy, Debug, PartialEq, Eq)]
pub enum Command {
    /// Runs a program on the processor.
    Run,
    /// Runs a program over a plain list of bytes.
    Flat,
    /// Assembles a text.
    Asm,
    /// Prints the statements of a program.
    Disasm,
    /// Checks a trace.
    Check,
    /// Makes a program, and runs it on the processor.
    Gen,
}

/// The name of a word.
#[derive(Clone, Copy, Debug, PartialEq, Eq)]
pub enum Name {
    /// The program, an ELF file.
    Elf,
    /// The file of the key.
    Key,
    /// The file that the output is written to.
    Output,
    /// The file of the program's input.
    Input,
    /// The text that is assembled.
    Text,
    /// The file of a trace.
    Trace,
    /// The file that a made program is written to.
    Save,
    /// Where the assembled program begins.
    At,
    /// The number that a program is made from.
    Seed,
    /// The data words of a made program.
    Words,
    /// The bytes of memory.
    Size,
    /// The first address of memory.
    Base,
    /// The sets of the cache.
    Sets,
    /// The ways of the cache.
    Ways,
    /// The blocks in the lookaside buffer.
    Plb,
    /// The most blocks of the top layer.
    Roots,
    /// The bits of an individual counter.
    Ic,
    /// The most entries that stay in the stash after a slot.
    Stash,
    /// The most instructions.
    Budget,
    /// The cycles of the run.
    Time,
    /// The bits that the choices of rates may tell.
    Leak,
    /// The rates.
    Rates,
    /// The place of the first rate in the list.
    First,
    /// The cycles of the first epoch.
    Epoch,
}

/// What the value of a name is.
#[derive(Clone, Copy, Debug, PartialEq, Eq)]
pub(crate) enum Kind {
    /// The name of a file.
    File,
    /// A number.
    Number,
    /// Numbers with a comma between each two.
    Rates,
}

/// Every command.
const COMMANDS: [Command; 6] = [
    Command::Run,
    Command::Flat,
    Command::Asm,
    Command::Disasm,
    Command::Check,
    Command::Gen,
];

/// Every name.
const NAMES: [Name; 24] = [
    Name::Elf,
    Name::Key,
    Name::Output,
    Name::Input,
    Name::Text,
    Name::Trace,
    Name::Save,
    Name::At,
    Name::Seed,
    Name::Words,
    Name::Size,
    Name::Base,
    Name::Sets,
    Name::Ways,
    Name::Plb,
    Name::Roots,
    Name::Ic,
    Name::Stash,
    Name::Budget,
    Name::Time,
    Name::Leak,
    Name::Rates,
    Name::First,
    Name::Epoch,
];

impl Command {
    /// How the command is written.
    fn text(self) -> &'static str
        ensures { result.now ≡ command_text self }
    {
        match self {
            Command::Run => "run",
            Command::Flat => "flat",
            Command::Asm => "asm",
            Command::Disasm => "disasm",
            Command::Check => "check",
            Command::Gen => "gen",
        }
    }

    fn is_written(self, text: &str) -> bool
        ensures { result ≡ bytes_eq (command_text self) text.now }
    {
        self.text() == text
    }

    /// The names that words of the command have to give.
    pub(crate) fn required(self) -> &'static [Name]
        ensures { result.now ≡ required self }
    {
        match self {
            Command::Run => &[Name::Elf, Name::Key, Name::Output],
            Command::Flat => &[Name::Elf, Name::Output],
            Command::Asm => &[Name::Text, Name::Elf],
            Command::Disasm => &[Name::Elf],
            Command::Check => &[Name::Trace],
            Command::Gen => &[Name::Seed, Name::Words, Name::Key, Name::Output],
        }
    }

    /// The names that they may give besides.
    fn optional(self) -> &'static [Name]
        ensures { result.now ≡ optional self }
    {
        match self {
            Command::Run => &[
                Name::Input,
                Name::Trace,
                Name::Size,
                Name::Base,
                Name::Sets,
                Name::Ways,
                Name::Plb,
                Name::Roots,
                Name::Ic,
                Name::Stash,
                Name::Budget,
                Name::Time,
                Name::Leak,
                Name::Rates,
                Name::First,
                Name::Epoch,
            ],
            Command::Flat => &[Name::Input, Name::Size, Name::Base, Name::Budget],
            Command::Asm => &[Name::At],
            Command::Disasm => &[Name::Size, Name::Base],
            Command::Check => &[],
            Command::Gen => &[
                Name::Save,
                Name::Trace,
                Name::Size,
                Name::Base,
                Name::Sets,
                Name::Ways,
                Name::Plb,
                Name::Roots,
                Name::Ic,
                Name::Stash,
                Name::Budget,
                Name::Time,
                Name::Leak,
                Name::Rates,
                Name::First,
                Name::Epoch,
            ],
        }
    }

    /// The command that is written so.
    pub(crate) fn written(text: &str) -> Option<Command>
        ensures { result ≡ commanded text.now }
    {
        first_command(&COMMANDS, text)
    }

    /// Whether the name is one of the command's.
    pub(crate) fn has(self, name: Name) -> bool
        ensures { result ≡ is_name_of self name }
    {
        name.is_among(self.required()) || name.is_among(self.optional())
    }
}

impl Name {
    /// How the name is written.
    pub fn text(self) -> &'static str
        ensures { result.now ≡ name_text self }
    {
        match self {
            Name::Elf => "elf",
            Name::Key => "key",
            Name::Output => "output",
            Name::Input => "input",
            Name::Text => "text",
            Name::Trace => "trace",
            Name::Save => "save",
            Name::At => "at",
            Name::Seed => "seed",
            Name::Words => "words",
            Name::Size => "size",
            Name::Base => "base",
            Name::Sets => "sets",
            Name::Ways => "ways",
            Name::Plb => "plb",
            Name::Roots => "roots",
            Name::Ic => "ic",
            Name::Stash => "stash",
            Name::Budget => "budget",
            Name::Time => "time",
            Name::Leak => "leak",
            Name::Rates => "rates",
            Name::First => "first",
            Name::Epoch => "epoch",
        }
    }

    fn is_written(self, text: &str) -> bool
        ensures { result ≡ bytes_eq (name_text self) text.now }
    {
        self.text() == text
    }

    /// What its value is.
    pub(crate) fn kind(self) -> Kind
        ensures { result ≡ kind_of self }
    {
        match self {
            Name::Elf
            | Name::Key
            | Name::Output
            | Name::Input
            | Name::Text
            | Name::Trace
            | Name::Save => Kind::File,
            Name::Rates => Kind::Rates,
            Name::At
            | Name::Seed
            | Name::Words
            | Name::Size
            | Name::Base
            | Name::Sets
            | Name::Ways
            | Name::Plb
            | Name::Roots
            | Name::Ic
            | Name::Stash
            | Name::Budget
            | Name::Time
            | Name::Leak
            | Name::First
            | Name::Epoch => Kind::Number,
        }
    }

    /// The name that is written so.
    pub(crate) fn written(text: &str) -> Option<Name>
        ensures { result ≡ named text.now }
    {
        first_name(&NAMES, text)
    }

    /// Whether the two are the same.
    pub(crate) fn is(self, other: Name) -> bool
        ensures { result ≡ is_same self other }
    {
        self == other
    }

    /// Whether it is one of these.
    fn is_among(self, names: &[Name]) -> bool
        ensures { result ≡ list_any (λ other. is_same other self) names.now }
    {
        names.iter().any(|other| other.is(self))
    }
}

/// The first of these commands that is written so.
fn first_command(commands: &[Command], text: &str) -> Option<Command>
    ensures { result ≡ find (λ command. bytes_eq (command_text command) text.now) commands.now }
{
    commands
        .iter()
        .copied()
        .find(|command| command.is_written(text))
}

/// The first of these names that is written so.
fn first_name(names: &[Name], text: &str) -> Option<Name>
    ensures { result ≡ find (λ name. bytes_eq (name_text name) text.now) names.now }
{
    names.iter().copied().find(|name| name.is_written(text))
}
