use super::*;
use std::alloc::{AllocError, Global};
use std::test::Fail;

/// Words that are right: the line, and the text of `output`.
const READ: [(&str, Command, &str); 13] = [
    ("run elf=a key=k output=o", Command::Run, "o"),
    ("run output=o key=k elf=a", Command::Run, "o"),
    ("run key=k output=o elf=a", Command::Run, "o"),
    ("run key=k output== elf=a", Command::Run, "="),
    ("run key=elf=a output=run elf=a", Command::Run, "run"),
    ("flat elf=a output=o", Command::Flat, "o"),
    ("flat size=0 output=size=1 elf=a", Command::Flat, "size=1"),
    ("flat elf=a output=o budget=9999999999", Command::Flat, "o"),
    (
        "run elf=a key=k output=o input=i size=1 base=2 budget=3",
        Command::Run,
        "o",
    ),
    (
        "run elf=a key=k output=o trace=t sets=1 ways=2 plb=3 roots=4 ic=5 stash=6 time=7 leak=8 first=9 epoch=0",
        Command::Run,
        "o",
    ),
    (
        "run rates=1,2,3,4,5,6,7,8,9,10,11,12,13,14,15,9999999999 elf=a key=k output=o",
        Command::Run,
        "o",
    ),
    ("gen seed=0 words=1 key=k output=o", Command::Gen, "o"),
    (
        "gen save=s trace=t size=1 rates=2 output=o words=9999999999 key=k seed=9999999999",
        Command::Gen,
        "o",
    ),
];

/// Words that are wrong: the line, and the number of the first word that breaks a rule.
const REFUSED: [(&str, u64); 49] = [
    ("", 1),
    ("run", 2),
    ("flat", 2),
    ("walk elf=a key=k output=o", 1),
    ("Run elf=a key=k output=o", 1),
    ("check", 2),
    ("elf=a key=k output=o", 1),
    ("run elf=a elf=b", 3),
    ("run elf=a elf=a key=k output=o", 3),
    ("run elf=a key=k output=o plb=01", 5),
    ("run elf=a key=k output=o trace=", 5),
    ("run elf=a key=k output=o plb=1 plb=1", 6),
    ("run elf=a key=k output=o rates=", 5),
    ("run elf=a key=k output=o rates=1,", 5),
    ("run elf=a key=k output=o rates=,1", 5),
    ("run elf=a key=k output=o rates=1,02", 5),
    ("flat elf=a output=o trace=t", 4),
    ("flat elf=a key=k output=o", 3),
    ("run elf= key=k output=o", 2),
    ("run elf=a key=k input= output=o", 4),
    ("run elf=a key=k", 4),
    ("run output=o", 3),
    ("flat elf=a", 3),
    ("run =x", 2),
    ("run elf", 2),
    ("run Elf=a key=k output=o", 2),
    ("run key=k key=l elf= output=o", 3),
    ("run key=k elf= key=l output=o", 3),
    ("run elf=a run key=k", 3),
    ("run elf=a key=k output=o budget=01", 5),
    (
        "run elf=a key=k output=o rates=1,2,3,4,5,6,7,8,9,10,11,12,13,14,15,16,17",
        5,
    ),
    ("run elf=a key=k output=o budget=", 5),
    ("run elf=a key=k output=o budget=00", 5),
    ("run elf=a key=k output=o budget=+1", 5),
    ("run elf=a key=k output=o budget=1x", 5),
    ("run elf=a key=k output=o budget=99999999999", 5),
    ("run elf=a key=k output=o size=4096 size=4096", 6),
    ("run size=1 size=x elf=a", 3),
    ("asm text=t", 3),
    ("asm text=t elf=a at=0x10", 4),
    ("asm text=t elf=a size=4096", 4),
    ("disasm elf=a output=o", 3),
    ("check trace=t elf=a", 3),
    ("check elf=a", 2),
    ("gen seed=0 key=k output=o", 5),
    ("gen words=1 key=k output=o", 5),
    ("gen seed=0 words=1 output=o", 5),
    ("gen seed=0 words=1 key=k output=o elf=a", 6),
    ("gen seed=0 words=1 key=k output=o input=i", 6),
];

fn words_of(alloc: Global, line: &str) -> Result<Vec<String>, AllocError> {
    let mut words = Vec::new(alloc);
    for word in line.split_ascii_whitespace() {
        words.push(String::from_str(alloc, word)?)?;
    }
    Ok(words)
}

fn read_line(alloc: Global, line: &str) -> Result<Words, WordFault> {
    match words_of(alloc, line) {
        Ok(words) => read_words(alloc, words.as_slice()),
        Err(_) => Err(WordFault::NoMemory),
    }
}

#[test]
fn right_words_are_read(rt: HostRuntime) -> Result<(), Fail> {
    for (line, command, output) in READ {
        let words = read_line(rt.alloc(), line)?;
        assert!(rt; words.command() == command, "{line}");
        assert!(rt; words.text(Name::Output) == Some(output), "{line}");
    }
    Ok(())
}

#[test]
fn the_first_wrong_word_is_named(rt: HostRuntime) -> Result<(), Fail> {
    for (line, number) in REFUSED {
        match read_line(rt.alloc(), line) {
            Err(WordFault::Usage { word }) => assert!(rt; word == number, "{line}"),
            _ => assert!(rt; false, "{line}"),
        }
    }
    Ok(())
}

#[test]
fn settings_are_the_given_ones_and_else_the_defaults(rt: HostRuntime) -> Result<(), Fail> {
    let words = read_line(rt.alloc(), "flat elf=a output=o base=4294967296 size=4095")?;
    let settings = words.settings();
    assert!(rt; settings.base == 4_294_967_296);
    assert!(rt; settings.size == 4_095);
    assert!(rt; settings.budget == 10_000_000);
    assert!(rt; settings.rates.list[3] == 16_384);
    assert!(rt; words.number(Name::Size) == Some(4_095));
    assert!(rt; words.number(Name::Budget).is_none());
    assert!(rt; words.number(Name::Elf).is_none());
    assert!(rt; words.text(Name::Size).is_none());
    assert!(rt; words.text(Name::Input).is_none());
    assert!(rt; words.text(Name::Elf) == Some("a"));
    let line = "run elf=a key=k output=o rates=70,80 first=1 epoch=900 plb=0 leak=5 time=6 trace=t";
    let words = read_line(rt.alloc(), line)?;
    let settings = words.settings();
    assert!(rt; settings.rates.count == 2);
    assert!(rt; settings.rates.list == [70, 80, 0, 0, 0, 0, 0, 0, 0, 0, 0, 0, 0, 0, 0, 0]);
    assert!(rt; settings.first == 1 && settings.epoch == 900 && settings.plb == 0);
    assert!(rt; settings.leak == 5 && settings.time == 6 && settings.sets == 64);
    assert!(rt; words.text(Name::Trace) == Some("t") && words.text(Name::Rates).is_none());
    assert!(rt; words.number(Name::Rates).is_none() && words.number(Name::Time) == Some(6));
    let words = read_line(rt.alloc(), "asm at=4 elf=a text=t")?;
    assert!(rt; words.command() == Command::Asm && words.number(Name::At) == Some(4));
    assert!(rt; words.text(Name::Text) == Some("t") && words.text(Name::At).is_none());
    let words = read_line(rt.alloc(), "disasm elf=a base=4096")?;
    assert!(rt; words.command() == Command::Disasm && words.settings().base == 4_096);
    let words = read_line(rt.alloc(), "gen seed=0 words=12 key=k output=o save=s")?;
    assert!(rt; words.number(Name::Seed) == Some(0) && words.number(Name::Words) == Some(12));
    assert!(rt; words.text(Name::Save) == Some("s") && words.text(Name::Words).is_none());
    let words = read_line(rt.alloc(), "check trace=t")?;
    assert!(rt; words.command() == Command::Check && words.text(Name::Trace) == Some("t"));
    Ok(())
}
