//! The command `gen`.

use super::running::report;
use super::*;
use rv32_asm::generate;

/// The output of the program that is made from 0 with one data word.
const OUTPUT: &str = "~{\x05\x14";

/// The words behind `gen`, the call that fails, the status, what is printed where it is no report, whether the file `p`
/// of the program is written, and whether the program runs.
const ROWS: [(&str, &[u64], u8, &str, bool, bool); 15] = [
    ("seed=0 words=1 key=k output=o", &[], 0, "", false, true),
    (
        "output=o save=p words=1 key=k seed=0",
        &[],
        0,
        "",
        true,
        true,
    ),
    // the key was read before its file is written
    (
        "seed=0 words=1 key=k output=o save=k",
        &[],
        0,
        "",
        false,
        true,
    ),
    (
        "seed=0 words=0 key=k output=o save=p",
        &[],
        4,
        "setting words\n",
        false,
        false,
    ),
    (
        "seed=0 words=65537 key=k output=o save=p",
        &[],
        4,
        "setting words\n",
        false,
        false,
    ),
    (
        "seed=4294967296 words=1 key=k output=o",
        &[],
        4,
        "setting seed\n",
        false,
        false,
    ),
    (
        "words=0 seed=4294967296 key=k output=o",
        &[],
        4,
        "setting seed\n",
        false,
        false,
    ),
    (
        "seed=4294967296 words=1 key=k output=o ic=0",
        &[],
        4,
        "setting ic\n",
        false,
        false,
    ),
    (
        "seed=0 words=0 key=s output=o save=p",
        &[],
        4,
        "setting words\n",
        false,
        false,
    ),
    (
        "seed=0 words=1 key=s output=o save=p",
        &[],
        4,
        "key length 31\n",
        false,
        false,
    ),
    (
        "seed=0 words=1 key=k output=o save=p size=65536",
        &[],
        3,
        "elf Outside 0\n",
        true,
        false,
    ),
    (
        "seed=0 words=1 key=k output=o save=p",
        &[1],
        5,
        "",
        false,
        false,
    ),
    (
        "seed=0 words=1 key=k output=o save=p",
        &[2],
        5,
        "",
        false,
        false,
    ),
    (
        "seed=0 words=1 key=k output=o save=p size=65536",
        &[2],
        5,
        "",
        false,
        false,
    ),
    (
        "seed=0 words=1 key=k output=o size=65536",
        &[2],
        3,
        "",
        false,
        false,
    ),
];

#[test]
fn made_programs_run(rt: HostRuntime) -> Result<(), Fail> {
    let alloc = rt.alloc();
    let made = generate(alloc, 0, 1)?;
    let ten_lines = report(alloc, "exit 0", [29, 57, 57, 0, 0, 0, 0, 0, 0])?;
    for (line, failing, status, printed, saved, runs) in ROWS {
        let mut host = host(alloc, failing, b"")?;
        let words = format!(in alloc; "gen {line}")?;
        let (printed, output) = if runs {
            (ten_lines.as_str(), Some(OUTPUT))
        } else {
            (printed, None)
        };
        compare(&rt, alloc, &words, &mut host, status, printed, output)?;
        let wanted = if saved { Some(made.as_slice()) } else { None };
        assert!(rt; host.file("p") == wanted, "{line}");
    }
    Ok(())
}

/// The greatest program. Its output is the last hash of its data words from 7 on, and the report's numbers are those of
/// a model in Python of cache, walk, timetable and learner.
#[test]
fn the_greatest_program_runs(rt: HostRuntime) -> Result<(), Fail> {
    let alloc = rt.alloc();
    let mut host = host(alloc, &[], b"")?;
    let mut memory = HonestMemory::new(alloc);
    let mut tap = Recorder::new(alloc);
    let words = words(alloc, "gen seed=7 words=65536 key=k output=o")?;
    let ended = ascend(alloc, words.as_slice(), &mut host, &mut memory, &mut tap);
    let numbers = [524_309, 16_917_492, 16_917_492, 4_099, 12_107, 0, 8, 0, 0];
    let printed = report(alloc, "exit 0", numbers)?;
    assert!(rt; ended == 0);
    assert!(rt; host.printed() == printed.as_bytes());
    assert!(rt; host.file("o") == Some([0xbe, 0xc4, 0x33, 0xdc].as_slice()));
    Ok(())
}

#[test]
fn nothing_runs_where_the_program_is_not_saved(rt: HostRuntime) -> Result<(), Fail> {
    let alloc = rt.alloc();
    let mut host = host(alloc, &[2], b"")?;
    let mut memory = HonestMemory::new(alloc);
    let mut tap = Recorder::new(alloc);
    let line = "gen seed=0 words=1 key=k output=o save=p";
    compare_over(
        &rt,
        alloc,
        line,
        &mut host,
        &mut memory,
        &mut tap,
        5,
        "",
        None,
    )?;
    assert!(rt; tap.log().moves.is_empty());
    Ok(())
}

#[test]
fn words_that_meet_the_premises_of_completeness_run(rt: HostRuntime) -> Result<(), Fail> {
    let alloc = rt.alloc();
    let mut outside = outside_with_key(alloc, &[7; 32])?;
    compare_over(
        &rt,
        alloc,
        "gen seed=0 words=1 key=k output=o time=16384",
        &mut outside.host,
        &mut outside.memory,
        &mut outside.tap,
        0,
        report(alloc, "exit 0", [29, 57, 57, 0, 0, 0, 0, 0, 0])?.as_str(),
        Some(OUTPUT),
    )
}
