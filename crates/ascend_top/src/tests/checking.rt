//! The command `check` of traces whose lines are computed from the text of the rule.

use super::*;

/// The header of the default settings, and no access.
const IDLE: &str =
    "ascend trace 1\nlevels 13\nrates 256 1024 4096 16384\nfirst 3\nepoch 65536\nleak 16\nend 12\n";

/// A header of slots of 496 cycles.
const HEADER: &str =
    "ascend trace 1\nlevels 5\nrates 256 1024 4096 16384\nfirst 0\nepoch 32768\nleak 2\n";

/// The lines of 53 slots under the least rate, and from the 45th on under the greatest, of which the second starts so.
fn dummies(alloc: Global, second: u64) -> Result<String, AllocError> {
    let mut text = format!(in alloc; "{HEADER}access 256 0 12\naccess {second} 1 12\n")?;
    for index in 2..44u64 {
        let start = 256 + 752 * index;
        write!(text, "access {start} 31 12\n")?;
    }
    for index in 0..9u64 {
        let start = 49_472 + 16_880 * index;
        write!(text, "access {start} 7 12\n")?;
    }
    Ok(text)
}

/// Checks a file with these bytes on a host whose calls of these numbers fail, and compares the status and what is
/// printed.
fn compare_check<R: Abort>(
    rt: &R,
    alloc: Global,
    failing: &[u64],
    trace: &[u8],
    status: u8,
    printed: &str,
) -> Result<(), Fail> {
    let mut host = MemHost::new(alloc, failing.to_vec(alloc)?);
    host.add("t", trace)?;
    compare(rt, alloc, "check trace=t", &mut host, status, printed, None)
}

#[test]
fn traces_are_checked(rt: HostRuntime) -> Result<(), Fail> {
    let alloc = rt.alloc();
    compare_check(&rt, alloc, &[], IDLE.as_bytes(), 0, "holds code 0 bits 0\n")?;
    let mut whole = dummies(alloc, 1_008)?;
    compare_check(&rt, alloc, &[], whole.as_bytes(), 4, "trace line 60 Cut\n")?;
    write!(whole, "end 200000\n")?;
    compare_check(
        &rt,
        alloc,
        &[],
        whole.as_bytes(),
        0,
        "holds code 3 bits 2\n",
    )?;
    let mut late = dummies(alloc, 1_009)?;
    write!(late, "end 200000\n")?;
    let fails = "fails line 8 found 1009 wanted 1008\n";
    compare_check(&rt, alloc, &[], late.as_bytes(), 12, fails)?;
    // each call of the host fails in turn: after `fails` its status stays
    compare_check(&rt, alloc, &[1], whole.as_bytes(), 5, "")?;
    compare_check(&rt, alloc, &[2], whole.as_bytes(), 5, "")?;
    compare_check(&rt, alloc, &[2], late.as_bytes(), 12, "")
}

#[test]
fn texts_are_refused(rt: HostRuntime) -> Result<(), Fail> {
    let alloc = rt.alloc();
    for (text, printed) in [
        ("", "trace line 1 Cut\n"),
        ("ascend trace 2\n", "trace line 1 Form\n"),
        ("ascend trace 1\nlevels 21\n", "trace line 2 Range\n"),
    ] {
        compare_check(&rt, alloc, &[], text.as_bytes(), 4, printed)?;
    }
    let mut more = String::from_str(alloc, IDLE)?;
    write!(more, "end 12\n")?;
    compare_check(&rt, alloc, &[], more.as_bytes(), 4, "trace line 8 Extra\n")
}
