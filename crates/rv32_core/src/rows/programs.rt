//! Whole programs, and the host calls, over bytes in one vector. `tools/core_rows.py` prints the words and what they
//! do.

ghost use Rattle.std.specs.Prelude.{◌≡◌, length};

use super::{BASE, GOES_ON, SIZE, place, run, trap};
use crate::{Core, Ended, Files, FlatBytes, TrapKind};
use std::alloc::Global;
use std::process::Abort;
use std::test::Fail;

fn exit(status: u8) -> Ended {
    Ended::Exit { status }
}

/// Programs of these words at an entry of a memory from a base on, with a budget.
#[test]
fn programs(rt: HostRuntime) -> Result<(), Fail> {
    let table: [(u32, u32, &[u32], u32, (u32, Ended, u64)); 18] = [
        // addi x5, x0, 2; jalr x0, 0(x5)
        (
            0,
            0,
            &[0x0020_0293, 0x0002_8067],
            10,
            (1, trap(TrapKind::FetchMisaligned, 4), 1),
        ),
        // addi x17, x0, 93; ecall
        (0, 0, &[0x05d0_0893, 0x0000_0073], 10, (2, exit(0), 11)),
        (0, 0, &[0x05d0_0893, 0x0000_0073], 2, (2, exit(0), 11)),
        (0, 0, &[0x05d0_0893, 0x0000_0073], 1, (1, GOES_ON, 1)),
        (0, 0, &[0x05d0_0893, 0x0000_0073], 0, (0, GOES_ON, 0)),
        // addi x10, x0, -1; addi x17, x0, 93; ecall
        (
            0,
            0,
            &[0xfff0_0513, 0x05d0_0893, 0x0000_0073],
            10,
            (3, exit(255), 12),
        ),
        // bne x0, x0, 2; beq x0, x0, 2
        (
            0,
            0,
            &[0x0000_1163, 0x0000_0163],
            10,
            (1, trap(TrapKind::FetchMisaligned, 4), 1),
        ),
        // addi x0, x0, 5; add x0, x2, x2; lui x0, 1; auipc x0, 1; jal x0, 4; lw x0, 0(x0); mul x0, x2, x2;
        // divu x0, x2, x2; auipc x5, 0; jalr x0, 8(x5); slti x0, x0, 1; addi x10, x0, 0; addi x17, x0, 93;
        // ecall
        (
            0,
            0,
            &[
                0x0050_0013,
                0x0021_0033,
                0x0000_1037,
                0x0000_1017,
                0x0040_006f,
                0x0000_2003,
                0x0221_0033,
                0x0221_5033,
                0x0000_0297,
                0x0082_8067,
                0x0010_2013,
                0x0000_0513,
                0x05d0_0893,
                0x0000_0073,
            ],
            20,
            (14, exit(0), 61),
        ),
        // addi x5, x0, 10; add x10, x10, x5; addi x5, x5, -1; bne x5, x0, -8; addi x17, x0, 93; ecall
        (
            0,
            0,
            &[
                0x00a0_0293,
                0x0055_0533,
                0xfff2_8293,
                0xfe02_9ce3,
                0x05d0_0893,
                0x0000_0073,
            ],
            100,
            (33, exit(55), 51),
        ),
        // addi x5, x0, 7; addi x10, x0, 1; mul x10, x10, x5; addi x5, x5, -1; blt x0, x5, -8;
        // addi x6, x0, 60; div x10, x10, x6; addi x6, x0, 47; rem x10, x10, x6; addi x17, x0, 93; ecall
        (
            0,
            0,
            &[
                0x0070_0293,
                0x0010_0513,
                0x0255_0533,
                0xfff2_8293,
                0xfe50_4ce3,
                0x03c0_0313,
                0x0265_4533,
                0x02f0_0313,
                0x0265_6533,
                0x05d0_0893,
                0x0000_0073,
            ],
            100,
            (29, exit(37), 124),
        ),
        // sw x2, 12(x2); lbu x10, 13(x2); addi x17, x0, 93; ecall
        (
            0,
            0,
            &[0x0021_2623, 0x00d1_4503, 0x05d0_0893, 0x0000_0073],
            10,
            (4, exit(15), 15),
        ),
        (
            4096,
            4096,
            &[0x0021_2623, 0x00d1_4503, 0x05d0_0893, 0x0000_0073],
            10,
            (4, exit(31), 15),
        ),
        // auipc x5, 0; lw x6, 20(x5); sw x6, 12(x5); .word 0; ecall; addi x17, x0, 93
        (
            4096,
            4096,
            &[
                0x0000_0297,
                0x0142_a303,
                0x0062_a623,
                0x0000_0000,
                0x0000_0073,
                0x05d0_0893,
            ],
            10,
            (5, exit(0), 16),
        ),
        // addi x0, x0, 0
        (
            0,
            4092,
            &[0x0000_0013],
            10,
            (1, trap(TrapKind::FetchFault, 4096), 1),
        ),
        (
            4096,
            8188,
            &[0x0000_0013],
            10,
            (1, trap(TrapKind::FetchFault, 8192), 1),
        ),
        // fence; jal x1, -4096
        (
            4096,
            8184,
            &[0x0ff0_000f, 0x800f_f0ef],
            10,
            (2, trap(TrapKind::FetchFault, 4092), 3),
        ),
        // lui x5, 0xfffff; jalr x0, 0(x5)
        (
            0,
            0,
            &[0xffff_f2b7, 0x0002_8067],
            10,
            (2, trap(TrapKind::FetchFault, 0xffff_f000), 3),
        ),
        // jal x1, 0
        (0, 0, &[0x0000_00ef], 7, (7, GOES_ON, 14)),
    ];
    let alloc = rt.alloc();
    let mut files = Files::new(alloc, b"", 0)?;
    for (base, entry, words, budget, want) in table {
        assert!(rt; base == 0 || base == BASE);
        assert!(rt; base <= entry);
        assert!(rt; entry < base + SIZE);
        assert!(rt; entry % 4 == 0);
        let mut core = Core::new(entry, base, SIZE, base);
        let at = (entry - base) as usize;
        let mut image = vec![in alloc; 0u8; SIZE as usize]?;
        place(&rt, &mut image, at, words);
        assert!(rt; image.len() == SIZE as usize);
        let mut bytes = FlatBytes::new(alloc, &image, base)?;
        assert_eq!(rt;
            run(&mut core, &mut bytes, &mut files, budget),
            want,
            "entry {entry}"
        );
    }
    Ok(())
}

/// A host call's number and arguments, how it ends, x10 then, its cost, and how many bytes are written by then.
type Call = (u32, [u32; 3], Ended, u32, u64, usize);

/// Makes one of the calls: its four loads, its ECALL and, where the machine goes on, the way back to the loop's start.
fn make_one(rt: &impl Abort, core: &mut Core, bytes: &mut FlatBytes, files: &mut Files, call: &Call)
    requires base { bytes.old.base ≡ core.old.base }
    requires size { length bytes.old.bytes ≡ core.old.size }
    ensures same_base { core.new.base ≡ core.old.base }
    ensures same_size { core.new.size ≡ core.old.size }
    ensures bytes_base { bytes.new.base ≡ bytes.old.base }
    ensures bytes_size { length bytes.new.bytes ≡ length bytes.old.bytes }
{
    let (number, _, ended, answer, cost, written) = *call;
    assert_eq!(rt; run(core, bytes, files, 4), (4, GOES_ON, 8));
    let (_, got, spent) = run(core, bytes, files, 1);
    assert_eq!(rt;
        (got, core.register(10), spent),
        (ended, answer, cost),
        "call {number}"
    );
    assert_eq!(rt; files.output().len(), written, "call {number}");
    if got != GOES_ON {
        return;
    }
    assert_eq!(rt; run(core, bytes, files, 2), (2, GOES_ON, 3));
}

/// Makes these calls by a loop whose ECALL is at 4120, with the first break at 6160 and room for 300 bytes of output.
fn make(rt: &impl Abort, alloc: Global, input: &[u8], calls: &[Call]) -> Result<Files, Fail> {
    let mut image = vec![in alloc; 0u8; SIZE as usize]?;
    // lui x4, 1; addi x4, x4, 128; lw x17, 0(x4); lw x10, 4(x4); lw x11, 8(x4); lw x12, 12(x4); ecall; addi x4, x4, 16;
    // jal x0, -24
    place(
        rt,
        &mut image,
        0,
        &[
            0x0000_1237,
            0x0802_0213,
            0x0002_2883,
            0x0042_2503,
            0x0082_2583,
            0x00c2_2603,
            0x0000_0073,
            0x0102_0213,
            0xfe9f_f06f,
        ],
    );
    assert!(rt; calls.len() < 20);
    for (i, call) in calls.iter().enumerate() {
        place(
            rt,
            &mut image,
            128 + 16 * i,
            &[call.0, call.1[0], call.1[1], call.1[2]],
        );
    }
    assert!(rt; image.len() == SIZE as usize);
    let mut bytes = FlatBytes::new(alloc, &image, BASE)?;
    let mut core = Core::new(BASE, BASE, SIZE, 6160);
    let mut files = Files::new(alloc, input, 300)?;
    assert_eq!(rt; run(&mut core, &mut bytes, &mut files, 2), (2, GOES_ON, 2));
    for call in calls {
        make_one(rt, &mut core, &mut bytes, &mut files, call);
    }
    Ok(files)
}

/// Files and buffers that aren't there, numbers that no call has, the break, the ends of the memory, and the limit of
/// the output.
#[test]
fn calls(rt: HostRuntime) -> Result<(), Fail> {
    let cases: [&[Call]; 6] = [
        &[
            (63, [7, 6144, 1], GOES_ON, 0xffff_fff7, 10, 0),
            (64, [7, 6144, 1], GOES_ON, 0xffff_fff7, 10, 0),
            (64, [0, 6144, 1], GOES_ON, 0xffff_fff7, 10, 0),
            (63, [1, 6144, 1], GOES_ON, 0xffff_fff7, 10, 0),
            (63, [0, 8191, 2], GOES_ON, 0xffff_fff2, 10, 0),
            (64, [2, 8191, 2], GOES_ON, 0xffff_fff2, 10, 0),
            (63, [0, 4095, 1], GOES_ON, 0xffff_fff2, 10, 0),
            (
                64,
                [1, 0xffff_ffff, 0xffff_ffff],
                GOES_ON,
                0xffff_fff2,
                10,
                0,
            ),
            (
                63,
                [7, 0xffff_ffff, 0xffff_ffff],
                GOES_ON,
                0xffff_fff7,
                10,
                0,
            ),
            (63, [0, 0xffff_ffff, 0], GOES_ON, 0, 10, 0),
            (64, [1, 0, 0], GOES_ON, 0, 10, 0),
            (1000, [5, 6, 7], GOES_ON, 0xffff_ffda, 10, 0),
            (0, [5, 6, 7], GOES_ON, 0xffff_ffda, 10, 0),
            (u32::MAX, [5, 6, 7], GOES_ON, 0xffff_ffda, 10, 0),
            (93, [511, 0, 0], exit(255), 511, 10, 0),
        ],
        &[
            (214, [0, 0, 0], GOES_ON, 6160, 10, 0),
            (214, [6159, 0, 0], GOES_ON, 6160, 10, 0),
            (214, [6160, 0, 0], GOES_ON, 6160, 10, 0),
            (214, [7000, 0, 0], GOES_ON, 7000, 10, 0),
            (214, [0, 0, 0], GOES_ON, 7000, 10, 0),
            (214, [8192, 0, 0], GOES_ON, 8192, 10, 0),
            (214, [8193, 0, 0], GOES_ON, 8192, 10, 0),
            (214, [0xffff_ffff, 0, 0], GOES_ON, 8192, 10, 0),
            (214, [6160, 0, 0], GOES_ON, 6160, 10, 0),
            (214, [6159, 0, 0], GOES_ON, 6160, 10, 0),
            (93, [0, 0, 0], exit(0), 0, 10, 0),
        ],
        &[
            (63, [0, 7992, 200], GOES_ON, 200, 210, 0),
            (64, [1, 8191, 1], GOES_ON, 1, 11, 1),
            (64, [1, 8128, 64], GOES_ON, 64, 74, 65),
            (64, [1, 8192, 1], GOES_ON, 0xffff_fff2, 10, 65),
            (93, [1, 0, 0], exit(1), 1, 10, 65),
        ],
        &[
            (64, [1, 7168, 300], GOES_ON, 300, 310, 300),
            (64, [1, 7168, 0], GOES_ON, 0, 10, 300),
            (64, [2, 8192, 1], GOES_ON, 0xffff_fff2, 10, 300),
            (64, [3, 7168, 1], GOES_ON, 0xffff_fff7, 10, 300),
            (
                64,
                [1, 7168, 1],
                trap(TrapKind::OutputLimit, 4120),
                1,
                0,
                300,
            ),
        ],
        &[(
            64,
            [2, 7168, 301],
            trap(TrapKind::OutputLimit, 4120),
            2,
            0,
            0,
        )],
        &[
            (64, [1, 7168, 299], GOES_ON, 299, 309, 299),
            (
                64,
                [1, 7168, 2],
                trap(TrapKind::OutputLimit, 4120),
                1,
                0,
                299,
            ),
        ],
    ];
    let alloc = rt.alloc();
    let input = [1u8; 200];
    for case in cases {
        let _files = make(&rt, alloc, &input, case)?;
    }
    Ok(())
}

/// The input is read into three lines and more, until none is left, and written from three lines and from two.
#[test]
fn echo(rt: HostRuntime) -> Result<(), Fail> {
    let alloc = rt.alloc();
    let mut input = vec![in alloc; 0u8; 200]?;
    for (i, byte) in input.iter_mut().enumerate() {
        *byte = (i * 7 % 251) as u8;
    }
    let calls: [Call; 6] = [
        (63, [0, 6140, 100], GOES_ON, 100, 110, 0),
        (63, [0, 6240, 1000], GOES_ON, 100, 110, 0),
        (63, [0, 6144, 1000], GOES_ON, 0, 10, 0),
        (64, [1, 6140, 130], GOES_ON, 130, 140, 130),
        (64, [2, 6270, 70], GOES_ON, 70, 80, 200),
        (93, [256, 0, 0], exit(0), 256, 10, 200),
    ];
    let files = make(&rt, alloc, &input, &calls)?;
    assert_eq!(rt; files.output(), input.as_slice());
    Ok(())
}
