//! Rows of the RISC-V manual's rules and of the costs, over bytes in one vector. `tools/core_rows.py`
//! prints the words, which an outside assembler has too, and what they do, by an interpreter of its own.

ghost use Rattle.std.specs.Prelude.{◌≡◌, length, IfOk};

mod programs;

use super::*;
use std::alloc::Global;
use std::process::Abort;
use std::test::Fail;

/// The bytes of each memory.
const SIZE: u32 = 4096;

/// Where most memories begin.
const BASE: u32 = 4096;

/// A call by which the machine goes on.
const GOES_ON: Ended = Ended::No;

fn trap(kind: TrapKind, pc: u32) -> Ended {
    Ended::Trap { kind, pc }
}

/// Puts words into an image, the least byte of each first.
fn place(rt: &impl Abort, image: &mut Vec<u8>, at: usize, words: &[u32]) {
    assert!(rt; at < SIZE as usize && words.len() < 100);
    for (i, word) in words.iter().enumerate() {
        let from = at + 4 * i;
        assert!(rt; from + 4 <= image.len());
        image[from..from + 4].copy_from_slice(&word.to_le_bytes());
    }
}

/// Steps until an exit, a trap, or so many instructions: how many finished, how the last ended, and the cost of all.
fn run(core: &mut Core, bytes: &mut FlatBytes, files: &mut Files, budget: u32) -> (u32, Ended, u64)
    requires base { bytes.old.base ≡ core.old.base }
    requires size { length bytes.old.bytes ≡ core.old.size }
    ensures same_base { core.new.base ≡ core.old.base }
    ensures same_size { core.new.size ≡ core.old.size }
    ensures bytes_base { bytes.new.base ≡ bytes.old.base }
    ensures bytes_size { length bytes.new.bytes ≡ length bytes.old.bytes }
{
    let mut cost = 0u64;
    for i in 0..budget {
        let done = match core.step(bytes, files) {
            Ok(done) => done,
            Err(never) => match never {},
        };
        cost = cost.wrapping_add(done.cost);
        match done.ended {
            Ended::No => {}
            Ended::Exit { status } => return (i + 1, Ended::Exit { status }, cost),
            trap => return (i, trap, cost),
        }
    }
    (budget, Ended::No, cost)
}

/// A memory with `lui x4, 1; lw x5, 64(x4); lw x6, 68(x4)`, these words, these two values of x5 and x6, and bytes to be
/// loaded at 4224 and at the end.
fn bench(rt: &impl Abort, alloc: Global, words: &[u32], values: [u32; 2]) -> Result<FlatBytes, Fail>
    ensures base { IfOk result (λ bytes. bytes.base ≡ 4096) }
    ensures size { IfOk result (λ bytes. length bytes.bytes ≡ 4096) }
{
    let mut image = vec![in alloc; 0u8; SIZE as usize]?;
    place(rt, &mut image, 0, &[0x0000_1237, 0x0402_2283, 0x0442_2303]);
    place(rt, &mut image, 12, words);
    place(rt, &mut image, 64, &values);
    place(rt, &mut image, 128, &[0x9473_82f1, 0xd867_b605]);
    place(rt, &mut image, 4088, &[0x4b3a_2918, 0x8ffe_6d5c]);
    assert!(rt; image.len() == SIZE as usize);
    Ok(FlatBytes::new(alloc, &image, BASE)?)
}

/// Each word with these values of x5 and x6 makes this of x7, which was 0, at this cost, and the next word follows.
#[test]
fn arithmetic(rt: HostRuntime) -> Result<(), Fail> {
    let table = [
        // div x7, x5, x6
        (0x0262_c3b3, 7, 0, 0xffff_ffff, 34),
        (0x0262_c3b3, 0xffff_fff9, 0, 0xffff_ffff, 34),
        (0x0262_c3b3, 0, 0, 0xffff_ffff, 34),
        // divu x7, x5, x6
        (0x0262_d3b3, 7, 0, 0xffff_ffff, 34),
        (0x0262_d3b3, 0xffff_ffff, 0, 0xffff_ffff, 34),
        // rem x7, x5, x6
        (0x0262_e3b3, 7, 0, 7, 34),
        (0x0262_e3b3, 0xffff_fff9, 0, 0xffff_fff9, 34),
        // remu x7, x5, x6
        (0x0262_f3b3, 0xffff_fff9, 0, 0xffff_fff9, 34),
        // div x7, x5, x6
        (0x0262_c3b3, 0x8000_0000, 0xffff_ffff, 0x8000_0000, 34),
        // rem x7, x5, x6
        (0x0262_e3b3, 0x8000_0000, 0xffff_ffff, 0, 34),
        // divu x7, x5, x6
        (0x0262_d3b3, 0x8000_0000, 0xffff_ffff, 0, 34),
        // remu x7, x5, x6
        (0x0262_f3b3, 0x8000_0000, 0xffff_ffff, 0x8000_0000, 34),
        // div x7, x5, x6
        (0x0262_c3b3, 0xffff_fff9, 2, 0xffff_fffd, 34),
        // rem x7, x5, x6
        (0x0262_e3b3, 0xffff_fff9, 2, 0xffff_ffff, 34),
        // div x7, x5, x6
        (0x0262_c3b3, 7, 0xffff_fffe, 0xffff_fffd, 34),
        // rem x7, x5, x6
        (0x0262_e3b3, 7, 0xffff_fffe, 1, 34),
        // mul x7, x5, x6
        (0x0262_83b3, 0xffff_ffff, 0xffff_ffff, 1, 3),
        // mulh x7, x5, x6
        (0x0262_93b3, 0xffff_ffff, 0xffff_ffff, 0, 3),
        // mulhsu x7, x5, x6
        (0x0262_a3b3, 0xffff_ffff, 0xffff_ffff, 0xffff_ffff, 3),
        // mulhu x7, x5, x6
        (0x0262_b3b3, 0xffff_ffff, 0xffff_ffff, 0xffff_fffe, 3),
        // mulh x7, x5, x6
        (0x0262_93b3, 0x8000_0000, 0x8000_0000, 0x4000_0000, 3),
        // mulhsu x7, x5, x6
        (0x0262_a3b3, 0x8000_0000, 0xffff_ffff, 0x8000_0000, 3),
        // mulhu x7, x5, x6
        (0x0262_b3b3, 0x8000_0000, 0x8000_0000, 0x4000_0000, 3),
        // mulhsu x7, x5, x6
        (0x0262_a3b3, 2, 0xffff_ffff, 1, 3),
        // add x7, x5, x6
        (0x0062_83b3, 0xffff_ffff, 2, 1, 1),
        // sub x7, x5, x6
        (0x4062_83b3, 1, 2, 0xffff_ffff, 1),
        // sll x7, x5, x6
        (0x0062_93b3, 3, 33, 6, 1),
        // srl x7, x5, x6
        (0x0062_d3b3, 0x8000_0000, 31, 1, 1),
        // sra x7, x5, x6
        (0x4062_d3b3, 0x8000_0000, 31, 0xffff_ffff, 1),
        // slt x7, x5, x6
        (0x0062_a3b3, 0xffff_ffff, 0, 1, 1),
        // sltu x7, x5, x6
        (0x0062_b3b3, 0xffff_ffff, 0, 0, 1),
        // xor x7, x5, x6
        (0x0062_c3b3, 0xf0f0_f0f0, 0xff00_ff00, 0x0ff0_0ff0, 1),
        // or x7, x5, x6
        (0x0062_e3b3, 0xf0f0_f0f0, 0xff00_ff00, 0xfff0_fff0, 1),
        // and x7, x5, x6
        (0x0062_f3b3, 0xf0f0_f0f0, 0xff00_ff00, 0xf000_f000, 1),
        // addi x7, x5, -1
        (0xfff2_8393, 0, 0, 0xffff_ffff, 1),
        // slti x7, x5, -1
        (0xfff2_a393, 0xffff_fffe, 0, 1, 1),
        // sltiu x7, x5, -1
        (0xfff2_b393, 0xffff_fffe, 0, 1, 1),
        // xori x7, x5, -1
        (0xfff2_c393, 0x1234_5678, 0, 0xedcb_a987, 1),
        // ori x7, x5, -2048
        (0x8002_e393, 1, 0, 0xffff_f801, 1),
        // andi x7, x5, -2048
        (0x8002_f393, 0x1234_5fff, 0, 0x1234_5800, 1),
        // slli x7, x5, 31
        (0x01f2_9393, 3, 0, 0x8000_0000, 1),
        // srli x7, x5, 31
        (0x01f2_d393, 0xffff_ffff, 0, 1, 1),
        // srai x7, x5, 31
        (0x41f2_d393, 0x8000_0000, 0, 0xffff_ffff, 1),
        // lui x7, 0xfffff
        (0xffff_f3b7, 0, 0, 0xffff_f000, 1),
        // auipc x7, 0
        (0x0000_0397, 0, 0, 4108, 1),
        // auipc x7, 0xfffff
        (0xffff_f397, 0, 0, 12, 1),
        // auipc x7, 0xffffe
        (0xffff_e397, 0, 0, 0xffff_f00c, 1),
        // fence
        (0x0ff0_000f, 0, 0, 0, 1),
        // fence.i
        (0x0000_100f, 0, 0, 0, 1),
        // .word 0x8330000f
        (0x8330_000f, 0, 0, 0, 1),
        // .word 0xfff0928f
        (0xfff0_928f, 0, 0, 0, 1),
    ];
    let alloc = rt.alloc();
    let mut files = Files::new(alloc, b"", 0)?;
    for (word, first, second, want, cost) in table {
        let mut bytes = bench(&rt, alloc, &[word], [first, second])?;
        let mut core = Core::new(BASE, BASE, SIZE, BASE);
        assert_eq!(rt; run(&mut core, &mut bytes, &mut files, 3), (3, GOES_ON, 5));
        assert_eq!(rt;
            run(&mut core, &mut bytes, &mut files, 1),
            (1, GOES_ON, cost)
        );
        assert_eq!(rt; (core.register(7), core.pc()), (want, 4112), "word {word}");
    }
    Ok(())
}

/// The words from 4108 on, so many steps and the values of x5 and x6 make this of x7 and of pc, at this cost.
#[test]
fn jumps(rt: HostRuntime) -> Result<(), Fail> {
    let table: [(&[u32], u32, u32, u32, u32, u32, u64); 31] = [
        // jal x7, 8
        (&[0x0080_03ef], 1, 0, 0, 4112, 4116, 2),
        // jal x7, -12
        (&[0xff5f_f3ef], 1, 0, 0, 4112, 4096, 2),
        // jal x0, 0
        (&[0x0000_006f], 1, 0, 0, 0, 4108, 2),
        // jalr x7, 0(x5)
        (&[0x0002_83e7], 1, 4116, 0, 4112, 4116, 2),
        // jalr x7, 1(x5)
        (&[0x0012_83e7], 1, 4116, 0, 4112, 4116, 2),
        // jalr x7, 0(x5)
        (&[0x0002_83e7], 1, 4117, 0, 4112, 4116, 2),
        // jalr x7, -1(x5)
        (&[0xfff2_83e7], 1, 4118, 0, 4112, 4116, 2),
        // jalr x5, 0(x5); ebreak; addi x7, x5, 0
        (
            &[0x0002_82e7, 0x0010_0073, 0x0002_8393],
            2,
            4116,
            0,
            4112,
            4120,
            3,
        ),
        // jalr x7, 20(x5)
        (&[0x0142_83e7], 1, 0xffff_fff0, 0, 4112, 4, 2),
        // jal x7, 1044480
        (&[0x000f_f3ef], 1, 0, 0, 4112, 0x0010_000c, 2),
        // beq x5, x6, 8
        (&[0x0062_8463], 1, 5, 5, 0, 4116, 2),
        (&[0x0062_8463], 1, 0xffff_ffff, 1, 0, 4112, 1),
        (&[0x0062_8463], 1, 1, 0xffff_ffff, 0, 4112, 1),
        // bne x5, x6, 8
        (&[0x0062_9463], 1, 5, 5, 0, 4112, 1),
        (&[0x0062_9463], 1, 0xffff_ffff, 1, 0, 4116, 2),
        (&[0x0062_9463], 1, 1, 0xffff_ffff, 0, 4116, 2),
        // blt x5, x6, 8
        (&[0x0062_c463], 1, 5, 5, 0, 4112, 1),
        (&[0x0062_c463], 1, 0xffff_ffff, 1, 0, 4116, 2),
        (&[0x0062_c463], 1, 1, 0xffff_ffff, 0, 4112, 1),
        // bge x5, x6, 8
        (&[0x0062_d463], 1, 5, 5, 0, 4116, 2),
        (&[0x0062_d463], 1, 0xffff_ffff, 1, 0, 4112, 1),
        (&[0x0062_d463], 1, 1, 0xffff_ffff, 0, 4116, 2),
        // bltu x5, x6, 8
        (&[0x0062_e463], 1, 5, 5, 0, 4112, 1),
        (&[0x0062_e463], 1, 0xffff_ffff, 1, 0, 4112, 1),
        (&[0x0062_e463], 1, 1, 0xffff_ffff, 0, 4116, 2),
        // bgeu x5, x6, 8
        (&[0x0062_f463], 1, 5, 5, 0, 4116, 2),
        (&[0x0062_f463], 1, 0xffff_ffff, 1, 0, 4116, 2),
        (&[0x0062_f463], 1, 1, 0xffff_ffff, 0, 4112, 1),
        // bne x0, x0, 2
        (&[0x0000_1163], 1, 0, 0, 0, 4112, 1),
        // beq x0, x0, -12
        (&[0xfe00_0ae3], 1, 0, 0, 0, 4096, 2),
        // bge x0, x0, -4096
        (&[0x8000_5063], 1, 0, 0, 0, 12, 2),
    ];
    let alloc = rt.alloc();
    let mut files = Files::new(alloc, b"", 0)?;
    for (words, steps, first, second, want, pc, cost) in table {
        let mut bytes = bench(&rt, alloc, words, [first, second])?;
        let mut core = Core::new(BASE, BASE, SIZE, BASE);
        assert_eq!(rt; run(&mut core, &mut bytes, &mut files, 3), (3, GOES_ON, 5));
        assert_eq!(rt;
            run(&mut core, &mut bytes, &mut files, steps),
            (steps, GOES_ON, cost)
        );
        assert_eq!(rt; (core.register(7), core.pc()), (want, pc));
    }
    Ok(())
}

/// These words with this address in x5 and 0xa1b2c3d4 in x6 make this of x7, at this cost.
#[test]
fn accesses(rt: HostRuntime) -> Result<(), Fail> {
    let table: [(&[u32], u32, u32, u64); 38] = [
        // lb x7, 0(x5)
        (&[0x0002_8383], 4224, 0xffff_fff1, 2),
        (&[0x0002_8383], 4225, 0xffff_ff82, 2),
        (&[0x0002_8383], 4226, 0x0000_0073, 2),
        (&[0x0002_8383], 4227, 0xffff_ff94, 2),
        (&[0x0002_8383], 4096, 0x0000_0037, 2),
        (&[0x0002_8383], 8191, 0xffff_ff8f, 2),
        // lh x7, 0(x5)
        (&[0x0002_9383], 4224, 0xffff_82f1, 2),
        (&[0x0002_9383], 4226, 0xffff_9473, 2),
        (&[0x0002_9383], 4096, 0x0000_1237, 2),
        (&[0x0002_9383], 8190, 0xffff_8ffe, 2),
        // lw x7, 0(x5)
        (&[0x0002_a383], 4224, 0x9473_82f1, 2),
        (&[0x0002_a383], 4096, 0x0000_1237, 2),
        (&[0x0002_a383], 8188, 0x8ffe_6d5c, 2),
        // lbu x7, 0(x5)
        (&[0x0002_c383], 4224, 0x0000_00f1, 2),
        (&[0x0002_c383], 4225, 0x0000_0082, 2),
        (&[0x0002_c383], 4226, 0x0000_0073, 2),
        (&[0x0002_c383], 4227, 0x0000_0094, 2),
        (&[0x0002_c383], 4096, 0x0000_0037, 2),
        (&[0x0002_c383], 8191, 0x0000_008f, 2),
        // lhu x7, 0(x5)
        (&[0x0002_d383], 4224, 0x0000_82f1, 2),
        (&[0x0002_d383], 4226, 0x0000_9473, 2),
        (&[0x0002_d383], 4096, 0x0000_1237, 2),
        (&[0x0002_d383], 8190, 0x0000_8ffe, 2),
        // sb x6, 0(x5); lw x7, 0(x5)
        (&[0x0062_8023, 0x0002_a383], 4224, 0x9473_82d4, 4),
        // sb x6, 0(x5); lw x7, -1(x5)
        (&[0x0062_8023, 0xfff2_a383], 4225, 0x9473_d4f1, 4),
        // sb x6, 0(x5); lw x7, -2(x5)
        (&[0x0062_8023, 0xffe2_a383], 4226, 0x94d4_82f1, 4),
        // sb x6, 0(x5); lw x7, -3(x5)
        (&[0x0062_8023, 0xffd2_a383], 4227, 0xd473_82f1, 4),
        // sb x6, 0(x5); lw x7, 0(x5)
        (&[0x0062_8023, 0x0002_a383], 4096, 0x0000_12d4, 4),
        // sb x6, 0(x5); lw x7, -3(x5)
        (&[0x0062_8023, 0xffd2_a383], 8191, 0xd4fe_6d5c, 4),
        // sh x6, 0(x5); lw x7, 0(x5)
        (&[0x0062_9023, 0x0002_a383], 4224, 0x9473_c3d4, 4),
        // sh x6, 0(x5); lw x7, -2(x5)
        (&[0x0062_9023, 0xffe2_a383], 4226, 0xc3d4_82f1, 4),
        // sh x6, 0(x5); lw x7, 0(x5)
        (&[0x0062_9023, 0x0002_a383], 4096, 0x0000_c3d4, 4),
        // sh x6, 0(x5); lw x7, -2(x5)
        (&[0x0062_9023, 0xffe2_a383], 8190, 0xc3d4_6d5c, 4),
        // sw x6, 0(x5); lw x7, 0(x5)
        (&[0x0062_a023, 0x0002_a383], 4224, 0xa1b2_c3d4, 4),
        (&[0x0062_a023, 0x0002_a383], 4096, 0xa1b2_c3d4, 4),
        (&[0x0062_a023, 0x0002_a383], 8188, 0xa1b2_c3d4, 4),
        // lw x7, -1(x5)
        (&[0xfff2_a383], 4229, 0xd867_b605, 2),
        // lw x7, 1(x5)
        (&[0x0012_a383], 4223, 0x9473_82f1, 2),
    ];
    let alloc = rt.alloc();
    let mut files = Files::new(alloc, b"", 0)?;
    for (words, address, want, cost) in table {
        let mut bytes = bench(&rt, alloc, words, [address, 0xa1b2_c3d4])?;
        let mut core = Core::new(BASE, BASE, SIZE, BASE);
        assert!(rt; words.len() < 3);
        let steps = words.len() as u32;
        assert_eq!(rt; run(&mut core, &mut bytes, &mut files, 3), (3, GOES_ON, 5));
        assert_eq!(rt;
            run(&mut core, &mut bytes, &mut files, steps),
            (steps, GOES_ON, cost)
        );
        assert_eq!(rt; core.register(7), want, "address {address}");
    }
    Ok(())
}

/// Each word with this value of x5 traps, and changes nothing.
#[test]
fn traps(rt: HostRuntime) -> Result<(), Fail> {
    let table = [
        // lb x7, 0(x5)
        (0x0002_8383, 8192, TrapKind::LoadFault),
        (0x0002_8383, 8193, TrapKind::LoadFault),
        (0x0002_8383, 4095, TrapKind::LoadFault),
        (0x0002_8383, 0, TrapKind::LoadFault),
        (0x0002_8383, 0xffff_ffff, TrapKind::LoadFault),
        // lh x7, 0(x5)
        (0x0002_9383, 4225, TrapKind::LoadMisaligned),
        (0x0002_9383, 4227, TrapKind::LoadMisaligned),
        (0x0002_9383, 8191, TrapKind::LoadMisaligned),
        (0x0002_9383, 8192, TrapKind::LoadFault),
        (0x0002_9383, 8193, TrapKind::LoadMisaligned),
        (0x0002_9383, 4094, TrapKind::LoadFault),
        (0x0002_9383, 4095, TrapKind::LoadMisaligned),
        (0x0002_9383, 0, TrapKind::LoadFault),
        (0x0002_9383, 0xffff_fffe, TrapKind::LoadFault),
        (0x0002_9383, 0xffff_ffff, TrapKind::LoadMisaligned),
        // lw x7, 0(x5)
        (0x0002_a383, 4225, TrapKind::LoadMisaligned),
        (0x0002_a383, 4226, TrapKind::LoadMisaligned),
        (0x0002_a383, 4227, TrapKind::LoadMisaligned),
        (0x0002_a383, 8189, TrapKind::LoadMisaligned),
        (0x0002_a383, 8190, TrapKind::LoadMisaligned),
        (0x0002_a383, 8191, TrapKind::LoadMisaligned),
        (0x0002_a383, 8192, TrapKind::LoadFault),
        (0x0002_a383, 8193, TrapKind::LoadMisaligned),
        (0x0002_a383, 4092, TrapKind::LoadFault),
        (0x0002_a383, 4095, TrapKind::LoadMisaligned),
        (0x0002_a383, 0, TrapKind::LoadFault),
        (0x0002_a383, 0xffff_fffc, TrapKind::LoadFault),
        (0x0002_a383, 0xffff_ffff, TrapKind::LoadMisaligned),
        // lbu x7, 0(x5)
        (0x0002_c383, 8192, TrapKind::LoadFault),
        (0x0002_c383, 8193, TrapKind::LoadFault),
        (0x0002_c383, 4095, TrapKind::LoadFault),
        (0x0002_c383, 0, TrapKind::LoadFault),
        (0x0002_c383, 0xffff_ffff, TrapKind::LoadFault),
        // lhu x7, 0(x5)
        (0x0002_d383, 4225, TrapKind::LoadMisaligned),
        (0x0002_d383, 4227, TrapKind::LoadMisaligned),
        (0x0002_d383, 8191, TrapKind::LoadMisaligned),
        (0x0002_d383, 8192, TrapKind::LoadFault),
        (0x0002_d383, 8193, TrapKind::LoadMisaligned),
        (0x0002_d383, 4094, TrapKind::LoadFault),
        (0x0002_d383, 4095, TrapKind::LoadMisaligned),
        (0x0002_d383, 0, TrapKind::LoadFault),
        (0x0002_d383, 0xffff_fffe, TrapKind::LoadFault),
        (0x0002_d383, 0xffff_ffff, TrapKind::LoadMisaligned),
        // sb x7, 0(x5)
        (0x0072_8023, 8192, TrapKind::StoreFault),
        (0x0072_8023, 8193, TrapKind::StoreFault),
        (0x0072_8023, 4095, TrapKind::StoreFault),
        (0x0072_8023, 0, TrapKind::StoreFault),
        (0x0072_8023, 0xffff_ffff, TrapKind::StoreFault),
        // sh x7, 0(x5)
        (0x0072_9023, 4225, TrapKind::StoreMisaligned),
        (0x0072_9023, 4227, TrapKind::StoreMisaligned),
        (0x0072_9023, 8191, TrapKind::StoreMisaligned),
        (0x0072_9023, 8192, TrapKind::StoreFault),
        (0x0072_9023, 8193, TrapKind::StoreMisaligned),
        (0x0072_9023, 4094, TrapKind::StoreFault),
        (0x0072_9023, 4095, TrapKind::StoreMisaligned),
        (0x0072_9023, 0, TrapKind::StoreFault),
        (0x0072_9023, 0xffff_fffe, TrapKind::StoreFault),
        (0x0072_9023, 0xffff_ffff, TrapKind::StoreMisaligned),
        // sw x7, 0(x5)
        (0x0072_a023, 4225, TrapKind::StoreMisaligned),
        (0x0072_a023, 4226, TrapKind::StoreMisaligned),
        (0x0072_a023, 4227, TrapKind::StoreMisaligned),
        (0x0072_a023, 8189, TrapKind::StoreMisaligned),
        (0x0072_a023, 8190, TrapKind::StoreMisaligned),
        (0x0072_a023, 8191, TrapKind::StoreMisaligned),
        (0x0072_a023, 8192, TrapKind::StoreFault),
        (0x0072_a023, 8193, TrapKind::StoreMisaligned),
        (0x0072_a023, 4092, TrapKind::StoreFault),
        (0x0072_a023, 4095, TrapKind::StoreMisaligned),
        (0x0072_a023, 0, TrapKind::StoreFault),
        (0x0072_a023, 0xffff_fffc, TrapKind::StoreFault),
        (0x0072_a023, 0xffff_ffff, TrapKind::StoreMisaligned),
        // jal x7, 2
        (0x0020_03ef, 0, TrapKind::FetchMisaligned),
        // jalr x7, 2(x5)
        (0x0022_83e7, 4116, TrapKind::FetchMisaligned),
        // jalr x7, 3(x5)
        (0x0032_83e7, 4116, TrapKind::FetchMisaligned),
        // beq x0, x0, 2
        (0x0000_0163, 0, TrapKind::FetchMisaligned),
        // bge x0, x0, -2
        (0xfe00_5fe3, 0, TrapKind::FetchMisaligned),
        // ebreak
        (0x0010_0073, 0, TrapKind::Breakpoint),
        // .word 0
        (0x0000_0000, 0, TrapKind::Illegal),
        // .word 0xffffffff
        (0xffff_ffff, 0, TrapKind::Illegal),
        // .word 0x00010001
        (0x0001_0001, 0, TrapKind::Illegal),
        // .word 0x00000501
        (0x0000_0501, 0, TrapKind::Illegal),
        // .word 0x00001073
        (0x0000_1073, 0, TrapKind::Illegal),
        // .word 0x00200073
        (0x0020_0073, 0, TrapKind::Illegal),
        // .word 0x02001013
        (0x0200_1013, 0, TrapKind::Illegal),
        // .word 0x00003003
        (0x0000_3003, 0, TrapKind::Illegal),
        // .word 0x00003023
        (0x0000_3023, 0, TrapKind::Illegal),
        // .word 0x00002063
        (0x0000_2063, 0, TrapKind::Illegal),
        // .word 0x00001067
        (0x0000_1067, 0, TrapKind::Illegal),
        // .word 0x0000200f
        (0x0000_200f, 0, TrapKind::Illegal),
        // .word 0x04000033
        (0x0400_0033, 0, TrapKind::Illegal),
    ];
    let alloc = rt.alloc();
    let mut files = Files::new(alloc, b"", 0)?;
    for (word, first, kind) in table {
        let mut bytes = bench(&rt, alloc, &[word], [first, 0])?;
        let mut core = Core::new(BASE, BASE, SIZE, BASE);
        assert_eq!(rt; run(&mut core, &mut bytes, &mut files, 3), (3, GOES_ON, 5));
        assert_eq!(rt;
            run(&mut core, &mut bytes, &mut files, 1),
            (0, trap(kind, 4108), 0)
        );
        assert_eq!(rt;
            (core.register(5), core.register(7), core.pc()),
            (first, 0, 4108)
        );
        assert_eq!(rt;
            run(&mut core, &mut bytes, &mut files, 1),
            (0, trap(kind, 4108), 0)
        );
    }
    Ok(())
}
