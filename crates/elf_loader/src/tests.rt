use super::*;
use std::alloc::AllocError;
use std::test::Fail;

/// What every test asks for: a memory of this many bytes from 0 on.
const SIZE: u32 = 1_048_576;

/// `addi x17, x0, 93` and `ecall`.
const WORDS: [u32; 2] = [0x05d0_0893, 0x0000_0073];

const NULL: u32 = 0;

const LOAD: u32 = 1;

const DYNAMIC: u32 = 2;

const INTERPRETER: u32 = 3;

const NOTE: u32 = 4;

const RISCV_ATTRIBUTES: u32 = 0x7000_0003;

/// A program header: p_type, p_offset, p_vaddr, p_filesz, p_memsz.
type Header = (u32, u32, u32, u32, u32);

/// A file of the ELF header, these program headers, and two words.
fn file_of(alloc: Global, headers: &[Header]) -> Result<Vec<u8>, AllocError> {
    let mut file = Vec::new(alloc);
    file.extend_from_slice(
        b"\x7fELF\x01\x01\x01\x00\x00\x00\x00\x00\x00\x00\x00\x00\x02\x00\xf3\x00",
    )?;
    for word in [1, 65_536, 52, 0, 0] {
        file.extend_from_slice(&u32::to_le_bytes(word))?;
    }
    let count = u16::try_from(headers.len()).unwrap_or(0);
    for half in [52, 32, count, 0, 0, 0] {
        file.extend_from_slice(&u16::to_le_bytes(half))?;
    }
    for (kind, offset, address, file_size, memory_size) in headers {
        for word in [
            *kind,
            *offset,
            *address,
            *address,
            *file_size,
            *memory_size,
            7,
            4096,
        ] {
            file.extend_from_slice(&u32::to_le_bytes(word))?;
        }
    }
    for word in WORDS {
        file.extend_from_slice(&u32::to_le_bytes(word))?;
    }
    Ok(file)
}

/// A file of 92 bytes: the ELF header, one PT_LOAD whose part stands at 84, and two words.
fn elf(
    alloc: Global,
    address: u32,
    file_size: u32,
    memory_size: u32,
) -> Result<Vec<u8>, AllocError> {
    file_of(alloc, &[(LOAD, 84, address, file_size, memory_size)])
}

#[test]
fn judges_each_field(rt: HostRuntime) -> Result<(), Fail> {
    let edits = [
        (0, 0x7e, Some(ElfFault::Magic)),
        (1, b'e', Some(ElfFault::Magic)),
        (2, b'l', Some(ElfFault::Magic)),
        (3, b'f', Some(ElfFault::Magic)),
        (4, 2, Some(ElfFault::Class)),
        (5, 2, Some(ElfFault::Order)),
        (6, 0, Some(ElfFault::Version)),
        (7, 3, None),
        (16, 3, Some(ElfFault::FileType)),
        (17, 1, Some(ElfFault::FileType)),
        (18, 62, Some(ElfFault::Machine)),
        (19, 1, Some(ElfFault::Machine)),
        (24, 2, Some(ElfFault::Entry)),
        (24, 4, None),
        (26, 0, None),
        (26, 16, Some(ElfFault::Entry)),
        (28, 60, None),
        (28, 61, Some(ElfFault::Table)),
        (31, 1, Some(ElfFault::Table)),
        (32, 9, None),
        (36, 1, Some(ElfFault::Compressed)),
        (36, 4, None),
        (42, 56, Some(ElfFault::HeaderSize)),
        (44, 0, None),
        (44, 2, Some(ElfFault::Table)),
        (45, 1, Some(ElfFault::Table)),
        (52, 3, Some(ElfFault::Interp)),
        (52, 6, None),
        (56, 85, Some(ElfFault::Segment { index: 0 })),
        (56, 83, None),
        (62, 16, Some(ElfFault::Outside { index: 0 })),
        (68, 9, Some(ElfFault::Segment { index: 0 })),
        (72, 7, Some(ElfFault::Segment { index: 0 })),
        (72, 9, None),
        (76, 0, None),
        (91, 1, None),
    ];
    for (at, value, fault) in edits {
        let mut file = elf(rt.alloc(), 65_536, 8, 8)?;
        assert_eq!(rt; file.len(), 92);
        assert!(rt; at < file.len());
        file[at] = value;
        assert!(rt;
            parse(rt.alloc(), &file, 0, SIZE).err() == fault,
            "byte {at}"
        );
    }
    Ok(())
}

#[test]
fn names_the_first_of_two_faults(rt: HostRuntime) -> Result<(), Fail> {
    let edits = [
        (0, 0, 4, 2, ElfFault::Magic),
        (4, 2, 5, 2, ElfFault::Class),
        (5, 2, 6, 0, ElfFault::Order),
        (6, 0, 16, 3, ElfFault::Version),
        (16, 3, 18, 62, ElfFault::FileType),
        (18, 62, 36, 1, ElfFault::Machine),
        (36, 1, 42, 56, ElfFault::Compressed),
        (42, 56, 44, 2, ElfFault::HeaderSize),
        (45, 1, 52, 3, ElfFault::Table),
        (52, 3, 24, 2, ElfFault::Interp),
        (56, 85, 62, 16, ElfFault::Segment { index: 0 }),
        (62, 16, 24, 2, ElfFault::Outside { index: 0 }),
        (36, 1, 24, 2, ElfFault::Compressed),
    ];
    for (at, value, other, other_value, fault) in edits {
        let mut file = elf(rt.alloc(), 65_536, 8, 8)?;
        assert!(rt; at < file.len() && other < file.len());
        file[at] = value;
        file[other] = other_value;
        assert!(rt;
            parse(rt.alloc(), &file, 0, SIZE).err() == Some(fault),
            "bytes {at} and {other}"
        );
    }
    Ok(())
}

#[test]
fn refuses_every_prefix(rt: HostRuntime) -> Result<(), Fail> {
    let whole = elf(rt.alloc(), 65_536, 8, 8)?;
    for len in 0..whole.len() {
        let fault = match len {
            0..=51 => ElfFault::Short,
            52..=83 => ElfFault::Table,
            _ => ElfFault::Segment { index: 0 },
        };
        assert!(rt;
            parse(rt.alloc(), &whole[..len], 0, SIZE).err() == Some(fault),
            "{len} bytes"
        );
    }
    let mut longer = elf(rt.alloc(), 65_536, 8, 8)?;
    longer.extend_from_slice(&[0, 0])?;
    assert!(rt; longer.len() == 94);
    longer[44] = 2;
    assert!(rt; parse(rt.alloc(), &longer, 0, SIZE).err() == Some(ElfFault::Table));
    Ok(())
}

#[test]
fn judges_headers_by_kind_and_index(rt: HostRuntime) -> Result<(), Fail> {
    let rows: [(&str, &[Header], Option<ElfFault>); 21] = [
        ("none", &[], None),
        (
            "others passed over",
            &[
                (NOTE, 9, 9, 9, 1),
                (LOAD, 148, 65_536, 8, 8),
                (RISCV_ATTRIBUTES, 1 << 31, 0, 9, 0),
            ],
            None,
        ),
        (
            "a byte shared",
            &[(LOAD, 116, 65_536, 0, 100), (LOAD, 116, 65_635, 0, 65)],
            Some(ElfFault::Overlap { index: 1 }),
        ),
        (
            "side by side",
            &[(LOAD, 116, 65_536, 0, 100), (LOAD, 116, 65_636, 0, 64)],
            None,
        ),
        (
            "falling",
            &[(LOAD, 116, 65_635, 0, 65), (LOAD, 116, 65_536, 0, 100)],
            Some(ElfFault::Overlap { index: 1 }),
        ),
        (
            "no neighbours",
            &[
                (LOAD, 116, 0, 0, 64),
                (LOAD, 116, 128, 0, 64),
                (LOAD, 116, 32, 0, 64),
            ],
            Some(ElfFault::Overlap { index: 2 }),
        ),
        (
            "one inside another",
            &[
                (LOAD, 116, 64, 0, 8),
                (NULL, 0, 0, 0, 0),
                (LOAD, 116, 0, 0, 128),
            ],
            Some(ElfFault::Overlap { index: 2 }),
        ),
        (
            "no memory shares nothing",
            &[(LOAD, 116, 64, 0, 8), (LOAD, 116, 66, 0, 0)],
            None,
        ),
        (
            "another kind shares nothing",
            &[(LOAD, 116, 64, 0, 8), (DYNAMIC, 116, 64, 0, 8)],
            None,
        ),
        ("at the end", &[(LOAD, 84, 1_048_476, 0, 100)], None),
        (
            "past the end",
            &[(LOAD, 84, 1_048_476, 0, 101)],
            Some(ElfFault::Outside { index: 0 }),
        ),
        (
            "past the last address",
            &[(LOAD, 84, 0xffff_fff0, 0, 0x20)],
            Some(ElfFault::Outside { index: 0 }),
        ),
        (
            "no memory is nowhere",
            &[(LOAD, 84, 0xffff_fff0, 0, 0)],
            None,
        ),
        (
            "bytes without memory",
            &[(LOAD, 84, 64, 1, 0)],
            Some(ElfFault::Segment { index: 0 }),
        ),
        (
            "no bytes past the file",
            &[(LOAD, 93, 64, 0, 0)],
            Some(ElfFault::Segment { index: 0 }),
        ),
        (
            "past the last offset",
            &[(LOAD, 0xffff_ffff, 64, 2, 2)],
            Some(ElfFault::Segment { index: 0 }),
        ),
        (
            "an interpreter before a segment",
            &[(LOAD, 999, 64, 1, 1), (INTERPRETER, 0, 0, 0, 0)],
            Some(ElfFault::Interp),
        ),
        (
            "a segment before one outside",
            &[(LOAD, 116, SIZE, 0, 1), (LOAD, 999, 64, 1, 1)],
            Some(ElfFault::Segment { index: 1 }),
        ),
        (
            "one outside before an overlap",
            &[
                (LOAD, 148, 64, 0, 8),
                (LOAD, 148, 64, 0, 8),
                (LOAD, 148, SIZE, 0, 1),
            ],
            Some(ElfFault::Outside { index: 2 }),
        ),
        (
            "the least index outside",
            &[
                (LOAD, 148, 0, 0, 1),
                (LOAD, 148, SIZE, 0, 1),
                (LOAD, 148, SIZE, 0, 1),
            ],
            Some(ElfFault::Outside { index: 1 }),
        ),
        (
            "the least index of a segment",
            &[
                (LOAD, 148, 0, 0, 1),
                (LOAD, 148, 4, 2, 1),
                (LOAD, 148, 8, 2, 1),
            ],
            Some(ElfFault::Segment { index: 1 }),
        ),
    ];
    for (name, headers, fault) in rows {
        let file = file_of(rt.alloc(), headers)?;
        assert!(rt; parse(rt.alloc(), &file, 0, SIZE).err() == fault, "{name}");
    }
    Ok(())
}

#[test]
fn lays_segments_out(rt: HostRuntime) -> Result<(), Fail> {
    let rows: [(u32, u32, u32, &[u32], u32, usize); 8] = [
        (65_536, 8, 8, &[1024], 65_552, 5),
        (65_596, 8, 8, &[1024, 1025], 65_616, 5),
        (65_536, 8, 100, &[1024], 65_648, 5),
        (65_536, 0, 8, &[], 65_552, 0),
        (65_536, 3, 16, &[1024], 65_552, 3),
        (1_048_568, 8, 8, &[16_383], 1_048_576, 5),
        (0xffff_fff0, 0, 0, &[], 0, 0),
        (1, 8, 8, &[0], 16, 5),
    ];
    for (address, file_size, memory_size, marked, heap, written) in rows {
        let file = elf(rt.alloc(), address, file_size, memory_size)?;
        let image = parse(rt.alloc(), &file, 0, SIZE)?;
        assert_eq!(rt; image.entry, 65_536, "at {address}");
        assert_eq!(rt; image.heap, heap, "at {address}");
        assert_eq!(rt; image.marked.as_slice(), marked, "at {address}");
        assert_eq!(rt; image.bytes.len(), SIZE as usize, "at {address}");
        assert_eq!(rt;
            image.bytes.iter().filter(|byte| **byte != 0).count(),
            written,
            "at {address}"
        );
        if written == 5 {
            let start = address as usize;
            assert!(rt; start <= 1_048_568);
            let part = &image.bytes[start..start + 8];
            assert_eq!(rt;
                part,
                [0x93, 0x08, 0xd0, 0x05, 0x73, 0, 0, 0].as_slice(),
                "at {address}"
            );
        }
    }
    Ok(())
}

#[test]
fn lays_many_segments_out(rt: HostRuntime) -> Result<(), Fail> {
    let headers = [
        (LOAD, 184, 65_598, 4, 4),
        (NOTE, 180, 0, 8, 8),
        (LOAD, 180, 1024, 4, 70_000 - 1024 - 4000),
        (LOAD, 180, 65_592, 2, 3),
    ];
    let file = file_of(rt.alloc(), &headers)?;
    let fault = parse(rt.alloc(), &file, 0, SIZE).err();
    assert!(rt; fault == Some(ElfFault::Overlap { index: 2 }));
    let headers = [
        (LOAD, 184, 65_598, 4, 4),
        (NOTE, 180, 0, 8, 8),
        (LOAD, 180, 1024, 4, 65),
        (LOAD, 180, 65_592, 2, 3),
    ];
    let file = file_of(rt.alloc(), &headers)?;
    let image = parse(rt.alloc(), &file, 0, SIZE)?;
    assert_eq!(rt; image.marked.as_slice(), [16, 1024, 1025].as_slice());
    assert_eq!(rt; image.heap, 65_616);
    assert_eq!(rt; image.bytes.len(), SIZE as usize);
    assert_eq!(rt;
        &image.bytes[1024..1029],
        [0x93, 0x08, 0xd0, 0x05, 0].as_slice()
    );
    assert_eq!(rt;
        &image.bytes[65_591..65_603],
        [0, 0x93, 0x08, 0, 0, 0, 0, 0x73, 0, 0, 0, 0].as_slice()
    );
    assert_eq!(rt; image.bytes.iter().filter(|byte| **byte != 0).count(), 7);
    for (index, wanted) in [
        (0, Some((65_598, 7, [0x73, 0, 0, 0].as_slice()))),
        (1, None),
        (2, Some((1024, 7, [0x93, 0x08, 0xd0, 0x05].as_slice()))),
        (3, Some((65_592, 7, [0x93, 0x08].as_slice()))),
        (4, None),
        (u32::MAX, None),
    ] {
        assert!(rt; part(&file, index) == wanted, "header {index}");
    }
    Ok(())
}

#[test]
fn loads_256_segments_into_the_greatest_memory(rt: HostRuntime) -> Result<(), Fail> {
    let mut headers: Vec<Header> = Vec::new(rt.alloc());
    for index in 0..256 {
        headers.push((LOAD, 52 + 32 * 256, 65_536 * (255 - index), 8, 65_536))?;
    }
    let file = file_of(rt.alloc(), &headers)?;
    let image = parse(rt.alloc(), &file, 0, 16_777_216)?;
    assert_eq!(rt; image.bytes.len(), 16_777_216);
    assert_eq!(rt; image.marked.len(), 256);
    assert_eq!(rt; image.heap, 16_777_216);
    assert_eq!(rt; image.bytes[65_536 * 17], 0x93);
    headers.push((NULL, 0, 0, 0, 0))?;
    let file = file_of(rt.alloc(), &headers)?;
    assert!(rt; parse(rt.alloc(), &file, 0, 16_777_216).err() == Some(ElfFault::Table));
    Ok(())
}

#[test]
fn counts_lines_from_the_base(rt: HostRuntime) -> Result<(), Fail> {
    let file = elf(rt.alloc(), 65_600, 8, 8)?;
    let image = parse(rt.alloc(), &file, 65_536, 4096)?;
    assert_eq!(rt; image.marked.as_slice(), [1].as_slice());
    assert_eq!(rt; image.heap, 65_616);
    assert_eq!(rt; image.bytes.len(), 4096);
    assert_eq!(rt; image.bytes[64], 0x93);
    Ok(())
}
