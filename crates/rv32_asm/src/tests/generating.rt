//! Programs that are made from a number: the words that LLVM's assembler gives for the instructions, and data words
//! that were computed apart from this program (`tools/generated_words.py`).

use super::*;

/// The words of the instructions.
const PROGRAM: [u32; 29] = [
    0x0001_0437,
    0x0744_0413,
    0x0004_2483,
    0x0044_0413,
    0x0000_0537,
    0x0005_0513,
    0x0004_2283,
    0x0055_1313,
    0x0065_0533,
    0x0055_0533,
    0x00a4_2023,
    0x0044_0413,
    0xfff4_8493,
    0xfe04_92e3,
    0x0001_05b7,
    0x0745_8593,
    0x00a5_a023,
    0x0000_0537,
    0x0015_0513,
    0x0000_0637,
    0x0046_0613,
    0x0000_08b7,
    0x0408_8893,
    0x0000_0073,
    0x0000_0537,
    0x0005_0513,
    0x0000_08b7,
    0x05d8_8893,
    0x0000_0073,
];

/// The file of a program that begins at 65,536, has so many bytes, and has these words behind its instructions.
fn file_with(alloc: Global, count: u32, data: &[u32]) -> Result<Vec<u8>, Fail> {
    let mut file = Vec::new(alloc);
    file.extend_from_slice(
        b"\x7fELF\x01\x01\x01\x00\x00\x00\x00\x00\x00\x00\x00\x00\
        \x02\x00\xf3\x00\x01\x00\x00\x00\x00\x00\x01\x00\x34\x00\x00\x00\x00\x00\x00\x00\x00\x00\x00\x00\
        \x34\x00\x20\x00\x01\x00\x00\x00\x00\x00\x00\x00",
    )?;
    for word in [1, 84, 65_536, 65_536, count, count, 7, 4]
        .iter()
        .chain(&PROGRAM)
        .chain(data)
    {
        file.extend_from_slice(&word.to_le_bytes())?;
    }
    Ok(file)
}

/// A seed and a count, the bytes of the program, and the data.
#[test]
fn generated(rt: HostRuntime) -> Result<(), Fail> {
    let rows: [(u32, u32, u32, &[u32]); 3] = [
        (0, 1, 124, &[1, 0x1405_7b7e]),
        (7, 3, 132, &[3, 0x7e43_28bc, 0xf4a6_1a7f, 0xe815_5a62]),
        (4_294_967_295, 2, 128, &[2, 0x0849_067e, 0xb339_0358]),
    ];
    for (seed, words, count, data) in rows {
        let file = generate(rt.alloc(), seed, words)?;
        let wanted = file_with(rt.alloc(), count, data)?;
        assert_eq!(rt; file.as_slice(), wanted.as_slice(), "{seed} {words}");
    }
    Ok(())
}
