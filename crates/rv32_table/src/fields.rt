//! The fields and the immediates of a word.

ghost use Rattle.std.specs.Prelude.{◌≡◌, ◌+◌, ◌*◌, ◌^◌, ◌<◌, ◌≤◌, pos, ◌-ℤ◌};
ghost use Rattle.rv32_table.specs.Fields.{bits, signed, opcode_of, rd_of, funct3_of, rs1_of, rs2_of, funct7_of};
ghost use Rattle.rv32_table.specs.Fields.{immediate_i, immediate_s, immediate_b, immediate_u, immediate_j, rest_of};

/// So many bits of a word, from the bit `low` on.
pub(crate) fn field(word: u32, low: u32, count: u32) -> u32
    requires part { count < 32 }
    requires inside { low + count ≤ 32 }
    requires below { low < 32 }
    ensures { result ≡ bits word low count }
{
    (word >> low) % (1 << count)
}

/// The number that the low bits of `value` up to the sign bit `sign`, a power of two, are in two's complement.
fn sign_extended(value: u32, sign: u32) -> i32
    requires sign { sign ≤ 2 ^ 20 }
    requires value { value < 2 * sign }
    ensures positive { value < sign → result ≡ pos value }
    ensures negative { sign ≤ value → result ≡ (pos value -ℤ pos (2 * sign)) }
{
    if value < sign {
        value as i32
    } else {
        value as i32 - 2 * sign as i32
    }
}

/// Bits 6 to 0.
pub(crate) fn opcode(word: u32) -> u32
    ensures { result ≡ opcode_of word }
{
    word % (1 << 7)
}

/// Bits 11 to 7.
pub(crate) fn rd(word: u32) -> u8
    ensures { result ≡ rd_of word }
{
    field(word, 7, 5) as u8
}

/// Bits 14 to 12.
pub(crate) fn funct3(word: u32) -> u32
    ensures { result ≡ funct3_of word }
{
    field(word, 12, 3)
}

/// Bits 19 to 15.
pub(crate) fn rs1(word: u32) -> u8
    ensures { result ≡ rs1_of word }
{
    field(word, 15, 5) as u8
}

/// Bits 24 to 20.
pub(crate) fn rs2(word: u32) -> u8
    ensures { result ≡ rs2_of word }
{
    field(word, 20, 5) as u8
}

/// Bits 31 to 25.
pub(crate) fn funct7(word: u32) -> u32
    ensures { result ≡ funct7_of word }
{
    field(word, 25, 7)
}

/// The immediate of the form I.
pub(crate) fn immediate_i(word: u32) -> i32
    ensures { result ≡ immediate_i word }
{
    sign_extended(field(word, 20, 12), 1 << 11)
}

/// The immediate of the form S.
pub(crate) fn immediate_s(word: u32) -> i32
    ensures { result ≡ immediate_s word }
{
    sign_extended((field(word, 25, 7) << 5) + field(word, 7, 5), 1 << 11)
}

/// The immediate of the form B.
pub(crate) fn immediate_b(word: u32) -> i32
    ensures { result ≡ immediate_b word }
{
    let high = (field(word, 31, 1) << 12) + (field(word, 7, 1) << 11);
    let low = (field(word, 25, 6) << 5) + (field(word, 8, 4) << 1);
    sign_extended(high + low, 1 << 12)
}

/// The immediate of the form U.
pub(crate) fn immediate_u(word: u32) -> u32
    ensures { result ≡ immediate_u word }
{
    field(word, 12, 20) << 12
}

/// The immediate of the form J.
pub(crate) fn immediate_j(word: u32) -> i32
    ensures { result ≡ immediate_j word }
{
    let high = (field(word, 31, 1) << 20) + (field(word, 12, 8) << 12);
    let low = (field(word, 20, 1) << 11) + (field(word, 21, 10) << 1);
    sign_extended(high + low, 1 << 20)
}

/// The word with its opcode and its funct3 cleared.
pub(crate) fn rest(word: u32) -> u32
    ensures { result ≡ rest_of word }
{
    (field(word, 15, 17) << 15) + (field(word, 7, 5) << 7)
}
