//! The numbers of statements put into instructions.

ghost use Rattle.std.specs.Prelude.{◌≡◌, ◌<◌, ◌*◌, ◌^◌, pos, ◌≤ℤ◌, unsigned_abs, IsTrue, IfSome};
ghost use Rattle.std.specs.Ordering.{int_eq};
ghost use Rattle.std.specs.List.{list_any};
ghost use Rattle.rv32_table.specs.Fits.{Fits};
ghost use Rattle.rv32_asm.specs.Registers.{HasRegisters};
ghost use Rattle.rv32_asm.specs.Values.{is_multiple, is_immediate, is_even, is_operand, takes_number, with_number};
ghost use Rattle.rv32_asm.specs.Values.{numbered, low_part, upper_of, lower_of};

use rv32_table::{ImmOp, Instr};

/// The powers of two to 4,096.
const MULTIPLES: [i64; 13] = [1, 2, 4, 8, 16, 32, 64, 128, 256, 512, 1_024, 2_048, 4_096];

/// Whether a number is among these.
fn is_among(numbers: &[i64], number: i64) -> bool
    ensures { result ≡ list_any (λ one. int_eq one number) numbers.now }
{
    numbers.iter().any(|one| *one == number)
}

/// Whether a number is a power of two up to 4,096.
#[tactic(auto, unfolding(crate::specs::Values::multiples))]
pub(crate) fn is_multiple(number: i64) -> bool
    ensures { result ≡ is_multiple number }
{
    is_among(&MULTIPLES, number)
}

/// Whether an immediate of twelve bits may be this number.
fn is_immediate(number: i64) -> bool
    ensures { result ≡ is_immediate number }
{
    -2_048 <= number && number <= 2_047
}

/// Whether it is even.
fn is_even(number: i64) -> bool
    ensures { result ≡ is_even number }
{
    number % 2 == 0
}

/// Whether an operation takes this immediate.
fn is_operand(op: ImmOp, number: i64) -> bool
    ensures { result ≡ is_operand op number }
{
    if op.is_shift() {
        0 <= number && number <= 31
    } else {
        is_immediate(number)
    }
}

/// Whether an instruction may have this number.
fn takes_number(instr: Instr, number: i64) -> bool
    ensures { result ≡ takes_number instr number }
{
    match instr {
        Instr::Lui { .. } | Instr::Auipc { .. } => 0 <= number && number <= 1_048_575,
        Instr::Jal { .. } => -1_048_576 <= number && number <= 1_048_575 && is_even(number),
        Instr::Branch { .. } => -4_096 <= number && number <= 4_095 && is_even(number),
        Instr::Jalr { .. } | Instr::Load { .. } | Instr::Store { .. } => is_immediate(number),
        Instr::OpImm { op, .. } => is_operand(op, number),
        Instr::Op { .. }
        | Instr::Fence { .. }
        | Instr::FenceI { .. }
        | Instr::Ecall
        | Instr::Ebreak => false,
    }
}

/// The high twenty bits of an immediate, with twelve zero bits below.
fn upper(number: i64) -> u32
    requires low { pos 0 ≤ℤ number }
    requires high { number ≤ℤ pos 1_048_575 }
    ensures { result ≡ unsigned_abs number * 2 ^ 12 }
{
    (number as u32) << 12
}

/// An instruction with a number that it takes.
fn with_number(instr: Instr, number: i64) -> Instr
    requires registers { HasRegisters instr }
    requires takes { IsTrue (takes_number instr number) }
    ensures value { result ≡ with_number instr number }
    ensures fits { IsTrue (takes_number instr number) → Fits result }
{
    match instr {
        Instr::Lui { rd, .. } => Instr::Lui {
            rd,
            imm: upper(number),
        },
        Instr::Auipc { rd, .. } => Instr::Auipc {
            rd,
            imm: upper(number),
        },
        Instr::Jal { rd, .. } => Instr::Jal {
            rd,
            offset: number as i32,
        },
        Instr::Jalr { rd, rs1, .. } => Instr::Jalr {
            rd,
            rs1,
            imm: number as i32,
        },
        Instr::Branch { op, rs1, rs2, .. } => Instr::Branch {
            op,
            rs1,
            rs2,
            offset: number as i32,
        },
        Instr::Load { op, rd, rs1, .. } => Instr::Load {
            op,
            rd,
            rs1,
            imm: number as i32,
        },
        Instr::Store { op, rs1, rs2, .. } => Instr::Store {
            op,
            rs1,
            rs2,
            imm: number as i32,
        },
        Instr::OpImm { op, rd, rs1, .. } => Instr::OpImm {
            op,
            rd,
            rs1,
            imm: number as i32,
        },
        Instr::Op { .. }
        | Instr::Fence { .. }
        | Instr::FenceI { .. }
        | Instr::Ecall
        | Instr::Ebreak => instr,
    }
}

/// An instruction with this number; none where it is out of its range.
pub(crate) fn numbered(instr: Instr, number: i64) -> Option<Instr>
    requires { HasRegisters instr }
    ensures value { result ≡ numbered instr number }
    ensures fits { IfSome result Fits }
{
    if takes_number(instr, number) {
        Some(with_number(instr, number))
    } else {
        None
    }
}

/// The low twelve bits of a word, as a signed number.
fn low_part(word: u32) -> i32
    ensures { result ≡ low_part word }
{
    let low = (word % 4_096) as i32;
    if low < 2_048 { low } else { low - 4_096 }
}

/// LUI of the two instructions that put a word into a register.
pub(crate) fn upper_of(rd: u8, word: u32) -> Instr
    requires { rd < 32 }
    ensures value { result ≡ upper_of rd word }
    ensures fits { Fits result }
{
    let imm = word.wrapping_sub(low_part(word).cast_unsigned());
    Instr::Lui { rd, imm }
}

/// ADDI of the two instructions that put a word into a register.
pub(crate) fn lower_of(rd: u8, word: u32) -> Instr
    requires { rd < 32 }
    ensures value { result ≡ lower_of rd word }
    ensures fits { Fits result }
{
    let imm = low_part(word);
    Instr::OpImm {
        op: ImmOp::Addi,
        rd,
        rs1: rd,
        imm,
    }
}
