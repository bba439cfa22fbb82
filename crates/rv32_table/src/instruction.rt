//! The instructions as values.

ghost use Rattle.std.specs.Prelude.{◌≡◌, ◌↔◌, IsTrue};
ghost use Rattle.rv32_table.specs.Fits.{Fits, IsSigned, IsOffset, IsUpper, IsRest, IsImmediate, is_shift};

/// Which branch. (RV32I, Conditional Branches)
#[derive(Clone, Copy, Debug, PartialEq, Eq)]
pub enum BranchOp {
    /// Taken where both are equal.
    Beq,
    /// Taken where they differ.
    Bne,
    /// Taken where rs1 is less, both signed.
    Blt,
    /// Taken where rs1 is not less, both signed.
    Bge,
    /// Taken where rs1 is less, both unsigned.
    Bltu,
    /// Taken where rs1 is not less, both unsigned.
    Bgeu,
}

/// Which load. (RV32I, Load and Store Instructions)
#[derive(Clone, Copy, Debug, PartialEq, Eq)]
pub enum LoadOp {
    /// A byte, sign-extended.
    Lb,
    /// Two bytes, sign-extended.
    Lh,
    /// Four bytes.
    Lw,
    /// A byte, zero-extended.
    Lbu,
    /// Two bytes, zero-extended.
    Lhu,
}

/// Which store. (RV32I, Load and Store Instructions)
#[derive(Clone, Copy, Debug, PartialEq, Eq)]
pub enum StoreOp {
    /// The low byte.
    Sb,
    /// The low two bytes.
    Sh,
    /// Four bytes.
    Sw,
}

/// Which operation on a register and an immediate. (RV32I, Integer Register-Immediate Instructions)
#[derive(Clone, Copy, Debug, PartialEq, Eq)]
pub enum ImmOp {
    /// The sum, wrapped.
    Addi,
    /// Whether rs1 is less, both signed.
    Slti,
    /// Whether rs1 is less, both unsigned.
    Sltiu,
    /// Exclusive or.
    Xori,
    /// Or.
    Ori,
    /// And.
    Andi,
    /// Shifted left.
    Slli,
    /// Shifted right, zeros moved in.
    Srli,
    /// Shifted right, the sign moved in.
    Srai,
}

/// Which operation on two registers. (RV32I, Integer Register-Register Operations; M)
#[derive(Clone, Copy, Debug, PartialEq, Eq)]
pub enum RegOp {
    /// The sum, wrapped.
    Add,
    /// The difference, wrapped.
    Sub,
    /// Shifted left.
    Sll,
    /// Whether rs1 is less, both signed.
    Slt,
    /// Whether rs1 is less, both unsigned.
    Sltu,
    /// Exclusive or.
    Xor,
    /// Shifted right, zeros moved in.
    Srl,
    /// Shifted right, the sign moved in.
    Sra,
    /// Or.
    Or,
    /// And.
    And,
    /// The low word of the product.
    Mul,
    /// The high word of the product, both signed.
    Mulh,
    /// The high word of the product, rs1 signed and rs2 unsigned.
    Mulhsu,
    /// The high word of the product, both unsigned.
    Mulhu,
    /// The quotient, both signed.
    Div,
    /// The quotient, both unsigned.
    Divu,
    /// The remainder, both signed.
    Rem,
    /// The remainder, both unsigned.
    Remu,
}

/// An instruction.
#[derive(Clone, Copy, Debug, PartialEq, Eq)]
pub enum Instr {
    /// Puts an immediate, whose low twelve bits are zero, into rd.
    Lui {
        rd: u8,
        imm: u32,
    },
    /// Puts pc plus an immediate, whose low twelve bits are zero, into rd.
    Auipc {
        rd: u8,
        imm: u32,
    },
    /// Jumps to pc plus an even offset from -2^20 to 2^20 - 2.
    Jal {
        rd: u8,
        offset: i32,
    },
    /// Jumps to rs1 plus an immediate from -2^11 to 2^11 - 1.
    Jalr {
        rd: u8,
        rs1: u8,
        imm: i32,
    },
    /// Branches to pc plus an even offset from -2^12 to 2^12 - 2.
    Branch {
        op: BranchOp,
        rs1: u8,
        rs2: u8,
        offset: i32,
    },
    /// Loads from rs1 plus an immediate from -2^11 to 2^11 - 1.
    Load {
        op: LoadOp,
        rd: u8,
        rs1: u8,
        imm: i32,
    },
    /// Stores at rs1 plus an immediate from -2^11 to 2^11 - 1.
    Store {
        op: StoreOp,
        rs1: u8,
        rs2: u8,
        imm: i32,
    },
    /// An operation on rs1 and an immediate: from 0 to 31 for a shift, and else from -2^11 to 2^11 - 1.
    OpImm {
        op: ImmOp,
        rd: u8,
        rs1: u8,
        imm: i32,
    },
    /// An operation on rs1 and rs2.
    Op {
        op: RegOp,
        rd: u8,
        rs1: u8,
        rs2: u8,
    },
    /// Orders accesses to memory. `rest` is the word without its opcode and funct3.
    Fence {
        rest: u32,
    },
    /// Orders stores before fetches. `rest` is the word without its opcode and funct3.
    FenceI {
        rest: u32,
    },
    /// Calls the environment.
    Ecall,
    /// Calls the debugger.
    Ebreak,
}

/// Whether twelve bits can be the number in two's complement.
fn is_signed_12(number: i32) -> bool
    ensures { IsTrue result ↔ IsSigned 12 number }
{
    -2_048 <= number && number < 2_048
}

/// Whether thirteen bits, of which the lowest is zero, can be the number in two's complement.
fn is_offset_13(number: i32) -> bool
    ensures { IsTrue result ↔ IsOffset 13 number }
{
    -4_096 <= number && number < 4_096 && number % 2 == 0
}

/// Whether 21 bits, of which the lowest is zero, can be the number in two's complement.
fn is_offset_21(number: i32) -> bool
    ensures { IsTrue result ↔ IsOffset 21 number }
{
    -1_048_576 <= number && number < 1_048_576 && number % 2 == 0
}

/// Whether the low twelve bits are zero.
fn is_upper(number: u32) -> bool
    ensures { IsTrue result ↔ IsUpper number }
{
    number % (1 << 12) == 0
}

/// Whether the bits of opcode and funct3 are zero.
fn is_rest(number: u32) -> bool
    ensures { IsTrue result ↔ IsRest number }
{
    number % (1 << 7) == 0 && (number >> 12) % (1 << 3) == 0
}

impl ImmOp {
    /// Whether its immediate is a shift amount.
    pub fn is_shift(self) -> bool
        ensures { result ≡ is_shift self }
    {
        match self {
            ImmOp::Slli | ImmOp::Srli | ImmOp::Srai => true,
            ImmOp::Addi | ImmOp::Slti | ImmOp::Sltiu | ImmOp::Xori | ImmOp::Ori | ImmOp::Andi =>
                false,
        }
    }

    /// Whether it takes the number as its immediate.
    fn takes(self, number: i32) -> bool
        ensures { IsTrue result ↔ IsImmediate self number }
    {
        if self.is_shift() {
            0 <= number && number < 32
        } else {
            is_signed_12(number)
        }
    }
}

impl Instr {
    /// Whether it has a word: its registers are below 32, its immediate is in its form's range, an offset is even, a
    /// shift amount is from 0 to 31, and `rest` has no bit of opcode and funct3.
    pub fn fits(&self) -> bool
        ensures { IsTrue result ↔ Fits self.now }
    {
        match *self {
            Instr::Lui { rd, imm } => rd < 32 && is_upper(imm),
            Instr::Auipc { rd, imm } => rd < 32 && is_upper(imm),
            Instr::Jal { rd, offset } => rd < 32 && is_offset_21(offset),
            Instr::Jalr { rd, rs1, imm } => rd < 32 && rs1 < 32 && is_signed_12(imm),
            Instr::Branch {
                rs1,
                rs2,
                offset,
                ..
            } => rs1 < 32 && rs2 < 32 && is_offset_13(offset),
            Instr::Load { rd, rs1, imm, .. } => rd < 32 && rs1 < 32 && is_signed_12(imm),
            Instr::Store { rs1, rs2, imm, .. } => rs1 < 32 && rs2 < 32 && is_signed_12(imm),
            Instr::OpImm { op, rd, rs1, imm } => rd < 32 && rs1 < 32 && op.takes(imm),
            Instr::Op { rd, rs1, rs2, .. } => rd < 32 && rs1 < 32 && rs2 < 32,
            Instr::Fence { rest } => is_rest(rest),
            Instr::FenceI { rest } => is_rest(rest),
            Instr::Ecall => true,
            Instr::Ebreak => true,
        }
    }
}
