//! The words of statements, and how the operands of each are written.

ghost use Rattle.std.specs.Prelude.{◌≡◌, find, bytes_eq};
ghost use Rattle.rv32_asm.specs.Forms.{form_word, form_of};

use crate::words::{branch_word, immediate_word, load_word, register_word, store_word};
use rv32_table::{BranchOp, ImmOp, LoadOp, RegOp, StoreOp};

/// How a statement's operands are written, and what it stands for.
#[derive(Clone, Copy, Debug, PartialEq, Eq)]
pub(crate) enum Form {
    /// rd, number
    Lui,
    /// rd, number
    Auipc,
    /// rd, target
    Jal,
    /// target: `jal` with x0
    Jump,
    /// rd, number(rs1)
    Jalr,
    /// rs1, rs2, target
    Branch(BranchOp),
    /// rd, number(rs1)
    Load(LoadOp),
    /// rs2, number(rs1)
    Store(StoreOp),
    /// rd, rs1, number
    OpImm(ImmOp),
    /// rd, rs1, rs2
    Op(RegOp),
    /// none
    Ecall,
    /// none
    Ebreak,
    /// none: every access before it against every one after it
    Fence,
    /// none
    FenceI,
    /// none: `addi x0, x0, 0`
    Nop,
    /// none: `jalr x0, 0(x1)`
    Ret,
    /// rd, number: a number put into a register
    Li,
    /// rd, label: a place put into a register
    La,
    /// a number or a label: four bytes
    Word,
    /// number: a byte
    Byte,
    /// a text in double quotes
    Ascii,
    /// number: so many zero bytes
    Zero,
    /// number: zero bytes up to the next multiple
    Balign,
}

/// Every form.
const FORMS: [Form; 59] = [
    Form::Lui,
    Form::Auipc,
    Form::Jal,
    Form::Jump,
    Form::Jalr,
    Form::Branch(BranchOp::Beq),
    Form::Branch(BranchOp::Bne),
    Form::Branch(BranchOp::Blt),
    Form::Branch(BranchOp::Bge),
    Form::Branch(BranchOp::Bltu),
    Form::Branch(BranchOp::Bgeu),
    Form::Load(LoadOp::Lb),
    Form::Load(LoadOp::Lh),
    Form::Load(LoadOp::Lw),
    Form::Load(LoadOp::Lbu),
    Form::Load(LoadOp::Lhu),
    Form::Store(StoreOp::Sb),
    Form::Store(StoreOp::Sh),
    Form::Store(StoreOp::Sw),
    Form::OpImm(ImmOp::Addi),
    Form::OpImm(ImmOp::Slti),
    Form::OpImm(ImmOp::Sltiu),
    Form::OpImm(ImmOp::Xori),
    Form::OpImm(ImmOp::Ori),
    Form::OpImm(ImmOp::Andi),
    Form::OpImm(ImmOp::Slli),
    Form::OpImm(ImmOp::Srli),
    Form::OpImm(ImmOp::Srai),
    Form::Op(RegOp::Add),
    Form::Op(RegOp::Sub),
    Form::Op(RegOp::Sll),
    Form::Op(RegOp::Slt),
    Form::Op(RegOp::Sltu),
    Form::Op(RegOp::Xor),
    Form::Op(RegOp::Srl),
    Form::Op(RegOp::Sra),
    Form::Op(RegOp::Or),
    Form::Op(RegOp::And),
    Form::Op(RegOp::Mul),
    Form::Op(RegOp::Mulh),
    Form::Op(RegOp::Mulhsu),
    Form::Op(RegOp::Mulhu),
    Form::Op(RegOp::Div),
    Form::Op(RegOp::Divu),
    Form::Op(RegOp::Rem),
    Form::Op(RegOp::Remu),
    Form::Ecall,
    Form::Ebreak,
    Form::Fence,
    Form::FenceI,
    Form::Nop,
    Form::Ret,
    Form::Li,
    Form::La,
    Form::Word,
    Form::Byte,
    Form::Ascii,
    Form::Zero,
    Form::Balign,
];

/// The word of a form.
fn form_word(form: Form) -> &'static str
    ensures { result.now ≡ form_word form }
{
    match form {
        Form::Lui => "lui",
        Form::Auipc => "auipc",
        Form::Jal => "jal",
        Form::Jump => "j",
        Form::Jalr => "jalr",
        Form::Branch(op) => branch_word(op),
        Form::Load(op) => load_word(op),
        Form::Store(op) => store_word(op),
        Form::OpImm(op) => immediate_word(op),
        Form::Op(op) => register_word(op),
        Form::Ecall => "ecall",
        Form::Ebreak => "ebreak",
        Form::Fence => "fence",
        Form::FenceI => "fence.i",
        Form::Nop => "nop",
        Form::Ret => "ret",
        Form::Li => "li",
        Form::La => "la",
        Form::Word => ".word",
        Form::Byte => ".byte",
        Form::Ascii => ".ascii",
        Form::Zero => ".zero",
        Form::Balign => ".balign",
    }
}

/// The first of these forms whose word this is.
fn find_form(forms: &[Form], word: &[u8]) -> Option<Form>
    ensures { result ≡ find (λ form. bytes_eq (form_word form) word.now) forms.now }
{
    forms
        .iter()
        .copied()
        .find(|form| form_word(*form).as_bytes() == word)
}

/// The form of the statement that begins with this word.
#[tactic(auto, unfolding(crate::specs::Forms::forms))]
pub(crate) fn form_of(word: &[u8]) -> Option<Form>
    ensures { result ≡ form_of word.now }
{
    find_form(&FORMS, word)
}
