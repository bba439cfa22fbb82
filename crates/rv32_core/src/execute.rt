//! What an instruction does, by the registers.

ghost use Rattle.std.specs.Prelude.{◌≡◌, ◌^◌, ◌<◌, IfSome};
ghost use Rattle.rv32_table.specs.Fits.{Fits};
ghost use Rattle.rv32_core.specs.Machine.{IsEffect, jump_to, load_from, store_at, branch_of, call_of, read_of};
ghost use Rattle.rv32_core.specs.Machine.{write_of, break_of, is_buffer, effect_of, effect_of_decoded, is_jump};
ghost use Rattle.rv32_core.specs.Machine.{moved_by, cost_of_decoded};
ghost use Rattle.rv32_core.specs.StepPlan.{machine_of};

use crate::console::Files;
use crate::effect::Effect;
use crate::hart::Core;
use crate::outcome::TrapKind;
use cycle_table::cost;
use rv32_arithmetic::{
    is_taken, jump_target, load_width, operate, operate_immediate, store_width, target,
};
use rv32_table::{BranchOp, Instr, LoadOp, StoreOp};

/// The host call that reads the input.
const READ: u32 = 63;

/// The host call that writes to the output.
const WRITE: u32 = 64;

/// The host call that ends the program.
const EXIT: u32 = 93;

/// The host call that moves the break.
const BREAK: u32 = 214;

/// A host call's answer -9, modulo 2^32: it names a file that isn't there.
const BAD_FILE: u32 = 4_294_967_287;

/// A host call's answer -14, modulo 2^32: its buffer isn't in the memory.
const BAD_BUFFER: u32 = 4_294_967_282;

/// A host call's answer -38, modulo 2^32: there is no call with its number.
const NO_CALL: u32 = 4_294_967_258;

/// The cycles of an instruction with this effect; a word that is none costs nothing.
pub(crate) fn cost_of(instr: Option<Instr>, effect: Effect) -> u64
    ensures { result ≡ cost_of_decoded instr effect }
{
    match instr {
        Some(instr) => cost(&instr, effect.is_jump(), u64::from(effect.moved())),
        None => 0,
    }
}

/// A jump to an address, which puts the address of the next instruction into a register.
fn jump(register: u8, target: u32) -> Effect
    ensures { result ≡ jump_to register target }
{
    if target % 4 == 0 {
        Effect::Jumps { register, target }
    } else {
        Effect::Traps {
            kind: TrapKind::FetchMisaligned,
        }
    }
}

impl Core {
    /// What a word does, by the instruction that it is.
    #[inline(always)]
    pub(crate) fn execute(&self, files: &Files, instr: Option<Instr>) -> Effect
        requires { IfSome instr Fits }
        ensures is { result ≡ effect_of_decoded (machine_of self.now files.now) instr }
        ensures fine { IsEffect (machine_of self.now files.now) result }
    {
        match instr {
            Some(instr) => self.effect(files, instr),
            None => Effect::Traps {
                kind: TrapKind::Illegal,
            },
        }
    }

    /// What an instruction does.
    #[inline(always)]
    fn effect(&self, files: &Files, instr: Instr) -> Effect
        requires { Fits instr }
        ensures { result ≡ effect_of (machine_of self.now files.now) instr }
    {
        match instr {
            Instr::Lui { rd, imm } => Effect::sets(rd, imm),
            Instr::Auipc { rd, imm } => Effect::sets(rd, self.pc().wrapping_add(imm)),
            Instr::Jal { rd, offset } => jump(rd, target(self.pc(), offset)),
            Instr::Jalr { rd, rs1, imm } => jump(rd, jump_target(self.register(rs1), imm)),
            Instr::Branch {
                op,
                rs1,
                rs2,
                offset,
            } => self.branch(op, rs1, rs2, offset),
            Instr::Load { op, rd, rs1, imm } => self.load(op, rd, target(self.register(rs1), imm)),
            Instr::Store { op, rs1, rs2, imm } => {
                self.store(op, target(self.register(rs1), imm), self.register(rs2))
            }
            Instr::OpImm { op, rd, rs1, imm } => {
                Effect::sets(rd, operate_immediate(op, self.register(rs1), imm))
            }
            Instr::Op { op, rd, rs1, rs2 } => {
                Effect::sets(rd, operate(op, self.register(rs1), self.register(rs2)))
            }
            Instr::Fence { .. } | Instr::FenceI { .. } => Effect::Passes,
            Instr::Ecall => self.call(files),
            Instr::Ebreak => Effect::Traps {
                kind: TrapKind::Breakpoint,
            },
        }
    }

    /// What a branch does.
    fn branch(&self, op: BranchOp, rs1: u8, rs2: u8, offset: i32) -> Effect
        requires first { rs1 < 32 }
        requires second { rs2 < 32 }
        ensures { result ≡ branch_of self.now op rs1 rs2 offset }
    {
        if is_taken(op, self.register(rs1), self.register(rs2)) {
            jump(0, target(self.pc(), offset))
        } else {
            Effect::Passes
        }
    }

    /// What a load from an address does.
    fn load(&self, op: LoadOp, register: u8, address: u32) -> Effect
        ensures { result ≡ load_from self.now op register address }
    {
        let width = load_width(op);
        if address % width != 0 {
            return Effect::Traps {
                kind: TrapKind::LoadMisaligned,
            };
        }
        if !self.is_inside(address, width) {
            return Effect::Traps {
                kind: TrapKind::LoadFault,
            };
        }
        Effect::Loads {
            op,
            register,
            address,
        }
    }

    /// What a store at an address does.
    fn store(&self, op: StoreOp, address: u32, value: u32) -> Effect
        ensures { result ≡ store_at self.now op address value }
    {
        let width = store_width(op);
        if address % width != 0 {
            return Effect::Traps {
                kind: TrapKind::StoreMisaligned,
            };
        }
        if !self.is_inside(address, width) {
            return Effect::Traps {
                kind: TrapKind::StoreFault,
            };
        }
        Effect::Stores { op, address, value }
    }

    /// What the host call does whose number is in x17.
    fn call(&self, files: &Files) -> Effect
        ensures { result ≡ call_of (machine_of self.now files.now) }
    {
        match self.register(17) {
            READ => self.read(files),
            WRITE => self.write(files),
            EXIT => Effect::Exits {
                status: (self.register(10) % 256) as u8,
            },
            BREAK => self.move_break(),
            _ => Effect::Answers { value: NO_CALL },
        }
    }

    /// What the host call to read does: from the file x10 into the x12 bytes at x11.
    fn read(&self, files: &Files) -> Effect
        ensures { result ≡ read_of (machine_of self.now files.now) }
    {
        let (file, address, count) = (self.register(10), self.register(11), self.register(12));
        if file != 0 {
            return Effect::Answers { value: BAD_FILE };
        }
        if !self.is_buffer(address, count) {
            return Effect::Answers { value: BAD_BUFFER };
        }
        let count = files.bytes_left().min(count as usize) as u32;
        Effect::Reads { address, count }
    }

    /// What the host call to write does: to the file x10 the x12 bytes at x11.
    fn write(&self, files: &Files) -> Effect
        ensures { result ≡ write_of (machine_of self.now files.now) }
    {
        let (file, address, count) = (self.register(10), self.register(11), self.register(12));
        if file != 1 && file != 2 {
            return Effect::Answers { value: BAD_FILE };
        }
        if !self.is_buffer(address, count) {
            return Effect::Answers { value: BAD_BUFFER };
        }
        if !files.has_room(count) {
            return Effect::Traps {
                kind: TrapKind::OutputLimit,
            };
        }
        Effect::Writes { address, count }
    }

    /// What the host call to move the break does: to x10.
    fn move_break(&self) -> Effect
        ensures { result ≡ break_of self.now }
    {
        let value = self.register(10);
        if self.takes_break(value) {
            Effect::Breaks { value }
        } else {
            Effect::Answers {
                value: self.break_now(),
            }
        }
    }

    /// Whether so many bytes from an address on are none, or all in the memory.
    fn is_buffer(&self, address: u32, count: u32) -> bool
        ensures { result ≡ is_buffer self.now address count }
    {
        count == 0 || self.is_inside(address, count)
    }
}
