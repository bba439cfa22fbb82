//! The core: registers, program counter, and the step.

ghost use Rattle.std.specs.Prelude.{◌≡◌, ◌+◌, ◌%◌, ◌^◌, ◌<◌, ◌≤◌, IfOk, IfErr, OnErr};
ghost use Rattle.request_plan.specs.Plan.{Ends, Stops};
ghost use Rattle.asc_base.specs.Memory.{IsMemory};
ghost use Rattle.rv32_core.specs.Machine.{IsEffect, core_at_start, at_pc, next_pc, register, with_register, is_inside};
ghost use Rattle.rv32_core.specs.Machine.{takes_break};
ghost use Rattle.rv32_core.specs.FlatMachine.{going_on, trap_at};
ghost use Rattle.rv32_core.specs.StepPlan.{machine_of, effect_plan, step_plan, TellsStep};

use crate::access::{load_value, store_value};
use crate::console::Files;
use crate::effect::Effect;
use crate::execute::cost_of;
use crate::memory::Bytes;
use crate::outcome::{Done, Ended, TrapKind};
use rv32_table::decode;
use std::marker::Model;

/// A core: 32 registers of which x0 is 0, the program counter, where its memory lies, and the program's break.
#[derive(Debug, Drop)]
pub struct Core {
    pc: u32,
    registers: [u32; 32],
    base: u32,
    size: u32,
    first_break: u32,
    break_now: u32,
}

impl Model for Core {
    ghost use Rattle.rv32_core.specs.Machine.{CoreState, IsCore};

    ghost Value = { CoreState };

    ghost view = { λ c. record {
      pc = c.pc;
      registers = c.registers;
      base = c.base;
      size = c.size;
      first_break = c.first_break;
      break_now = c.break_now;
    } };

    ghost invariant = { λ c. IsCore (record {
      pc = c.pc;
      registers = c.registers;
      base = c.base;
      size = c.size;
      first_break = c.first_break;
      break_now = c.break_now;
    }) };
}

impl Core {
    /// The core at a program's start: all registers are 0 but x2, which is 16 below the memory's end. The memory has
    /// `size` bytes from `base` on, `entry` is the address of the first instruction, and `heap` is the first break.
    pub fn new(entry: u32, base: u32, size: u32, heap: u32) -> Core
        requires memory { IsMemory base size }
        requires aligned { entry % 4 ≡ 0 }
        requires entry_above { base ≤ entry }
        requires entry_below { entry < base + size }
        requires heap_above { base ≤ heap }
        requires heap_below { heap ≤ base + size }
        ensures { result ≡ core_at_start entry base size heap }
    {
        let mut registers = [0; 32];
        registers[2] = base + size - 16;
        Core {
            pc: entry,
            registers,
            base,
            size,
            first_break: heap,
            break_now: heap,
        }
    }

    /// One instruction, over bytes that lie where the core's memory does. Each request lies in one line of 64 bytes,
    /// and `step_plan` has them in order. Where one is stopped, the registers and the files are unchanged; a trap
    /// changes nothing and costs nothing. Where the bytes are told after an Ok, the step is that of the flat machine on
    /// them.
    pub fn step<B: Bytes>(&mut self, bytes: &mut B, files: &mut Files) -> Result<Done, B::Stop>
        requires base { B.base bytes.old ≡ self.old.base }
        requires size { B.size bytes.old ≡ self.old.size }
        requires ready { B.ready bytes.old }
        ensures ok { IfOk result (λ done. Ends B.step (step_plan (machine_of self.old files.old))
            bytes.old bytes.new (machine_of self.new files.new, done)) }
        ensures err { IfErr result (λ stop. Stops B.step (step_plan (machine_of self.old files.old))
            bytes.old bytes.new stop (machine_of self.new files.new)) }
        ensures unchanged { OnErr result (machine_of self.new files.new ≡ machine_of self.old files.old) }
        ensures told { IfOk result (λ done. TellsStep (machine_of self.old files.old) (B.told bytes.old)
            (machine_of self.new files.new) (B.told bytes.new) done) }
        ensures same_base { self.new.base ≡ self.old.base }
        ensures same_size { self.new.size ≡ self.old.size }
        ensures bytes_base { B.base bytes.new ≡ B.base bytes.old }
        ensures bytes_size { B.size bytes.new ≡ B.size bytes.old }
    {
        self.follow(bytes, files)
    }

    /// One instruction, by its plan.
    fn follow<B: Bytes>(&mut self, bytes: &mut B, files: &mut Files) -> Result<Done, B::Stop>
        requires base { B.base bytes.old ≡ self.old.base }
        requires size { B.size bytes.old ≡ self.old.size }
        requires ready { B.ready bytes.old }
        ensures ok { IfOk result (λ done. Ends B.step (step_plan (machine_of self.old files.old))
            bytes.old bytes.new (machine_of self.new files.new, done)) }
        ensures err { IfErr result (λ stop. Stops B.step (step_plan (machine_of self.old files.old))
            bytes.old bytes.new stop (machine_of self.new files.new)) }
        ensures unchanged { OnErr result (machine_of self.new files.new ≡ machine_of self.old files.old) }
        ensures same_base { self.new.base ≡ self.old.base }
        ensures same_size { self.new.size ≡ self.old.size }
        ensures bytes_base { B.base bytes.new ≡ B.base bytes.old }
        ensures bytes_size { B.size bytes.new ≡ B.size bytes.old }
    {
        if !self.is_inside(self.pc, 4) {
            return Ok(self.trap(TrapKind::FetchFault));
        }
        let mut word = [0u8; 4];
        bytes.load(self.pc, &mut word)?;
        let instr = decode(u32::from_le_bytes(word));
        let effect = self.execute(files, instr);
        self.perform(bytes, files, effect, cost_of(instr, effect))
    }

    /// What an effect asks for, and what it leaves.
    fn perform<B: Bytes>(
        &mut self,
        bytes: &mut B,
        files: &mut Files,
        effect: Effect,
        cost: u64,
    ) -> Result<Done, B::Stop>
        requires base { B.base bytes.old ≡ self.old.base }
        requires size { B.size bytes.old ≡ self.old.size }
        requires ready { B.ready bytes.old }
        requires below { self.old.base + self.old.size < 2 ^ 32 }
        requires effect { IsEffect (machine_of self.old files.old) effect }
        ensures ok { IfOk result (λ done. Ends B.step (effect_plan (machine_of self.old files.old) cost effect)
            bytes.old bytes.new (machine_of self.new files.new, done)) }
        ensures err { IfErr result (λ stop. Stops B.step (effect_plan (machine_of self.old files.old) cost effect)
            bytes.old bytes.new stop (machine_of self.new files.new)) }
        ensures unchanged { OnErr result (machine_of self.new files.new ≡ machine_of self.old files.old) }
        ensures same_base { self.new.base ≡ self.old.base }
        ensures same_size { self.new.size ≡ self.old.size }
        ensures bytes_base { B.base bytes.new ≡ B.base bytes.old }
        ensures bytes_size { B.size bytes.new ≡ B.size bytes.old }
    {
        match effect {
            Effect::Passes => Ok(self.set_to(0, 0, cost)),
            Effect::Sets { register, value } => Ok(self.set_to(register, value, cost)),
            Effect::Jumps { register, target } => {
                Ok(self.move_on(register, self.next_pc(), target, cost))
            }
            Effect::Loads {
                op,
                register,
                address,
            } => {
                let value = load_value(bytes, op, address)?;
                Ok(self.set_to(register, value, cost))
            }
            Effect::Stores { op, address, value } => {
                store_value(bytes, op, address, value)?;
                Ok(self.set_to(0, 0, cost))
            }
            Effect::Answers { value } => Ok(self.set_to(10, value, cost)),
            Effect::Breaks { value } => {
                self.break_now = value;
                Ok(self.set_to(10, value, cost))
            }
            Effect::Reads { address, count } => {
                files.read(bytes, address, count)?;
                Ok(self.set_to(10, count, cost))
            }
            Effect::Writes { address, count } => {
                files.write(bytes, address, count)?;
                Ok(self.set_to(10, count, cost))
            }
            Effect::Exits { status } => Ok(Done {
                ended: Ended::Exit { status },
                cost,
            }),
            Effect::Traps { kind } => Ok(self.trap(kind)),
        }
    }

    /// A register gets a value, x0 never, and the core goes on at an address, after so many cycles.
    fn move_on(&mut self, register: u8, value: u32, pc: u32, cost: u64) -> Done
        requires register { register < 32 }
        requires aligned { pc % 4 ≡ 0 }
        ensures core { self.new ≡ at_pc (with_register self.old register value) pc }
        ensures done { result ≡ going_on cost }
    {
        if register != 0 {
            self.registers[register as usize] = value;
        }
        self.pc = pc;
        Done {
            ended: Ended::No,
            cost,
        }
    }

    /// A register gets a value, x0 never, and the next instruction follows, after so many cycles.
    fn set_to(&mut self, register: u8, value: u32, cost: u64) -> Done
        requires { register < 32 }
        ensures core { self.new ≡ at_pc (with_register self.old register value) (next_pc self.old) }
        ensures done { result ≡ going_on cost }
    {
        self.move_on(register, value, self.next_pc(), cost)
    }

    /// The address of the next instruction.
    fn next_pc(&self) -> u32
        ensures is { result ≡ next_pc self.now }
        ensures aligned { result % 4 ≡ 0 }
    {
        self.pc.wrapping_add(4)
    }

    /// The program counter.
    pub(crate) fn pc(&self) -> u32
        ensures { result ≡ self.now.pc }
    {
        self.pc
    }

    /// The value of a register.
    pub(crate) fn register(&self, index: u8) -> u32
        requires { index < 32 }
        ensures { result ≡ register self.now index }
    {
        self.registers[index as usize]
    }

    /// Whether so many bytes from an address on are all in the memory.
    pub(crate) fn is_inside(&self, address: u32, count: u32) -> bool
        ensures { result ≡ is_inside self.now address count }
    {
        let end = u64::from(address) + u64::from(count);
        self.base <= address && end <= u64::from(self.base) + u64::from(self.size)
    }

    /// The break now.
    pub(crate) fn break_now(&self) -> u32
        ensures { result ≡ self.now.break_now }
    {
        self.break_now
    }

    /// Whether the break may become this: an address from the first break to the memory's end.
    pub(crate) fn takes_break(&self, address: u32) -> bool
        ensures { result ≡ takes_break self.now address }
    {
        self.first_break <= address && address <= self.base + self.size
    }

    /// A trap at the program counter.
    fn trap(&self, kind: TrapKind) -> Done
        ensures { result ≡ trap_at self.now kind }
    {
        Done {
            ended: Ended::Trap { kind, pc: self.pc },
            cost: 0,
        }
    }
}

#[cfg(test)]
mod tests;
