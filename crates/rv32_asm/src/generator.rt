//! The generator: a program made from a number.

ghost use Rattle.std.specs.Prelude.{◌≡◌, ◌≤◌, ◌++◌, Ok, OnOk, IfOk, string_bytes};
ghost use Rattle.rv32_asm.specs.File.{assembled};
ghost use Rattle.rv32_asm.specs.Generator.{number_after, data_words, ended, number_line, generated_text, start};

use crate::assembly::assemble;
use crate::fault::AsmFault;
use asc_base::NoMemory;
use std::alloc::{AllocError, Global};

/// Where the program begins.
const START: u32 = 65_536;

/// What a number is multiplied by to give the next, modulo 2^64.
const FACTOR: u64 = 6_364_136_223_846_793_005;

/// What is added to the product.
const SUMMAND: u64 = 1_442_695_040_888_963_407;

/// The program up to its data: it takes each word into a hash, which it puts into the word's place, writes the last
/// hash as four bytes, the least first, and exits with 0.
const PROGRAM: &str = " la s0, count
 lw s1, 0(s0)
 addi s0, s0, 4
 li a0, 0
next:
 lw t0, 0(s0)
 slli t1, a0, 5
 add a0, a0, t1
 add a0, a0, t0
 sw a0, 0(s0)
 addi s0, s0, 4
 addi s1, s1, -1
 bne s1, zero, next
 la a1, count
 sw a0, 0(a1)
 li a0, 1
 li a2, 4
 li a7, 64
 ecall
 li a0, 0
 li a7, 93
 ecall
count:
";

/// The number that follows.
fn number_after(number: u64) -> u64
    ensures { result ≡ number_after number }
{
    number.wrapping_mul(FACTOR).wrapping_add(SUMMAND)
}

/// Appends the line of a number.
fn push_number(number: u32, text: &mut String) -> Result<(), AllocError>
    ensures { OnOk result (string_bytes text.new ≡ string_bytes text.old ++ ended (number_line number)) }
{
    write!(text, " .word {number}\n")
}

/// The text that is made from a seed and a count of words.
fn generated_text(alloc: Global, seed: u32, words: u32) -> Result<String, AllocError>
    ensures { IfOk result (λ text. string_bytes text ≡ generated_text seed words) }
{
    let mut text = String::from_str(alloc, PROGRAM)?;
    push_number(words, &mut text)?;
    let mut number = u64::from(seed);
    for _ in 0..words {
        number = number_after(number);
        push_number((number >> 32) as u32, &mut text)?;
    }
    Ok(text)
}

/// The ELF file of a program that is made from a number, with so many words of data, 1 to 65,536: what [`assemble`]
/// gives for the text of `specs/Generator.antt` at 65,536, which always assembles.
///
/// Run, it writes four bytes, the least first: the hash of the words, where the hash of none is 0, and a word takes 33
/// times the hash so far, plus the word, modulo 2^32. `NoMemory` is want of memory.
pub fn generate(alloc: Global, seed: u32, words: u32) -> Result<Vec<u8>, NoMemory>
    requires some { 1 ≤ words }
    requires most { words ≤ 65_536 }
    ensures { IfOk result (λ file. assembled start (generated_text seed words) ≡ Ok file.items) }
{
    let text = generated_text(alloc, seed, words).map_err(|_| NoMemory)?;
    match assemble(alloc, text.as_bytes(), START) {
        Ok(file) => Ok(file),
        Err(AsmFault::NoMemory) => Err(NoMemory),
        Err(AsmFault::Bad { .. }) => unreachable!(),
    }
}
