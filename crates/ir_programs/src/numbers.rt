//! Numbers that stand for names, and names that stand twice.
ghost use Rattle.std.specs.Prelude.{◌≡◌, ◌&&◌, ◌<◌, ◌≤◌, ◌+◌, ◌-◌, ◌^◌, ◌∷◌, nat_le, IfOk, List, Some, length};
ghost use Rattle.std.specs.Fmt.{decimal};
ghost use Rattle.ir_grammar.specs.Numbering as numbering;
ghost use Rattle.ir_grammar.specs.Tokens.{are_digits as digits_in};
ghost use Rattle.ir_tree.specs.Texts as texts;
ghost use Rattle.ir_programs.specs.Locals as spec;
ghost use Rattle.ir_programs.specs.Refusals.{merged, first, refused};
ghost use Rattle.ir_programs.specs.Steps.{numbers_left};
ghost use Rattle.ir_programs.specs.declared.locals.Local.{Local};
ghost use Rattle.ir_programs.specs.declared.refusals.Cause.TheVariants.{WrongNumber};

use crate::locals::Local;
use crate::refusals::{Cause, Refusal, earlier};
use std::alloc::{AllocError, Global};

/// Whether two texts are one.
pub fn is_same(a: &[u8], b: &[u8]) -> bool
    ensures { result ≡ texts.same a.now b.now }
{
    a == b
}

fn is_digit(byte: u8) -> bool
    ensures { result ≡ nat_le 48 byte && nat_le byte 57 }
{
    48 <= byte && byte <= 57
}

fn are_digits(text: &[u8]) -> bool
    ensures { result ≡ digits_in text.now }
{
    'bytes: for byte in text {
        if !is_digit(*byte) {
            return false;
        }
    }
    true
}

fn is_number(name: &[u8]) -> bool
    ensures { result ≡ numbering.is_number name.now }
{
    if name.is_empty() {
        false
    } else {
        are_digits(name)
    }
}

fn is_decimal(alloc: Global, name: &[u8], number: u64) -> Result<bool, AllocError>
    ensures { IfOk result (λ is. is ≡ texts.same name.now (decimal number)) }
{
    let written = format!(in alloc; "{number}")?;
    Ok(is_same(name, written.as_bytes()))
}

/// What is told once one more condition fails, at this place.
pub fn noted(told: Option<Refusal>, cause: Cause, at: u32) -> Option<Refusal>
    ensures { result ≡ merged told (Some (record { at = at; cause = cause })) }
{
    let found = Refusal { at, cause };
    match told {
        Some(first) => Some(earlier(first, found)),
        None => Some(found),
    }
}

/// What is told so far, and the counter's next number.
#[derive(Clone, Copy)]
struct Counter {
    told: Option<Refusal>,
    number: u64,
}

/// The counter behind a name: one that is a number is to be the next.
fn counted(alloc: Global, counter: Counter, local: &Local) -> Result<Counter, AllocError>
    requires { counter.number < 2 ^ 64 - 1 }
    ensures told { IfOk result (λ c. (rest : List Local) → numbers_left c.told c.number rest ≡ numbers_left counter.told counter.number (local.now ∷ rest)) }
    ensures next { IfOk result (λ c. c.number ≤ counter.number + 1) }
{
    let text = local.name.text.as_slice();
    if !is_number(text) {
        return Ok(counter);
    }
    let number = counter.number + 1;
    if is_decimal(alloc, text, counter.number)? {
        let told = counter.told;
        return Ok(Counter { told, number });
    }
    let told = noted(counter.told, Cause::WrongNumber, local.name.at);
    Ok(Counter { told, number })
}

/// What is told once the numbers are looked at that stand for names: each is to be the next of a counter.
pub fn numbers_told(
    alloc: Global,
    told: Option<Refusal>,
    locals: &[Local],
) -> Result<Option<Refusal>, AllocError>
    requires { length locals.now < 2 ^ 63 }
    ensures { IfOk result (λ now. now ≡ merged told (first (refused WrongNumber (spec.wrong_numbers 0 locals.now)))) }
{
    let mut counter = Counter { told, number: 0 };
    'each: for local in locals {
        counter = counted(alloc, counter, local)?;
    }
    Ok(counter.told)
}
