//! Terms as text.
ghost use Rattle.std.specs.Prelude.{◌≡◌, ◌++◌, ◌&&◌, OnOk};
ghost use Rattle.std.specs.Fmt.{decimal};
ghost use Rattle.leaf_lines.specs.Terms as spec;

use bitnum::{BinOp, Num};
use places::Home;
use std::alloc::{AllocError, Global};
use terms::{Binary, Node, Term, Unary};
use value_texts::{put_number, put_text};

// A word, and a number behind it.
fn put_numbered(alloc: Global, text: &mut Vec<u8>, word: &str, number: u8) -> Result<(), AllocError>
    ensures { OnOk result (text.new.items ≡ text.old.items ++ (word.now ++ decimal number)) }
{
    put_text(text, word)?;
    put_number(alloc, text, u64::from(number))
}

fn bin_name(op: BinOp) -> &'static str
    ensures { result.now ≡ spec.bin_name op }
{
    match op {
        BinOp::Add => "add",
        BinOp::Sub => "sub",
        BinOp::Mul => "mul",
        BinOp::Udiv => "udiv",
        BinOp::Sdiv => "sdiv",
        BinOp::Urem => "urem",
        BinOp::Srem => "srem",
        BinOp::Shl => "shl",
        BinOp::Lshr => "lshr",
        BinOp::Ashr => "ashr",
        BinOp::And => "and",
        BinOp::Or => "or",
        BinOp::Xor => "xor",
    }
}

fn two_name(op: Binary) -> &'static str
    ensures { result.now ≡ spec.two_name op }
{
    match op {
        Binary::Bin(op) => bin_name(op),
        Binary::Eq => "eq",
        Binary::Ult => "ult",
        Binary::Slt => "slt",
        Binary::Join => "join",
    }
}

fn put_one_name(alloc: Global, text: &mut Vec<u8>, op: Unary) -> Result<(), AllocError>
    ensures { OnOk result (text.new.items ≡ text.old.items ++ spec.one_name op) }
{
    match op {
        Unary::Not => put_text(text, "not"),
        Unary::Zext(width) => put_numbered(alloc, text, "zext ", width),
        Unary::Sext(width) => put_numbered(alloc, text, "sext ", width),
        Unary::Trunc(width) => put_numbered(alloc, text, "trunc ", width),
        Unary::Byte(j) => put_numbered(alloc, text, "byte ", j),
    }
}

fn put_constant(alloc: Global, text: &mut Vec<u8>, number: Num) -> Result<(), AllocError>
    ensures { OnOk result (text.new.items ≡ text.old.items ++ spec.constant_text number) }
{
    put_number(alloc, text, number.bits())?;
    put_numbered(alloc, text, ":", number.width())
}

fn is_join(op: Binary) -> bool
    ensures { result ≡ spec.is_join op }
{
    match op {
        Binary::Join => true,
        Binary::Bin(_) | Binary::Eq | Binary::Ult | Binary::Slt => false,
    }
}

fn goes_on(in_join: bool, op: Binary) -> bool
    ensures { result ≡ (in_join && spec.is_join op) }
{
    in_join && is_join(op)
}

fn put_opening(text: &mut Vec<u8>, goes_on: bool, op: Binary) -> Result<(), AllocError>
    ensures { OnOk result (text.new.items ≡ text.old.items ++ spec.opening goes_on op) }
{
    if goes_on {
        return Ok(());
    }
    put_text(text, "(")?;
    put_text(text, two_name(op))?;
    put_text(text, " ")
}

fn put_closing(text: &mut Vec<u8>, goes_on: bool) -> Result<(), AllocError>
    ensures { OnOk result (text.new.items ≡ text.old.items ++ spec.closing goes_on) }
{
    if goes_on {
        return Ok(());
    }
    put_text(text, ")")
}

// A term, where it may be the last operand of a join. It calls itself once a level.
fn put_where<H: Home>(
    alloc: Global,
    text: &mut Vec<u8>,
    in_join: bool,
    term: &Term<H>,
) -> Result<(), AllocError>
    ensures { OnOk result (text.new.items ≡ text.old.items ++ spec.text_where in_join term.now) }
{
    match term.node() {
        Node::Constant(n) => put_constant(alloc, text, *n),
        Node::Input(k) => put_numbered(alloc, text, "in", *k),
        Node::One(op, a) => {
            put_text(text, "(")?;
            put_one_name(alloc, text, *op)?;
            put_text(text, " ")?;
            put_where(alloc, text, false, a)?;
            put_text(text, ")")
        }
        Node::Two(op, a, b) => {
            let goes_on = goes_on(in_join, *op);
            let is_join = is_join(*op);
            put_opening(text, goes_on, *op)?;
            put_where(alloc, text, false, a)?;
            put_text(text, " ")?;
            put_where(alloc, text, is_join, b)?;
            put_closing(text, goes_on)
        }
        Node::Choice(c, a, b) => {
            put_text(text, "(ite ")?;
            put_where(alloc, text, false, c)?;
            put_text(text, " ")?;
            put_where(alloc, text, false, a)?;
            put_text(text, " ")?;
            put_where(alloc, text, false, b)?;
            put_text(text, ")")
        }
    }
}

/// A term. A walk calls itself once a level of it.
pub(crate) fn put_term<H: Home>(
    alloc: Global,
    text: &mut Vec<u8>,
    term: &Term<H>,
) -> Result<(), AllocError>
    ensures { OnOk result (text.new.items ≡ text.old.items ++ spec.term_text term.now) }
{
    put_where(alloc, text, false, term)
}
