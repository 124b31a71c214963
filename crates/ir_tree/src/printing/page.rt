//! A text under way: tokens are put at its end, with the gaps between them.

ghost use Rattle.std.specs.Prelude.{◌≡◌, [], ◌∷◌, ◌++◌, ◌<◌, true, false, ◌||◌, codes, OnOk, if◌then◌else◌};
ghost use Rattle.std.specs.Fmt.{decimal};
ghost use Rattle.ir_tree.specs.Texts as texts;
ghost use Rattle.ir_tree.specs.Printing.{plain, line_text};
ghost use Rattle.ir_tree.specs.Pages.{Written, begun, with_token, after, comma_before, opened, extended};

use crate::constants::Integer;
use crate::printing::names::{push_name, push_quoted};
use crate::types::is_same;
use std::alloc::{AllocError, Global};
use std::marker::Model;

/// What is written so far, and whether the next token stands at once behind it.
#[derive(Drop)]
pub struct Page {
    text: Vec<u8>,
    glued: bool,
}

impl Model for Page {
    ghost use Rattle.ir_tree.specs.Pages.{Written};

    ghost Value = { Written };

    ghost view = { λ p. record { text = p.text.items; glued = p.glued } };
}

/// Whether a token stands at once behind what is written.
fn stands_close(glued: bool, token: &[u8]) -> bool
    ensures { result ≡ (glued || texts.no_space_before token.now) }
{
    glued
        || is_same(token, b"(")
        || is_same(token, b",")
        || is_same(token, b")")
        || is_same(token, b"]")
}

/// Whether the token behind a mark stands at once behind it.
fn holds_close(token: &[u8]) -> bool
    ensures { result ≡ texts.no_space_behind token.now }
{
    is_same(token, b"(") || is_same(token, b"[")
}

impl Page {
    /// The empty text.
    pub fn new(alloc: Global) -> Page
        ensures { result ≡ record { text = []; glued = true } }
    {
        Page {
            text: Vec::new(alloc),
            glued: true,
        }
    }

    /// The text.
    pub fn into_text(self) -> Vec<u8>
        ensures { result.items ≡ self.text }
    {
        let Page { text, glued: _ } = self;
        text
    }

    /// Begins a line, which may be indented.
    pub fn begin_line(&mut self, indented: bool) -> Result<(), AllocError>
        ensures { OnOk result (self.new ≡ begun self.old indented) }
    {
        self.glued = true;
        if indented {
            return self.text.extend_from_slice(b"  ");
        }
        Ok(())
    }

    /// Ends a line.
    pub fn end_line(&mut self) -> Result<(), AllocError>
        ensures { OnOk result (self.new.text ≡ self.old.text ++ 10 ∷ []) }
    {
        self.text.push(b'\n')?;
        Ok(())
    }

    /// Puts a token, with a space before it where one is wanted.
    pub fn put(&mut self, token: &[u8]) -> Result<(), AllocError>
        ensures { OnOk result (self.new ≡ with_token self.old token.now) }
    {
        let glued = self.glued;
        self.space_unless(stands_close(glued, token))?;
        self.glued = holds_close(token);
        self.extend(token)
    }

    /// Puts a comma before each item of a list but the first.
    pub fn put_comma_before(&mut self, index: usize) -> Result<(), AllocError>
        ensures { OnOk result (self.new ≡ after self.old (comma_before index)) }
    {
        if index == 0 {
            return Ok(());
        }
        self.put(b",")
    }

    fn space_unless(&mut self, is_close: bool) -> Result<(), AllocError>
        ensures { OnOk result (self.new ≡ extended self.old (if is_close then [] else codes " ")) }
    {
        if !is_close {
            self.text.push(b' ')?;
        }
        Ok(())
    }

    /// Begins a token that is no mark.
    fn open(&mut self) -> Result<(), AllocError>
        ensures { OnOk result (self.new ≡ opened self.old) }
    {
        let glued = self.glued;
        self.space_unless(glued)?;
        self.glued = false;
        Ok(())
    }

    /// Begins a token that is no mark, by its first byte.
    fn begin_token(&mut self, first: u8) -> Result<(), AllocError>
        ensures { OnOk result (self.new ≡ extended (opened self.old) (first ∷ [])) }
    {
        self.open()?;
        self.extend(&[first])
    }

    /// Puts bytes at the end of a token.
    fn extend(&mut self, bytes: &[u8]) -> Result<(), AllocError>
        ensures { OnOk result (self.new ≡ extended self.old bytes.now) }
    {
        self.text.extend_from_slice(bytes)
    }

    /// A quoted text.
    fn extend_quoted(&mut self, bytes: &[u8]) -> Result<(), AllocError>
        ensures { OnOk result (self.new ≡ extended self.old (texts.quoted bytes.now)) }
    {
        push_quoted(&mut self.text, bytes)
    }

    /// A name, with quotes if it needs them.
    fn extend_name(&mut self, name: &[u8]) -> Result<(), AllocError>
        ensures { OnOk result (self.new ≡ extended self.old (texts.name_text name.now)) }
    {
        push_name(&mut self.text, name)
    }

    /// Puts the name of a global or a function.
    pub fn put_global(&mut self, name: &[u8]) -> Result<(), AllocError>
        ensures { OnOk result (self.new ≡ with_token self.old (texts.global_text name.now)) }
    {
        self.begin_token(b'@')?;
        self.extend_name(name)
    }

    /// Puts the name of a type, a register, a parameter or a block.
    pub fn put_local(&mut self, name: &[u8]) -> Result<(), AllocError>
        ensures { OnOk result (self.new ≡ with_token self.old (texts.local_text name.now)) }
    {
        self.begin_token(b'%')?;
        self.extend_name(name)
    }

    /// Puts a string of bytes.
    pub fn put_string(&mut self, bytes: &[u8]) -> Result<(), AllocError>
        ensures { OnOk result (self.new ≡ with_token self.old (texts.string_text bytes.now)) }
    {
        self.begin_token(b'c')?;
        self.extend_quoted(bytes)
    }

    /// The line of a label.
    pub fn put_label_line(&mut self, name: &[u8]) -> Result<(), AllocError>
        ensures { OnOk result (self.new.text ≡ self.old.text ++ line_text (plain (texts.label_text name.now ∷ []))) }
    {
        self.begin_line(false)?;
        self.extend_name(name)?;
        self.extend(b":")?;
        self.end_line()
    }

    /// Decimal digits.
    fn extend_decimal(&mut self, number: u64) -> Result<(), AllocError>
        ensures { OnOk result (self.new ≡ extended self.old (decimal number)) }
    {
        if number < 10 {
            return self.extend(&[48 + number as u8]);
        }
        self.extend_decimal(number / 10)?;
        self.extend(&[48 + (number % 10) as u8])
    }

    /// Puts a number.
    pub fn put_integer(&mut self, number: Integer) -> Result<(), AllocError>
        ensures { OnOk result (self.new ≡ with_token self.old (texts.integer_text number)) }
    {
        if number.negative {
            self.begin_token(b'-')?;
            return self.extend_decimal(number.magnitude);
        }
        self.open()?;
        self.extend_decimal(number.magnitude)
    }

    /// Puts an integer type, by its number of bits.
    pub fn put_width(&mut self, width: u8) -> Result<(), AllocError>
        ensures { OnOk result (self.new ≡ with_token self.old (texts.width_text width)) }
    {
        self.begin_token(b'i')?;
        self.extend_decimal(width as u64)
    }
}
