//! The tokens that values are printed as.
ghost use Rattle.std.specs.Prelude.{◌≡◌, ◌<◌, ◌++◌, ◌∷◌, [], map, IfOk};
ghost use Rattle.ir_tree.specs.Pages.{comma_before};
ghost use Rattle.std.specs.Fmt.{decimal};
ghost use Rattle.ir_programs.specs.Edges as edges;
ghost use Rattle.ir_tree.specs.Spelling as spelling;
ghost use Rattle.ir_tree.specs.Texts as texts;
ghost use Rattle.ir_programs.specs.Texts.{same_all as all_same};

use ir_programs::is_same;
use ir_tree::constants::{ConstIndex, GepLevel, Integer, Value, ValueForm};
use ir_tree::printing::push_name;
use ir_tree::types::{IrType, Name};
use plain_list::Sequence;
use std::alloc::{AllocError, Global};

/// The token of a name behind its mark.
fn name_token(alloc: Global, mark: u8, name: &[u8]) -> Result<Sequence<u8>, AllocError>
    ensures { IfOk result (λ token. token ≡ mark ∷ texts.name_text name.now) }
{
    let mut text = Vec::new(alloc);
    text.push(mark)?;
    push_name(&mut text, name)?;
    Ok(Sequence::from_vec(text))
}

/// Puts the digits of a number.
fn push_digits(alloc: Global, text: &mut Vec<u8>, number: u64) -> Result<(), AllocError>
    ensures { IfOk result (λ u. text.new.items ≡ text.old.items ++ decimal number) }
{
    let written = format!(in alloc; "{number}")?;
    text.extend_from_slice(written.as_bytes())
}

/// The token of an integer.
fn integer_token(alloc: Global, number: Integer) -> Result<Sequence<u8>, AllocError>
    ensures { IfOk result (λ token. token ≡ texts.integer_text number) }
{
    let mut text = Vec::new(alloc);
    if number.negative {
        text.push(b'-')?;
    }
    push_digits(alloc, &mut text, number.magnitude)?;
    Ok(Sequence::from_vec(text))
}

/// The token of an integer type.
fn width_token(alloc: Global, width: u8) -> Result<Sequence<u8>, AllocError>
    ensures { IfOk result (λ token. token ≡ texts.width_text width) }
{
    let mut text = Vec::new(alloc);
    text.push(b'i')?;
    push_digits(alloc, &mut text, width as u64)?;
    Ok(Sequence::from_vec(text))
}

/// Puts a word or a mark.
fn push_word(alloc: Global, tokens: &mut Vec<Sequence<u8>>, word: &[u8]) -> Result<(), AllocError>
    ensures { IfOk result (λ u. tokens.new.items ≡ tokens.old.items ++ word.now ∷ []) }
{
    tokens.push(Sequence::from_slice(alloc, word)?)?;
    Ok(())
}

fn opening(packed: bool) -> &'static [u8]
    ensures { result.now ≡ spelling.opening packed }
{
    if packed { b"<{" } else { b"{" }
}

fn closing(packed: bool) -> &'static [u8]
    ensures { result.now ≡ spelling.closing packed }
{
    if packed { b"}>" } else { b"}" }
}

/// Puts the tokens of a type.
#[cycle(types)]
fn push_type(alloc: Global, tokens: &mut Vec<Sequence<u8>>, kind: &IrType) -> Result<(), AllocError>
    ensures { IfOk result (λ u. tokens.new.items ≡ tokens.old.items ++ spelling.type_tokens kind.now) }
{
    match kind {
        IrType::Int(width) => {
            tokens.push(width_token(alloc, *width)?)?;
            Ok(())
        }
        IrType::Ptr => push_word(alloc, tokens, b"ptr"),
        IrType::Array {
            at: _,
            len,
            element,
        } => {
            push_word(alloc, tokens, b"[")?;
            let magnitude = *len;
            let negative = false;
            tokens.push(integer_token(
                alloc,
                Integer {
                    negative,
                    magnitude,
                },
            )?)?;
            push_word(alloc, tokens, b"x")?;
            push_type(alloc, tokens, element.get())?;
            push_word(alloc, tokens, b"]")
        }
        IrType::Struct {
            at: _,
            fields,
            packed,
        } => {
            push_word(alloc, tokens, opening(*packed))?;
            push_types(alloc, tokens, fields.as_slice())?;
            push_word(alloc, tokens, closing(*packed))
        }
        IrType::Named { name, at: _ } => {
            tokens.push(name_token(alloc, b'%', name.as_slice())?)?;
            Ok(())
        }
    }
}

/// Puts a comma before each item of a list but the first.
fn push_comma_before(
    alloc: Global,
    tokens: &mut Vec<Sequence<u8>>,
    index: usize,
) -> Result<(), AllocError>
    ensures { IfOk result (λ u. tokens.new.items ≡ tokens.old.items ++ comma_before index) }
{
    if index == 0 {
        return Ok(());
    }
    push_word(alloc, tokens, b",")
}

/// Puts the tokens of types with commas between them.
#[cycle(types)]
fn push_types(
    alloc: Global,
    tokens: &mut Vec<Sequence<u8>>,
    kinds: &[IrType],
) -> Result<(), AllocError>
    ensures { IfOk result (λ u. tokens.new.items ≡ tokens.old.items ++ spelling.separated (map spelling.type_tokens kinds.now)) }
{
    for (index, kind) in kinds.iter().enumerate() {
        push_comma_before(alloc, tokens, index)?;
        push_type(alloc, tokens, kind)?;
    }
    Ok(())
}

/// Puts the tokens of indices, each behind a comma.
fn push_indices(
    alloc: Global,
    tokens: &mut Vec<Sequence<u8>>,
    indices: &[ConstIndex],
) -> Result<(), AllocError>
    ensures { IfOk result (λ u. tokens.new.items ≡ tokens.old.items ++ spelling.others (map spelling.const_index_tokens indices.now)) }
{
    for index in indices {
        push_word(alloc, tokens, b",")?;
        tokens.push(width_token(alloc, index.width)?)?;
        tokens.push(integer_token(alloc, index.value)?)?;
    }
    Ok(())
}

/// Puts the tokens of a constant expression.
fn push_gep(
    alloc: Global,
    tokens: &mut Vec<Sequence<u8>>,
    base: &Name,
    levels: &[GepLevel],
) -> Result<(), AllocError>
    ensures { IfOk result (λ u. tokens.new.items ≡ tokens.old.items ++ spelling.gep_tokens base.now levels.now) }
{
    match levels {
        [] => {
            tokens.push(name_token(alloc, b'@', base.text.as_slice())?)?;
            Ok(())
        }
        [level, inner @ ..] => {
            push_word(alloc, tokens, b"getelementptr")?;
            push_word(alloc, tokens, b"(")?;
            push_type(alloc, tokens, &level.source)?;
            push_word(alloc, tokens, b",")?;
            push_word(alloc, tokens, b"ptr")?;
            push_gep(alloc, tokens, base, inner)?;
            push_indices(alloc, tokens, level.indices.as_slice())?;
            push_word(alloc, tokens, b")")
        }
    }
}

fn push_form(
    alloc: Global,
    tokens: &mut Vec<Sequence<u8>>,
    form: &ValueForm,
) -> Result<(), AllocError>
    ensures { IfOk result (λ u. tokens.new.items ≡ tokens.old.items ++ spelling.form_tokens form.now) }
{
    match form {
        ValueForm::Local(name) => {
            tokens.push(name_token(alloc, b'%', name.as_slice())?)?;
            Ok(())
        }
        ValueForm::Global(name) => {
            tokens.push(name_token(alloc, b'@', name.as_slice())?)?;
            Ok(())
        }
        ValueForm::Int(number) => {
            tokens.push(integer_token(alloc, *number)?)?;
            Ok(())
        }
        ValueForm::True => push_word(alloc, tokens, b"true"),
        ValueForm::False => push_word(alloc, tokens, b"false"),
        ValueForm::Null => push_word(alloc, tokens, b"null"),
        ValueForm::Undef => push_word(alloc, tokens, b"undef"),
        ValueForm::Poison => push_word(alloc, tokens, b"poison"),
        ValueForm::ZeroInitializer => push_word(alloc, tokens, b"zeroinitializer"),
        ValueForm::Gep(gep) => push_gep(alloc, tokens, &gep.base, gep.levels.as_slice()),
    }
}

/// The tokens of a value.
fn tokens_of(alloc: Global, value: &Value) -> Result<Sequence<Sequence<u8>>, AllocError>
    ensures { IfOk result (λ tokens. tokens ≡ spelling.value_tokens value.now) }
{
    let mut tokens = Vec::new(alloc);
    push_form(alloc, &mut tokens, &value.form)?;
    Ok(Sequence::from_vec(tokens))
}

fn is_end(tokens: &[Sequence<u8>]) -> bool
    ensures { result ≡ all_same [] tokens.now }
{
    match tokens {
        [] => true,
        _ => false,
    }
}

fn same_all(a: &[Sequence<u8>], b: &[Sequence<u8>]) -> bool
    ensures { result ≡ all_same a.now b.now }
{
    match a {
        [] => is_end(b),
        [first, rest @ ..] => match b {
            [] => false,
            [other, others @ ..] => {
                is_same(first.as_slice(), other.as_slice()) && same_all(rest, others)
            }
        },
    }
}

/// Whether two values are written alike.
pub fn same_value(alloc: Global, a: &Value, b: &Value) -> Result<bool, AllocError>
    ensures { IfOk result (λ same. same ≡ edges.same_value a.now b.now) }
{
    let a = tokens_of(alloc, a)?;
    let b = tokens_of(alloc, b)?;
    Ok(same_all(a.as_slice(), b.as_slice()))
}
