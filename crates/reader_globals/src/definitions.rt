//! Types that have names, and globals.

ghost use Rattle.ir_grammar.specs.Module.{a_type, a_global_definition, type_definition as type_phrase, global_definition as global_phrase};
ghost use Rattle.reader_words.specs.Source.{pieces};
ghost use Rattle.reader_words.specs.Gives.{GivesAs};

use crate::constants::typed_constant;
use ir_tree::module::{GlobalDefinition, TypeDefinition};
use reader_types::types::{NESTING, mem_type};
use reader_words::ignored::{after, ignored};
use reader_words::names::{global_name, local_name};
use reader_words::source::Source;
use reader_words::stop::Stop;
use reader_words::words::{skip_mark, skip_word, skip_word_of};
use std::alloc::Global;

/// The name of a type and what it stands for.
pub fn type_definition<'a>(
    alloc: Global,
    source: Source<'a>,
) -> Result<(TypeDefinition, Source<'a>), Stop<'a>>
    ensures { GivesAs a_type result (type_phrase.reads (pieces source.entry)) }
{
    let (name, source) = local_name(alloc, source)?;
    let source = skip_mark(source, b"=")?;
    let source = skip_word(source, b"type")?;
    let (kind, source) = mem_type(alloc, source, NESTING)?;
    Ok((TypeDefinition { name, kind }, source))
}

/// The words before the type of a global.
const GLOBALS: [&[u8]; 2] = [b"global", b"constant"];

/// The name of a global and its constant.
pub fn global_definition<'a>(
    alloc: Global,
    source: Source<'a>,
) -> Result<(GlobalDefinition, Source<'a>), Stop<'a>>
    ensures { GivesAs a_global_definition result (global_phrase.reads (pieces source.entry)) }
{
    let (name, source) = global_name(alloc, source)?;
    let source = skip_mark(source, b"=")?;
    let source = ignored(source)?;
    let source = skip_word_of(source, &GLOBALS)?;
    let (value, source) = typed_constant(alloc, source, NESTING)?;
    let source = after(source)?;
    Ok((GlobalDefinition { name, value }, source))
}
