//! What a module consists of.

ghost use Rattle.std.specs.Prelude.{◌≡◌, ◌∷◌, [], OnOk};
ghost use Rattle.phrases.specs.Piece.{starts};
ghost use Rattle.ir_grammar.specs.Module.{nothing, a_declare, a_function, source_name as source_phrase, target_line as target_phrase, attribute_group as group_phrase, declare as declare_phrase, define as define_phrase, entity as entity_phrase, entity_starts, module_text};
ghost use Rattle.reader_words.specs.Source.{pieces};
ghost use Rattle.reader_words.specs.Gives.{Gives, GivesAs};
ghost use Rattle.ir_reader.specs.Entities.{entity_of, with_entities, MovesPast, function_entity as function_phrase, named_entity as named_phrase};

use ir_lexer::token::TokenKind;
use ir_tree::module::{FunctionDefinition, GlobalDefinition, Header, IrTree, TypeDefinition};
use plain_list::Sequence;
use reader_blocks::blocks::{block, blocks};
use reader_globals::definitions::{global_definition, type_definition};
use reader_globals::headers::header;
use reader_words::source::Source;
use reader_words::stop::Stop;
use reader_words::words::{
    has_kind, has_word, has_word_of, skip_all_but, skip_kind, skip_mark, skip_word, skip_word_of,
};
use std::alloc::{AllocError, Global};

/// What a module consists of.
#[derive(Drop)]
pub enum Entity {
    /// What has no place in the tree.
    Nothing,
    Type(TypeDefinition),
    Global(GlobalDefinition),
    Declare(Header),
    Function(FunctionDefinition),
}

/// The name of the source file.
fn source_name(source: Source<'_>) -> Result<Source<'_>, Stop<'_>>
    ensures { MovesPast nothing result (source_phrase.reads (pieces source.entry)) }
{
    let source = skip_word(source, b"source_filename")?;
    let source = skip_mark(source, b"=")?;
    skip_kind(source, TokenKind::Str)
}

/// The words behind `target`.
const TARGETS: [&[u8]; 2] = [b"datalayout", b"triple"];

fn target_line(source: Source<'_>) -> Result<Source<'_>, Stop<'_>>
    ensures { MovesPast nothing result (target_phrase.reads (pieces source.entry)) }
{
    let source = skip_word(source, b"target")?;
    let source = skip_word_of(source, &TARGETS)?;
    let source = skip_mark(source, b"=")?;
    skip_kind(source, TokenKind::Str)
}

/// A group of attributes, to its first `}`.
fn attribute_group(source: Source<'_>) -> Result<Source<'_>, Stop<'_>>
    ensures { MovesPast nothing result (group_phrase.reads (pieces source.entry)) }
{
    let source = skip_word(source, b"attributes")?;
    let source = skip_kind(source, TokenKind::AttrGroup)?;
    let source = skip_mark(source, b"=")?;
    let source = skip_mark(source, b"{")?;
    let source = skip_all_but(source, b"}");
    skip_mark(source, b"}")
}

fn declare<'a>(alloc: Global, source: Source<'a>) -> Result<(Header, Source<'a>), Stop<'a>>
    ensures { GivesAs a_declare result (declare_phrase.reads (pieces source.entry)) }
{
    let source = skip_word(source, b"declare")?;
    header(alloc, source)
}

fn define<'a>(
    alloc: Global,
    source: Source<'a>,
) -> Result<(FunctionDefinition, Source<'a>), Stop<'a>>
    ensures { GivesAs a_function result (define_phrase.reads (pieces source.entry)) }
{
    let source = skip_word(source, b"define")?;
    let (header, source) = header(alloc, source)?;
    let source = skip_mark(source, b"{")?;
    let (first, source) = block(alloc, source)?;
    let (others, source) = blocks(alloc, source)?;
    let source = skip_mark(source, b"}")?;
    let mut blocks = Sequence::of_one(alloc, first)?;
    blocks.append(others)?;
    Ok((FunctionDefinition { header, blocks }, source))
}

/// A declared or a defined function.
fn function_entity<'a>(alloc: Global, source: Source<'a>) -> Result<(Entity, Source<'a>), Stop<'a>>
    ensures { GivesAs entity_of result (function_phrase.reads (pieces source.entry)) }
{
    if has_word(source, b"declare") {
        let (found, source) = declare(alloc, source)?;
        return Ok((Entity::Declare(found), source));
    }
    let (found, source) = define(alloc, source)?;
    Ok((Entity::Function(found), source))
}

/// A type or a global, or a function.
fn named_entity<'a>(alloc: Global, source: Source<'a>) -> Result<(Entity, Source<'a>), Stop<'a>>
    ensures { GivesAs entity_of result (named_phrase.reads (pieces source.entry)) }
{
    if has_kind(source, TokenKind::Local) {
        let (found, source) = type_definition(alloc, source)?;
        return Ok((Entity::Type(found), source));
    }
    if has_kind(source, TokenKind::Global) {
        let (found, source) = global_definition(alloc, source)?;
        return Ok((Entity::Global(found), source));
    }
    function_entity(alloc, source)
}

/// The next of what a module consists of.
#[tactic(auto, unfolding(ir_grammar::specs::Module::entity))]
fn next_entity<'a>(alloc: Global, source: Source<'a>) -> Result<(Entity, Source<'a>), Stop<'a>>
    ensures { GivesAs entity_of result (entity_phrase.reads (pieces source.entry)) }
{
    if has_word(source, b"source_filename") {
        let source = source_name(source)?;
        return Ok((Entity::Nothing, source));
    }
    if has_word(source, b"target") {
        let source = target_line(source)?;
        return Ok((Entity::Nothing, source));
    }
    if has_word(source, b"attributes") {
        let source = attribute_group(source)?;
        return Ok((Entity::Nothing, source));
    }
    named_entity(alloc, source)
}

/// The words with which an entity begins.
const ENTITY_WORDS: [&[u8]; 3] = [b"source_filename", b"target", b"attributes"];

/// The words of functions.
const FUNCTION_WORDS: [&[u8]; 2] = [b"declare", b"define"];

/// Whether something comes next that a module consists of.
fn has_entity(source: Source<'_>) -> bool
    ensures { result ≡ starts entity_starts (pieces source.entry) }
{
    if has_word_of(source, &ENTITY_WORDS) {
        return true;
    }
    if has_kind(source, TokenKind::Local) {
        return true;
    }
    if has_kind(source, TokenKind::Global) {
        return true;
    }
    has_word_of(source, &FUNCTION_WORDS)
}

/// Takes one more of what the module consists of.
fn add(tree: &mut IrTree, entity: Entity) -> Result<(), AllocError>
    ensures { OnOk result (tree.new ≡ with_entities tree.old (entity_of entity ∷ [])) }
{
    match entity {
        Entity::Nothing => Ok(()),
        Entity::Type(found) => tree.types.push(found),
        Entity::Global(found) => tree.globals.push(found),
        Entity::Declare(found) => tree.declares.push(found),
        Entity::Function(found) => tree.functions.push(found),
    }
}

/// A module as it is written.
#[tactic(auto, unfolding(ir_grammar::specs::Module::module_text))]
pub fn module<'a>(alloc: Global, source: Source<'a>) -> Result<(IrTree, Source<'a>), Stop<'a>>
    ensures { Gives result (module_text.reads (pieces source.entry)) }
{
    let mut tree = IrTree {
        types: Sequence::new(alloc),
        globals: Sequence::new(alloc),
        declares: Sequence::new(alloc),
        functions: Sequence::new(alloc),
    };
    let mut rest = source;
    'entities: while has_entity(rest) {
        let (next, after) = next_entity(alloc, rest)?;
        add(&mut tree, next)?;
        rest = after;
    }
    Ok((tree, rest))
}
