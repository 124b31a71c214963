//! Names, and types as a module writes them.

ghost use Rattle.std.specs.Prelude.{◌≡◌};
ghost use Rattle.ir_tree.specs.Texts as texts;

use plain_list::Sequence;
use sqlite_items::{Boxed, Items};

/// A name without its `@`, `%` or `:`, with its quotes and escapes undone, and the byte of the source at which it stands.
/// A number that the source leaves out has the place of its function's name.
#[derive(Drop)]
pub struct Name {
    pub text: Sequence<u8>,
    pub at: u32,
}

/// A type (Language Reference, "Type System"). An aggregate and a name have the byte of the source at which they begin.
#[derive(Drop)]
pub enum IrType {
    /// `iN`, by its number of bits, which is 1 to 64.
    Int(u8),
    Ptr,
    /// `[ LEN x ELEMENT ]`
    Array {
        at: u32,
        len: u64,
        element: Boxed<IrType>,
    },
    /// `{ .. }`, or packed `<{ .. }>`.
    Struct {
        at: u32,
        fields: Items<IrType>,
        packed: bool,
    },
    Named {
        name: Sequence<u8>,
        at: u32,
    },
}

/// Whether two texts are one.
pub(crate) fn is_same(a: &[u8], b: &[u8]) -> bool
    ensures { result ≡ texts.same a.now b.now }
{
    a == b
}
