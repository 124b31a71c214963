//! Why a tree has no program.
use plain_list::Sequence;
use std::fmt;
use thiserror::Error;

/// The first refusal of a tree, by the byte of the text at which it stands; or that the tree has no main, which is told after
/// all others; or that memory ran out, which says nothing of the tree.
#[derive(Drop, Error)]
pub enum ResolveError {
    /// A type, register or label that is used isn't defined; or a global that is used, but not called, isn't known.
    #[error("byte {at}: this name isn't defined")]
    UnknownName { at: u32 },
    /// The function of this name, which is called there, isn't known.
    #[error("byte {at}: this function isn't known")]
    UnknownFunction { at: u32, name: Sequence<u8> },
    /// A name is defined a second time in its space, or a switch repeats a constant.
    #[error("byte {at}: this stands twice")]
    DuplicateName { at: u32 },
    /// A known function's name is defined.
    #[error("byte {at}: this name is reserved")]
    ReservedName { at: u32 },
    /// A type takes more than 65,536 bytes.
    #[error("byte {at}: this type is too large")]
    ObjectTooLarge { at: u32 },
    /// A named type holds itself.
    #[error("byte {at}: this type holds itself")]
    RecursiveType { at: u32 },
    /// A number that stands for a name isn't the counter's next one.
    #[error("byte {at}: this number isn't the next")]
    WrongNumber { at: u32 },
    /// A constant doesn't fit its type.
    #[error("byte {at}: this constant doesn't fit")]
    BadInitialiser { at: u32 },
    /// A function's name stands as a value.
    #[error("byte {at}: this function stands as a value")]
    FunctionValue { at: u32 },
    /// Main has parameters, or returns something else than `i32`.
    #[error("byte {at}: main isn't `i32 @main()`")]
    MainParameters { at: u32 },
    #[error("there is no main")]
    NoMain,
    #[error("out of memory")]
    Memory,
}

impl fmt::Debug for ResolveError {
    fn fmt<W: fmt::Write>(&self, f: &mut fmt::Formatter<W>) -> fmt::Result {
        write!(f, "{self}")
    }
}
