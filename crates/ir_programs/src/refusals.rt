//! Why a tree has no program.
ghost use Rattle.std.specs.Prelude.{◌≡◌};
ghost use Rattle.ir_programs.specs.Answers.{FirstIsTold, NotBoth, ProgramIsOne};
ghost use Rattle.ir_programs.specs.Refusals as spec;

/// A condition that fails at a place of a module's text, in the order in which they are told at one place.
#[derive(Clone, Copy)]
pub enum Cause {
    /// A type, register or label that is used isn't defined; or a global that is used, but not called, is neither defined nor
    /// one of the known functions.
    UnknownName,
    /// A function that is called is neither defined nor one of the known functions.
    UnknownFunction,
    /// A name is defined a second time in its space, or a switch repeats a constant.
    DuplicateName,
    /// A known function's name is defined.
    ReservedName,
    /// A type that is written takes more than 65,536 bytes.
    ObjectTooLarge,
    /// A named type holds itself.
    RecursiveType,
    /// A number that is written for a name isn't the counter's next one.
    WrongNumber,
    /// A constant doesn't fit its type, or an index of a constant pointer its own.
    BadInitialiser,
    /// A function's name stands as a value.
    FunctionValue,
    /// Main has parameters, or returns something else than `i32`.
    MainParameters,
}

/// A condition that fails, and the byte of the text at which it does.
#[derive(Clone, Copy)]
pub struct Refusal {
    pub at: u32,
    pub cause: Cause,
}

fn order(cause: Cause) -> u32
    ensures { result ≡ spec.order cause }
{
    match cause {
        Cause::UnknownName => 0,
        Cause::UnknownFunction => 1,
        Cause::DuplicateName => 2,
        Cause::ReservedName => 3,
        Cause::ObjectTooLarge => 4,
        Cause::RecursiveType => 5,
        Cause::WrongNumber => 6,
        Cause::BadInitialiser => 7,
        Cause::FunctionValue => 8,
        Cause::MainParameters => 9,
    }
}

fn is_earlier(a: Refusal, b: Refusal) -> bool
    ensures { result ≡ spec.is_earlier a b }
{
    if a.at == b.at {
        order(a.cause) <= order(b.cause)
    } else {
        a.at < b.at
    }
}

/// The one of two refusals that is told: the one at the lower place, and at one place the one whose condition stands first.
pub fn earlier(a: Refusal, b: Refusal) -> Refusal
    ensures { result ≡ spec.earlier a b }
{
    if is_earlier(a, b) { a } else { b }
}

/// Of the refusals of a tree the first is told, at most one program is a tree's, and a tree with a refusal has none.
pub fn answers_are_one()
    ensures told { FirstIsTold }
    ensures one { ProgramIsOne }
    ensures apart { NotBoth }
{}
