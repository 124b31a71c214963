ghost use Rattle.std.specs.Prelude.{◌≡◌, ◌+◌, ◌<◌, ◌^◌, ◌++◌, ◌∷◌, [], length, IfOk, IsTrue, MatchBool, Some, ◌↔◌};
ghost use Rattle.places.specs.Place.{At};
ghost use Rattle.places.specs.Rules.{count_of};

use logbook::{Gain, Offer, Plain, Play, Rule, Seen, Start, Word};
use std::alloc::AllocError;
use std::marker::{Brand, Model, PhantomData};

// How often a place is asked for again where another thread took one meanwhile.
const TRIES: u64 = 1 << 20;

// How many places a table has.
const MOST: u64 = 1 << 62;

/// Which table it is. No program looks at it: the call that opens a table picks it, and a type that holds places
/// names it, so that numbers of two tables are never compared.
pub trait Home {
    ghost use Rattle.logbook.specs.Pages.{Book};

    ghost book: { Book };
}

impl Home for Brand {
    ghost book = { record { number = 0; log_name = 0; cells_name = 0 } };
}

/// What value the contracts see in an `X`: the value that its place names.
pub trait Shown<X, E> {
    ghost of: { X → E };
}

/// The rule of a table: its word is the length of the list of values.
pub struct Law;

impl<E> Rule<E, u64> for Law {
    ghost use Rattle.std.specs.Prelude.{[]};
    ghost use base.Fml.{ftrue};
    ghost use Rattle.places.specs.Rules.{IsKept};

    ghost holds = { λ cells log. IsKept cells log };

    ghost first = { [] };

    ghost hinted = { λ n log. Unit {0} };

    ghost shows = { λ log. [] };

    ghost keeps = { λ names log. ftrue };

    ghost moves = { λ ask before after answer. Unit {0} };
}

/// Callers trade nothing.
pub struct Nothing;

impl<E> Gain<E, u64> for Nothing {
    ghost use base.Fml.{ftrue};

    ghost after = { λ names about answer. ftrue };
}

/// A step that looks.
struct Look;

impl<E> Play<E, u64> for Look {
    ghost use Rattle.places.specs.Rules.{Looks};

    ghost then = { Looks };
}

/// A step that adds a value.
struct Add<M> {
    of: PhantomData<M>,
}

impl<E, M> Play<E, u64> for Add<M> {
    ghost use Rattle.places.specs.Rules.{Adds};

    ghost then = { Adds };
}

impl<X, E, M: Shown<X, E>> Plain<X, E, u64> for Add<M> {
    ghost use Rattle.std.specs.Prelude.{None};

    ghost ask = { λ x. M.of x };

    ghost state = { λ x. None };
}

/// An empty table, which has no name yet.
pub struct Opened<E> {
    count: Word<E, u64, Law>,
    seen: Seen<E, u64, Law>,
    pub ghost count_is: { count ≡ count_of seen.book },
}

impl<E> Opened<E> {
    /// An empty table.
    pub fn new() -> Opened<E> {
        let (seen, mut first, _second) = Seen::open(Start::alone(), 0, 0);
        Opened {
            count: Word::tracked(0, &mut first),
            seen,
        }
    }

    /// The table under a name.
    pub fn named<H: Home>(self) -> Places<E, H>
        requires { self.seen.book ≡ H.book }
    {
        let Opened { count, seen } = self;
        Places {
            count,
            seen,
            of: PhantomData,
        }
    }
}

/// A table of values that exist in the proofs alone. The program keeps how many there are, in one word that
/// threads share with no lock.
#[derive(Drop)]
pub struct Places<E, H: Home> {
    count: Word<E, u64, Law>,
    seen: Seen<E, u64, Law>,
    of: PhantomData<H>,
    ghost count_is: { count ≡ count_of H.book },
    ghost seen_is: { seen.book ≡ H.book },
}

impl<E, H: Home> Places<E, H> {
    /// A new place, which names the value. It is refused, as for want of memory, where 2^62 are taken, or where
    /// other threads took a place between look and step 2^20 times.
    pub fn place<X, M: Shown<X, E>>(&self, about: &X) -> Result<Place<E, H>, AllocError>
        ensures { IfOk result (λ p. p.value ≡ Some (M.of about.now)) }
    {
        let mut seen = self.seen.again();
        for _ in 0..TRIES {
            let number = self.look::<X, M>(&mut seen, about);
            if number >= MOST {
                return Err(AllocError);
            }
            if self.add::<X, M>(&mut seen, number, about) {
                return Ok(Place {
                    number,
                    seen,
                    of: PhantomData,
                });
            }
        }
        Err(AllocError)
    }

    // How many there are, all seen.
    fn look<X, M: Shown<X, E>>(&self, seen: &mut Seen<E, u64, Law>, about: &X) -> u64
        requires { seen.old.book ≡ H.book }
        ensures book { seen.new.book ≡ H.book }
        ensures count { result ≡ length seen.new.log }
    {
        let mut offer: Offer<E, u64, Law, Nothing> = seen.plain::<Nothing, X, Add<M>>(about);
        self.count.load::<Look, Nothing>(seen, &mut offer)
    }

    // Puts the value behind all that was seen, unless another was put there meanwhile.
    fn add<X, M: Shown<X, E>>(&self, seen: &mut Seen<E, u64, Law>, count: u64, about: &X) -> bool
        requires book { seen.old.book ≡ H.book }
        requires count { count ≡ length seen.old.log }
        requires room { count < 2 ^ 62 }
        ensures book { seen.new.book ≡ H.book }
        ensures added { IsTrue result → seen.new.log ≡ seen.old.log ++ M.of about.now ∷ [] }
    {
        let mut offer: Offer<E, u64, Law, Nothing> = seen.plain::<Nothing, X, Add<M>>(about);
        let mut pen = seen.no_pen();
        let found = self
            .count
            .compare_exchange::<Add<M>, Nothing>(count, count + 1, seen, &mut offer, &mut pen);
        found == count
    }
}

/// A number of the table, given once. Contracts see it with the value that it names.
pub struct Place<E, H: Home> {
    number: u64,
    seen: Seen<E, u64, Law>,
    of: PhantomData<H>,
}

// All that lets one go is in this one place, and each end of a scope is a call.
impl<E, H: Home> Drop for Place<E, H> {
    fn drop(self) {
        let Place {
            number: _,
            seen: _,
            of: _,
        } = self;
    }
}

impl<E, H: Home> Model for Place<E, H> {
    ghost use Rattle.std.specs.Prelude.{◌≡◌, ◌<◌, length, slice_get};
    ghost use Rattle.places.specs.Place.{At, coded_at};

    ghost Value = { At E };

    ghost coded = { coded_at E.code };

    ghost view = { λ p. record { number = p.number; value = slice_get p.seen.log p.number } };

    ghost invariant = { λ p. (p.number < length p.seen.log) × (p.seen.book ≡ H.book) };
}

impl<E, H: Home> Place<E, H> {
    /// The number, to look the place up by.
    pub fn number(&self) -> u64
        ensures { result ≡ self.now.number }
    {
        self.number
    }

    /// A copy.
    pub fn again(&self) -> Place<E, H>
        ensures { result ≡ self.now }
    {
        Place {
            number: self.number,
            seen: self.seen.again(),
            of: PhantomData,
        }
    }

    /// Whether the two are one place. Then they name one value.
    pub fn same(&self, other: &Place<E, H>) -> bool
        ensures { IsTrue result ↔ (self.now ≡ other.now) }
    {
        let mut both = self.seen.again();
        both.learn(&other.seen);
        self.number == other.number
    }
}
