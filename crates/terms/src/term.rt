ghost use Rattle.std.specs.Prelude.{◌≡◌, IfOk, IsTrue, Some};
ghost use Rattle.std.specs.Option.{option_copied};
ghost use Rattle.terms.specs.Tree.{width_of, IsTree};
ghost use Rattle.terms.specs.Folding.{constant_of, inside_not};
ghost use Rattle.terms.specs.Digest as digests;
ghost use Rattle.terms.specs.Digest.{digest_of};

use bitnum::{BinOp, Num};
use places::{Home, Place, Places, Shown};
use std::alloc::{AllocError, Global};
use std::marker::Model;
use std::sync::Arc;

/// How many levels a term may have. A deeper one is refused as for want of memory, so that a walk down a term, which
/// calls itself once a level, has stack enough.
pub const MOST_LEVELS: u32 = 65_535;

/// An operation on one term.
#[derive(Clone, Copy, PartialEq, Eq)]
pub enum Unary {
    /// The other bit.
    Not,
    /// To this width, with 0 in the new bits.
    Zext(u8),
    /// To this width, with the sign in the new bits.
    Sext(u8),
    /// The lowest bits, as many as this width.
    Trunc(u8),
    /// The byte of this number, the lowest being 0.
    Byte(u8),
}

/// An operation on two terms.
#[derive(Clone, Copy, PartialEq, Eq)]
pub enum Binary {
    /// An operation on numbers of one width.
    Bin(BinOp),
    /// One bit, whether the two are equal.
    Eq,
    /// One bit, whether the first is below the second, unsigned.
    Ult,
    /// One bit, whether the first is below the second, signed.
    Slt,
    /// The second above the first, which is a byte.
    Join,
}

/// What the place of a term names: the term's tree. No program makes one.
pub struct Shape {
    nothing: (),
}

impl Model for Shape {
    ghost use Rattle.terms.specs.Tree.{Tree, input};
    ghost use Rattle.terms.specs.Codes.{coded_tree};

    ghost Value = { Tree };

    ghost coded = { coded_tree };

    ghost view = { λ s. input 0 };
}

/// What makes terms: an allocator, and the table of their places, which threads share.
#[derive(Drop)]
pub struct Terms<H: Home> {
    alloc: Global,
    places: Places<Shape, H>,
}

impl<H: Home> Terms<H> {
    /// A maker of terms over an empty table.
    pub fn new(alloc: Global, places: Places<Shape, H>) -> Terms<H> {
        Terms { alloc, places }
    }

    /// The allocator that terms are made with.
    pub fn alloc(&self) -> Global {
        self.alloc
    }
}

/// A term. Contracts see it as a tree; the code shares its parts by count, and knows each by its place.
#[cycle(term)]
#[derive(Drop)]
pub struct Term<H: Home> {
    place: Place<Shape, H>,
    width: u8,
    depth: u32,
    digest: u64,
    alloc: Global,
    node: Arc<Node<H>, Global>,
}

/// What stands at the head of a term.
#[cycle(term)]
#[derive(Drop)]
pub enum Node<H: Home> {
    /// A number.
    Constant(Num),
    /// The input byte of this number, of 8 bits.
    Input(u8),
    /// An operation on one term.
    One(Unary, Term<H>),
    /// An operation on two terms.
    Two(Binary, Term<H>, Term<H>),
    /// The second term where the first, of one bit, is 1, and else the third.
    Choice(Term<H>, Term<H>, Term<H>),
}

impl<H: Home> Model for Term<H> {
    ghost use Rattle.std.specs.Prelude.{◌≡◌, Some};
    ghost use Rattle.terms.specs.Tree.{Tree, size_of, width_of, IsTree};
    ghost use Rattle.terms.specs.Codes.{coded_tree};

    ghost Value = { Tree };

    ghost coded = { coded_tree };

    ghost use Rattle.terms.specs.Nodes.{tree_of};

    ghost view = { λ t. tree_of t.node.value };

    ghost use Rattle.terms.specs.Digest.{digest_of};

    ghost invariant = { λ t. (t.place.value ≡ Some (tree_of t.node.value)) × (t.width ≡ width_of (tree_of t.node.value)) × (t.digest ≡ digest_of (tree_of t.node.value)) × IsTree (tree_of t.node.value) };

    ghost size = { size_of };
}

// The tree of a node, for its place.
struct Told;

impl<H: Home> Shown<Node<H>, Shape> for Told {
    ghost use Rattle.terms.specs.Nodes.{tree_of};

    ghost of = { tree_of };
}

fn mixed(a: u64, b: u64) -> u64
    ensures { result ≡ digests.mixed a b }
{
    a.wrapping_mul(1_099_511_628_211).wrapping_add(b)
}

fn bin_number(op: BinOp) -> u64
    ensures { result ≡ digests.bin_number op }
{
    match op {
        BinOp::Add => 0,
        BinOp::Sub => 1,
        BinOp::Mul => 2,
        BinOp::Udiv => 3,
        BinOp::Sdiv => 4,
        BinOp::Urem => 5,
        BinOp::Srem => 6,
        BinOp::Shl => 7,
        BinOp::Lshr => 8,
        BinOp::Ashr => 9,
        BinOp::And => 10,
        BinOp::Or => 11,
        BinOp::Xor => 12,
    }
}

fn one_digest(op: Unary) -> u64
    ensures { result ≡ digests.one_digest op }
{
    match op {
        Unary::Not => 66,
        Unary::Zext(width) => mixed(67, u64::from(width)),
        Unary::Sext(width) => mixed(68, u64::from(width)),
        Unary::Trunc(width) => mixed(69, u64::from(width)),
        Unary::Byte(j) => mixed(70, u64::from(j)),
    }
}

fn two_digest(op: Binary) -> u64
    ensures { result ≡ digests.two_digest op }
{
    match op {
        Binary::Bin(op) => mixed(71, bin_number(op)),
        Binary::Eq => 72,
        Binary::Ult => 73,
        Binary::Slt => 74,
        Binary::Join => 75,
    }
}

impl<H: Home> Term<H> {
    ghost use Rattle.terms.specs.Nodes.{tree_of};

    fn node_digest(node: &Node<H>) -> u64
        ensures { result ≡ digest_of (tree_of node.now) }
    {
        match node {
            Node::Constant(n) => mixed(u64::from(n.width()), n.bits()),
            Node::Input(k) => mixed(65, u64::from(*k)),
            Node::One(op, a) => mixed(one_digest(*op), a.digest()),
            Node::Two(op, a, b) => mixed(mixed(two_digest(*op), a.digest()), b.digest()),
            Node::Choice(c, a, b) => mixed(mixed(mixed(76, c.digest()), a.digest()), b.digest()),
        }
    }

    // The levels below a node.
    fn node_depth(node: &Node<H>) -> u32 {
        match node {
            Node::Constant(_) | Node::Input(_) => 0,
            Node::One(_, a) => a.depth,
            Node::Two(_, a, b) => a.depth.max(b.depth),
            Node::Choice(c, a, b) => c.depth.max(a.depth).max(b.depth),
        }
    }

    /// The term of a node. Every constructor makes its terms here.
    pub(crate) fn new(terms: &Terms<H>, width: u8, node: Node<H>) -> Result<Term<H>, AllocError>
        requires width_is { width ≡ width_of (tree_of node) }
        requires tree { IsTree (tree_of node) }
        ensures { IfOk result (λ t. t ≡ tree_of node) }
    {
        let digest = Term::node_digest(&node);
        let depth = Term::node_depth(&node);
        if depth >= MOST_LEVELS {
            return Err(AllocError);
        }
        Ok(Term {
            place: terms.places.place::<Node<H>, Told>(&node)?,
            width,
            depth: depth + 1,
            digest,
            alloc: terms.alloc,
            node: Arc::new(terms.alloc, node)?,
        })
    }

    /// The term's place, which names its tree: the key of a memo.
    pub fn place(&self) -> &Place<Shape, H>
        ensures { result.now.value ≡ Some self.now }
    {
        &self.place
    }

    /// The allocator that the term was made with.
    pub(crate) fn alloc(&self) -> Global {
        self.alloc
    }

    /// What stands at the term's head.
    pub fn node(&self) -> &Node<H>
        ensures shape { tree_of result.now ≡ self.now }
        ensures parts { IsTree (tree_of result.now) }
    {
        &self.node
    }

    /// A number that equal terms share, and that others seldom do.
    pub fn digest(&self) -> u64
        ensures { result ≡ digest_of self.now }
    {
        self.digest
    }

    /// How many bits the term has.
    pub fn width(&self) -> u8
        ensures width { result ≡ width_of self.now }
        ensures tree { IsTree self.now }
    {
        self.width
    }

    /// An equal term that shares every part: a count, and no copy of a node.
    pub fn copy(&self) -> Result<Term<H>, AllocError>
        ensures { IfOk result (λ t. t ≡ self.now) }
    {
        Ok(Term {
            place: self.place.again(),
            width: self.width,
            depth: self.depth,
            digest: self.digest,
            alloc: self.alloc,
            node: Arc::try_clone(&self.node)?,
        })
    }

    /// The number that the term is, where it is a constant.
    pub fn as_constant(&self) -> Option<Num>
        ensures number { result ≡ constant_of self.now }
        ensures tree { IsTree self.now }
    {
        match self.node() {
            Node::Constant(n) => Some(*n),
            _ => None,
        }
    }

    /// The term whose negation this one is, if it is one.
    pub(crate) fn inside_not(&self) -> Option<&Term<H>>
        ensures { option_copied result ≡ inside_not self.now }
    {
        match self.node() {
            Node::One(Unary::Not, t) => Some(t),
            _ => None,
        }
    }
}

impl<H: Home> Clone for Term<H> {
    ghost use Rattle.std.specs.Prelude.{◌≡◌};

    ghost is_clone = { λ t u. u ≡ t };

    fn clone(&self) -> Result<Term<H>, AllocError> {
        self.copy()
    }
}

/// Whether the two terms are one, made once. Then they are one tree.
pub fn same_place<H: Home>(a: &Term<H>, b: &Term<H>) -> bool
    ensures { IsTrue result → a.now ≡ b.now }
{
    a.place.same(&b.place)
}
