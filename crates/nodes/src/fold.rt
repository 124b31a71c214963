ghost use Rattle.std.specs.Prelude.{◌≡◌, ◌<◌, ℕ, length, IfOk, IfSome, option_map};
ghost use Rattle.gates.specs.Bits.{constant, input, fold_not, fold_and, fold_xor};
ghost use Rattle.nodes.specs.Nodes.{bit_at, Grows};
ghost use Rattle.nodes.specs.Folds.{constant_of, inside_not};

use crate::table::{Node, Table};
use std::alloc::AllocError;

impl Table {
    /// The constant that the expression is.
    fn as_constant(&self, a: usize) -> Option<bool>
        requires { a < length self.now }
        ensures { result ≡ constant_of (bit_at self.now a) }
    {
        match self.node(a) {
            Node::Constant(b) => Some(b),
            _ => None,
        }
    }

    /// The place of what is negated.
    fn inside_not(&self, a: usize) -> Option<usize>
        requires { a < length self.now }
        ensures inside { option_map (bit_at self.now) result ≡ inside_not (bit_at self.now a) }
        ensures within { IfSome result (λ k. k < length self.now) }
    {
        match self.node(a) {
            Node::Not(k) => Some(k),
            _ => None,
        }
    }

    pub fn constant(&mut self, b: bool) -> Result<usize, AllocError>
        ensures within { IfOk result (λ k. k < length self.new) }
        ensures bit { IfOk result (λ k. bit_at self.new k ≡ constant b) }
        ensures grows { Grows self.old self.new }
    {
        self.place(Node::Constant(b))
    }

    /// An input bit, by its number: byte after byte, the most significant bit of each first.
    pub fn input(&mut self, k: u16) -> Result<usize, AllocError>
        ensures within { IfOk result (λ p. p < length self.new) }
        ensures bit { IfOk result (λ p. bit_at self.new p ≡ input k) }
        ensures grows { Grows self.old self.new }
    {
        self.place(Node::Input(k))
    }

    pub fn not(&mut self, a: usize) -> Result<usize, AllocError>
        requires { a < length self.old }
        ensures within { IfOk result (λ k. k < length self.new) }
        ensures bit { IfOk result (λ k. bit_at self.new k ≡ fold_not (bit_at self.old a)) }
        ensures grows { Grows self.old self.new }
    {
        if let Some(b) = self.as_constant(a) {
            return self.place(Node::Constant(!b));
        }
        match self.inside_not(a) {
            Some(k) => Ok(k),
            None => self.place(Node::Not(a)),
        }
    }

    pub fn and(&mut self, a: usize, b: usize) -> Result<usize, AllocError>
        requires left { a < length self.old }
        requires right { b < length self.old }
        ensures within { IfOk result (λ k. k < length self.new) }
        ensures bit { IfOk result (λ k. bit_at self.new k ≡ fold_and (bit_at self.old a) (bit_at self.old b)) }
        ensures grows { Grows self.old self.new }
    {
        match (self.as_constant(a), self.as_constant(b)) {
            (Some(true), _) => Ok(b),
            (Some(false), _) => Ok(a),
            (None, Some(true)) => Ok(a),
            (None, Some(false)) => Ok(b),
            (None, None) => self.place(Node::And(a, b)),
        }
    }

    pub fn xor(&mut self, a: usize, b: usize) -> Result<usize, AllocError>
        requires left { a < length self.old }
        requires right { b < length self.old }
        ensures within { IfOk result (λ k. k < length self.new) }
        ensures bit { IfOk result (λ k. bit_at self.new k ≡ fold_xor (bit_at self.old a) (bit_at self.old b)) }
        ensures grows { Grows self.old self.new }
    {
        match (self.as_constant(a), self.as_constant(b)) {
            (Some(true), _) => self.not(b),
            (Some(false), _) => Ok(b),
            (None, Some(true)) => self.not(a),
            (None, Some(false)) => Ok(a),
            (None, None) => self.place(Node::Xor(a, b)),
        }
    }
}
