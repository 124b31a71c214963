//! What may hold pointers, and what is asked of it.
use flat_ir::{FuncId, RegId, Site};

/// What may hold pointers.
#[derive(Clone, Copy)]
pub enum Holder {
    /// A register of a function.
    Register(FuncId, RegId),
    /// What a function returns.
    Returned(FuncId),
    /// The bytes of the objects of a site.
    Bytes(Site),
    /// The address of a global.
    Address(u32),
    /// A value that points into no object.
    Nothing,
}

/// What a node, or a byte that a global starts with, asks of the sites that holders may point to.
#[derive(Clone, Copy)]
pub enum Inclusion {
    /// `to` may point to the site's objects.
    Names { to: Holder, site: Site },
    /// `to` may point where `from` may.
    Copies { from: Holder, to: Holder },
    /// `to` may point where the bytes may to whose sites `pointer` may point.
    Loads { pointer: Holder, to: Holder },
    /// The bytes to whose sites `pointer` may point may point where `from` may.
    Stores { from: Holder, pointer: Holder },
    /// The bytes to whose sites `to` may point may point where the bytes may to whose sites `from` may point.
    Moves { from: Holder, to: Holder },
}
