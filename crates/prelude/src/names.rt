//! The names of the functions that have a body.
ghost use Rattle.std.specs.Prelude.{◌≡◌, ◌↔◌, IsTrue};
ghost use Rattle.prelude.specs.Prelude as spec;

/// Whether two names are one.
pub(crate) fn is_same(a: &[u8], b: &[u8]) -> bool
    ensures { result ≡ spec.same a.now b.now }
{
    a == b
}

/// The place of the function with this name in the order of the prelude, from 0 to 7: `getchar`, `putchar`, `puts`,
/// `memset`, `memcpy`, `calloc`, `llvm.memcpy.p0.p0.i64`, `llvm.memset.p0.i64`. `None` for every other name.
pub fn find(name: &[u8]) -> Option<u32>
    ensures { result ≡ spec.place_of name.now }
{
    if is_same(name, b"getchar") {
        Some(0)
    } else if is_same(name, b"putchar") {
        Some(1)
    } else if is_same(name, b"puts") {
        Some(2)
    } else if is_same(name, b"memset") {
        Some(3)
    } else if is_same(name, b"memcpy") {
        Some(4)
    } else if is_same(name, b"calloc") {
        Some(5)
    } else if is_same(name, b"llvm.memcpy.p0.p0.i64") {
        Some(6)
    } else if is_same(name, b"llvm.memset.p0.i64") {
        Some(7)
    } else {
        None
    }
}
