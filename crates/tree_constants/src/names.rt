//! Names of globals and functions.
ghost use Rattle.std.specs.Prelude.{◌≡◌};
ghost use Rattle.ir_programs.specs.Texts.{among, texts};
ghost use Rattle.ir_programs.specs.Uses as spec;
ghost use Rattle.tree_constants.specs.Telling.{is_known};

use ir_programs::is_same;
use ir_tree::module::IrTree;
use prelude::{find, find_primitive};

fn is_global(tree: &IrTree, name: &[u8]) -> bool
    ensures { result ≡ spec.is_global tree.now name.now }
{
    let globals = tree.globals.as_slice();
    'each: for global in globals {
        if is_same(global.name.text.as_slice(), name) {
            return true;
        }
    }
    false
}

/// Whether a function of the module has this name.
pub fn is_defined(tree: &IrTree, name: &[u8]) -> bool
    ensures { result ≡ among name.now (texts (spec.function_names tree.now)) }
{
    let functions = tree.functions.as_slice();
    'each: for function in functions {
        if is_same(function.header.name.text.as_slice(), name) {
            return true;
        }
    }
    false
}

/// Whether a module may call the function without defining it.
pub fn is_reserved(name: &[u8]) -> bool
    ensures { result ≡ spec.is_reserved name.now }
{
    find(name).is_some() || find_primitive(name).is_some()
}

/// Whether it is a function of the tree or a known one.
pub fn is_function(tree: &IrTree, name: &[u8]) -> bool
    ensures { result ≡ spec.is_function tree.now name.now }
{
    is_defined(tree, name) || is_reserved(name)
}

/// Whether it is a global or a function of the tree, or a known function.
pub fn is_known_name(tree: &IrTree, name: &[u8]) -> bool
    ensures { result ≡ is_known tree.now name.now }
{
    is_global(tree, name) || is_function(tree, name)
}
