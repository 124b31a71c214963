//! Lists of what is printed as tokens.

ghost use Rattle.std.specs.Prelude.{◌≡◌, map, OnOk};
ghost use Rattle.ir_tree.specs.Pages.{after};
ghost use Rattle.ir_tree.specs.Spelling.{separated, others, joined};

use super::page::Page;
use std::alloc::AllocError;

/// What is printed as tokens.
pub trait Spelled {
    ghost use Rattle.std.specs.Prelude.{ℕ, List};

    ghost tokens: { Self → List (List ℕ) };

    /// Puts the tokens on a page.
    fn put_on(&self, page: &mut Page) -> Result<(), AllocError>
        ensures { OnOk result (page.new ≡ after page.old (tokens self.now)) };
}

/// Each with a comma before it.
pub fn put_others<T: Spelled>(page: &mut Page, items: &[T]) -> Result<(), AllocError>
    ensures { OnOk result (page.new ≡ after page.old (others (map T.tokens items.now))) }
{
    for item in items {
        page.put(b",")?;
        item.put_on(page)?;
    }
    Ok(())
}

/// With commas between them.
pub fn put_separated<T: Spelled>(page: &mut Page, items: &[T]) -> Result<(), AllocError>
    ensures { OnOk result (page.new ≡ after page.old (separated (map T.tokens items.now))) }
{
    for (index, item) in items.iter().enumerate() {
        page.put_comma_before(index)?;
        item.put_on(page)?;
    }
    Ok(())
}

/// One behind the other.
pub fn put_joined<T: Spelled>(page: &mut Page, items: &[T]) -> Result<(), AllocError>
    ensures { OnOk result (page.new ≡ after page.old (joined (map T.tokens items.now))) }
{
    for item in items {
        item.put_on(page)?;
    }
    Ok(())
}
