//! Pages of rows and of numbers.

ghost use Rattle.std.specs.Prelude.{◌≡◌, IfOk};
ghost use Rattle.listings.specs.Choosing.{AreApart, AreFirst};
ghost use Rattle.listings.specs.Pages.{page_behind};

use host_base::Memory;

/// How many lines a page has at the most.
pub const PAGE: usize = 1000;

/// The page of rows, which are numbered from 1 in their order, behind a number.
pub(crate) fn rows_behind<T>(rows: &[T], after: u32) -> &[T]
    ensures { result.now ≡ page_behind after rows.now }
{
    let from = (after as usize).min(rows.len());
    let behind = &rows[from..];
    let count = PAGE.min(behind.len());
    &behind[..count]
}

/// The first of some numbers, which come in any order, as many as stand on a page, ascending.
pub(crate) fn page_of(mut numbers: Vec<u32>) -> Result<Vec<u32>, Memory>
    requires { AreApart numbers.items }
    ensures { IfOk result (λ page. AreFirst numbers.items page.items) }
{
    numbers.sort()?;
    numbers.truncate(PAGE);
    Ok(numbers)
}
