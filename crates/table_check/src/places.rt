ghost use Rattle.std.specs.Prelude.{◌≡◌, take};

/// The rows before a place, which are all of them where it is past their end.
pub(crate) fn rows_before<T>(rows: &[T], place: usize) -> &[T]
    ensures { result.now ≡ take place rows.now }
{
    if place <= rows.len() {
        &rows[..place]
    } else {
        rows
    }
}
