ghost use Rattle.std.specs.Iterator.{YieldsFirstRef, item_count};
ghost use Rattle.row_index.specs.Narrow.{seen};

/// The rows that may have a clue, in their order.
#[derive(Drop)]
pub struct Candidates<'a, T> {
    pub(crate) near: Option<&'a T>,
    pub(crate) rest: &'a [T],
}

impl<'a, T> Iterator for Candidates<'a, T> {
    type Item = &'a T;

    ghost next_gives = { YieldsFirstRef seen };

    ghost remaining = { item_count seen };

    fn next(&mut self) -> Option<&'a T> {
        if let Some(row) = self.near {
            self.near = None;
            return Some(row);
        }
        let (first, others) = self.rest.split_first()?;
        self.rest = others;
        Some(first)
    }
}
