//! The members of families of processes and variables.

use crate::environment::Environment;
use notation_tree::fault::Expanding;
use notation_tree::limits::UNFOLDING;
use notation_tree::syntax::Binder;

impl<'a> Environment<'a> {
    // The values of the members of these ranges, and of one more range: all, or more than this limit.
    fn longer(
        &mut self,
        outer: &'a [Binder],
        binder: &'a Binder,
        tuples: &[Vec<i64>],
        limit: usize,
    ) -> Expanding<Vec<Vec<i64>>> {
        let mut longer = Vec::new(self.alloc);
        for tuple in tuples {
            let before = self.enter_all(outer, tuple.as_slice())?;
            let members = self.range(binder, UNFOLDING, limit.saturating_add(1))?;
            self.leave(before);
            for member in &members {
                let mut values = Vec::from_slice(self.alloc, tuple.as_slice())?;
                values.push(*member)?;
                longer.push(values)?;
            }
            if longer.len() > limit {
                break;
            }
        }
        Ok(longer)
    }

    // The values that the members of these ranges have, in order: all, or more than this limit after some range. Whether no range was cut
    // short comes with them.
    fn first_combinations(
        &mut self,
        ranges: &'a [Binder],
        limit: usize,
    ) -> Expanding<(Vec<Vec<i64>>, bool)> {
        let mut tuples = Vec::new(self.alloc);
        tuples.push(Vec::new(self.alloc))?;
        let mut is_whole = true;
        for (i, binder) in ranges.iter().enumerate() {
            tuples = self.longer(&ranges[..i], binder, tuples.as_slice(), limit)?;
            is_whole = is_whole && tuples.len() <= limit;
        }
        Ok((tuples, is_whole))
    }

    /// The values that the members of these ranges have, in order: all, or more than this limit.
    pub fn combinations(&mut self, ranges: &'a [Binder], limit: usize) -> Expanding<Vec<Vec<i64>>> {
        let (tuples, is_whole) = self.first_combinations(ranges, limit)?;
        if is_whole || tuples.len() > limit {
            return Ok(tuples);
        }
        // Later members of a range may have members of the next one.
        let (tuples, _) = self.first_combinations(ranges, usize::MAX)?;
        Ok(tuples)
    }
}
