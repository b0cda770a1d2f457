//! Where a part of a predicate is true.

ghost use Rattle.std.specs.Prelude.{◌≡◌};
ghost use Rattle.ui_halt.specs.Lanes.{true_at, FindsSince, FindsLast};

/// Whether a part is true after so many events.
pub fn is_true_after(truths: &[bool], count: u32) -> bool
    ensures { result ≡ true_at truths.now count }
{
    truths.get(count as usize).copied().unwrap_or(false)
}

/// The least number of events since which a part is true, up to so many events. None if it is false after these.
pub(crate) fn true_since(truths: &[bool], count: u32) -> Option<u32>
    ensures { FindsSince truths.now count result }
{
    if !is_true_after(truths, count) {
        return None;
    }
    let mut since = count;
    while since > 0 && is_true_after(truths, since - 1) {
        since -= 1;
    }
    Some(since)
}

/// The greatest number of events below a bound after which a part is true, if there is one.
pub fn last_true(truths: &[bool], below: u32) -> Option<u32>
    ensures { FindsLast truths.now below result }
{
    let mut left = below;
    while left > 0 {
        left -= 1;
        if is_true_after(truths, left) {
            return Some(left);
        }
    }
    None
}
