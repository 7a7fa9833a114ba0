use std::process::Abort;

/// Ends the test if a case isn't as wanted, and names the case by its numbers.
pub(crate) fn expect(rt: &impl Abort, is_wanted: bool, case: (usize, usize)) {
    assert!(rt; is_wanted, "case {case:?}");
}
