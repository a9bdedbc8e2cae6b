//! A value as text, compared with the expected text.
use std::process::Abort;

/// Checks that a value has this text.
pub(crate) fn expect(rt: &impl Abort, description: &str, want: &str) {
    assert_eq!(rt; description, want);
}
