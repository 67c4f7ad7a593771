//! What a test wants. Each `assert_eq!` is proved with all that would print its values, so it stands here once.

use std::fmt::Debug;
use std::process::Abort;

/// Ends the test where what came is not what was wanted.
pub(crate) fn same<T: PartialEq + Debug>(rt: &impl Abort, came: &T, wanted: &T) {
    assert!(rt; came == wanted, "{came:?} in place of {wanted:?}");
}
