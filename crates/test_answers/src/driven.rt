//! The script that the tests lead through steps: both branches count.

/// P stores 5, and each branch adds 1.
pub(crate) const SCRIPT: &str = "script 1
keys a
budget P 2 26
budget A 1 10
budget B 1 10
P
set a 0 =5
A
incr a 1
B
incr a 1
end
";

/// The beginning of its step lists, in which P is done.
pub(crate) const STEPS_OF_P: &str = "steps
P begin
P reply NOT_FOUND
P begin
P reply STORED
";
