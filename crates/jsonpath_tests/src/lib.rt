//! The tests of all crates. They are in `tests/` beside this folder, a folder for each crate and a file for each
//! subject, and are run, not proved: `checks/tests.sh` puts them into this crate, in a copy. An assertion may end
//! its process, which nothing that is proved may, so what the tests share is among them.
#![tactic(auto)]
