//! What no contract says: that calls succeed, the texts that reports print, and that the types serve where the linter uses them.

mod kinds;
mod lists;
mod names;
mod places;
mod stand_ins;
mod threads;
