//! Records of rows and records that are written here, and the names that are memoized.

mod kinds;
mod levels;
mod records;
mod walks;
