//! Tests of the replacement of a file's content, on a fake file system in which one operation fails.
//! Depends on `atomic_file` and `byte_sink`, whose traits the fakes implement. It has nothing but tests.
#![tactic(auto)]

#[cfg(test)]
mod fake_files;
#[cfg(test)]
mod replacements;
