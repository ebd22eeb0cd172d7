//! Calls of every crate: each that may want memory is made once with ample memory, at its largest
//! where its size matters, and each that is generic at a type of these tests or of the system. Other
//! tests here show what no command prints. There is no code here but tests.
#![tactic(auto)]

#[cfg(test)]
mod disk;
#[cfg(test)]
mod inputs;
#[cfg(test)]
mod judge;
#[cfg(test)]
mod machine;
#[cfg(test)]
mod plain;
#[cfg(test)]
mod programs;
#[cfg(test)]
mod sealing;
#[cfg(test)]
mod texts;
