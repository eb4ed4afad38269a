//! The tests of the libraries from rules up: what neither a clause nor a session says. Each growth refused, devices that fail, what is made by
//! hand, and each public call on its happy path. What a session can show is a row in `rows/`. Expected values come from the rules of the
//! language, never from this program. What is below is tested in `cil_name_tests` and `cil_text_tests`, and levels in `cil_level_tests`.
#![tactic(auto)]

#[cfg(test)]
mod caching;
#[cfg(test)]
mod covering;
#[cfg(test)]
mod decisions;
#[cfg(test)]
mod growths;
#[cfg(test)]
mod hosts;
#[cfg(test)]
mod streams;
