//! The tests of the libraries from blocks to optionals, of class permissions and of the places of rules: what neither a clause nor a session
//! says. What is placed, look-up, the numbers of symbols, wrong choices of optionals, and what is made by hand. What a session can show is a
//! row in `rows/`. Expected values come from the rules of the language, never from this program. They stand in a crate of their own, which a
//! change of decisions does not prove anew, and which is proved beside the crates above it.
#![tactic(auto)]

#[cfg(test)]
mod answers;
#[cfg(test)]
mod arguments;
#[cfg(test)]
mod class_masks;
#[cfg(test)]
mod growths;
#[cfg(test)]
mod level_rows;
#[cfg(test)]
mod look_up_rows;
#[cfg(test)]
mod look_ups;
pub mod made_names;
#[cfg(test)]
mod optional_choices;
#[cfg(test)]
mod optional_rows;
#[cfg(test)]
mod placed_words;
#[cfg(test)]
mod places;
#[cfg(test)]
mod policy_rules;
#[cfg(test)]
mod symbol_numbers;
