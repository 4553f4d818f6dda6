//! Tests of CDL texts: what whole texts mean, which fault they have, and how a text is cut into statements and tokens.
#![tactic(auto)]

#[cfg(test)]
mod datasets;
#[cfg(test)]
mod limits;
#[cfg(test)]
mod lists;
#[cfg(test)]
mod names_and_strings;
#[cfg(test)]
mod numbers;
#[cfg(test)]
mod parsing;
#[cfg(test)]
mod refused_texts;
#[cfg(test)]
mod refused_values;
#[cfg(test)]
mod statements;
#[cfg(test)]
mod tokens;
