//! Tests of the language by worked texts: what no clause says and no file of cases can ask. They use public calls alone.
#![tactic(auto)]

#[cfg(test)]
mod encoding;
#[cfg(test)]
mod ends;
#[cfg(test)]
mod expressions;
#[cfg(test)]
mod files;
#[cfg(test)]
mod orders;
#[cfg(test)]
mod parts;
#[cfg(test)]
mod runs;
#[cfg(test)]
mod scripts;
#[cfg(test)]
mod texts;
#[cfg(test)]
mod tokens;
