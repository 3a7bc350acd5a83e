//! Tests of the shell, through its public calls alone.
#![tactic(auto)]

#[cfg(test)]
mod commands;
#[cfg(test)]
mod failing;
#[cfg(test)]
mod language;
#[cfg(test)]
mod limits;
#[cfg(test)]
mod lines;
#[cfg(test)]
mod models;
#[cfg(test)]
mod said;
