//! Tests of the parser and the printer, through public calls alone.
#![tactic(auto)]

#[cfg(test)]
mod expressions;
#[cfg(test)]
mod formulas;
#[cfg(test)]
mod printing;
#[cfg(test)]
mod program_faults;
#[cfg(test)]
mod programs;
#[cfg(test)]
mod tables;
#[cfg(test)]
mod texts;
