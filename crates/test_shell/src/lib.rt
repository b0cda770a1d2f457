//! The tests of the shell, and of the texts that it reads: what no contract says and no command of rdbg shows, through public calls.
#![tactic(auto)]

#[cfg(test)]
mod expecting;
#[cfg(test)]
mod shell;
#[cfg(test)]
mod texts;
