//! Tests of mps_words and mps_program, over what these make public.
#![tactic(auto)]

#[cfg(test)]
mod fake;
#[cfg(test)]
mod orders;
#[cfg(test)]
mod parts;
#[cfg(test)]
mod reversals;
#[cfg(test)]
mod servers;
#[cfg(test)]
mod shown_sessions;
#[cfg(test)]
mod whole_program;
