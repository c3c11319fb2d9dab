//! Tests of mps_dev, mps_base, mps_command, mps_line, mps_lines, mps_seal, mps_global, mps_local and mps_text, over
//! what these make public.
#![tactic(auto)]

#[cfg(test)]
mod command_lines;
#[cfg(test)]
mod commands;
#[cfg(test)]
mod devices;
#[cfg(test)]
mod lines;
#[cfg(test)]
mod local_faults;
#[cfg(test)]
mod merging;
#[cfg(test)]
mod projections;
#[cfg(test)]
mod protocol_texts;
#[cfg(test)]
mod protocols;
#[cfg(test)]
mod read_replies;
#[cfg(test)]
mod seals;
#[cfg(test)]
mod values;
#[cfg(test)]
mod words;
#[cfg(test)]
mod written_replies;
