//! The calls that the tour and the READMEs of mps_session and mps_room show, as a user of the libraries writes them.
//! They are proved and run here, and `.ci/names` looks whether these pages show the same lines.
#![tactic(auto)]

#[cfg(test)]
mod embedding;
#[cfg(test)]
mod lines_and_servers;
#[cfg(test)]
mod rooms;
#[cfg(test)]
mod sessions;
#[cfg(test)]
mod surface;
