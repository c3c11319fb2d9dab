//! Tests of mps_wire, mps_keeper and mps_hub, over what these make public.
#![tactic(auto)]

#[cfg(test)]
mod connections;
#[cfg(test)]
mod conversations;
#[cfg(test)]
mod counted;
#[cfg(test)]
mod desks;
#[cfg(test)]
mod gates;
#[cfg(test)]
mod journals;
#[cfg(test)]
mod other_types;
#[cfg(test)]
mod pieces;
#[cfg(test)]
mod protocols;
#[cfg(test)]
mod scripts;
#[cfg(test)]
mod waiting;
