//! Tests of mps_show, mps_room and mps_cell, over what these make public.
#![tactic(auto)]

#[cfg(test)]
mod cells;
#[cfg(test)]
mod numbered_passes;
#[cfg(test)]
mod numbers;
#[cfg(test)]
mod rooms;
#[cfg(test)]
mod shown;
#[cfg(test)]
mod texts;
