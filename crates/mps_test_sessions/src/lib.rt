//! Tests of mps_table, mps_monitor, mps_arena, mps_queues, mps_links, mps_stores, mps_log and mps_session, over what
//! these make public.
#![tactic(auto)]

#[cfg(test)]
mod choices;
#[cfg(test)]
mod commits;
#[cfg(test)]
mod comparisons;
#[cfg(test)]
mod dependents;
#[cfg(test)]
mod gists;
#[cfg(test)]
mod lists_of_requests;
#[cfg(test)]
mod logs;
#[cfg(test)]
mod open_protocols;
#[cfg(test)]
mod rollbacks;
#[cfg(test)]
mod steps;
#[cfg(test)]
mod stores;
#[cfg(test)]
mod tables;
#[cfg(test)]
mod undos;
#[cfg(test)]
mod verdicts;
#[cfg(test)]
mod words;
