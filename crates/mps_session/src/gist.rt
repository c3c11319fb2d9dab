//! Answers in short.
use mps_base::StepId;

/// What a session answered to a change, in short: where a step took a message, it names a step that gave the same
/// message. Unproved: that is the one that sent it. Whoever has the steps from before can tell the answer from it.
#[derive(Debug, Drop)]
pub enum Gist {
    /// The number of a new step, and, where it took a message, that of the step that sent it.
    Stepped { id: StepId, source: Option<StepId> },
    /// The number of the step that was undone.
    Undid(StepId),
    /// The numbers of the steps that were taken back, the newest first.
    TookBack(Vec<StepId>),
}
