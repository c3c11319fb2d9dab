//! What holds of the definitions that the contracts cite.
ghost use Rattle.std.specs.Prelude.{◌≡◌, ℕ, ◌==◌, not, List, [], ◌∷◌, ◌++◌, Option, Some};
ghost use Rattle.std.specs.List.{filter};
ghost use Rattle.mps_base.specs.Effects.{Idle, effect};
ghost use Rattle.mps_arena.specs.KeyedSteps.{KeyedStep, keyed_at, AreSound};
ghost use Rattle.mps_queues.specs.Fronts.{AreFronts};

/// A law: a mark or a commit, which gives no message and takes none, may be appended to an arena without a change of
/// the queues' fronts.
pub fn idle_steps_may_join()
    ensures { (es : List KeyedStep) (e : KeyedStep) (fronts : List (Option ℕ))
        → effect e.step.act ≡ Idle → AreFronts es fronts → AreFronts (es ++ e ∷ []) fronts }
{}

/// A law: a mark or a commit, which gives no message and takes none, may be removed from an arena, wherever it stands,
/// without a change of the queues' fronts.
pub fn idle_steps_may_go()
    ensures { (es : List KeyedStep) (e : KeyedStep) (fronts : List (Option ℕ))
        → effect e.step.act ≡ Idle → AreSound es → keyed_at e.key es ≡ Some e → AreFronts es fronts
        → AreFronts (filter (λ other. not (other.key == e.key)) es) fronts }
{}
