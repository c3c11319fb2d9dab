//! Laws of what is shown.
ghost use Rattle.std.specs.Prelude.{◌≡◌, ℕ, List, Some, false, slice_get};
ghost use Rattle.mps_base.specs.declared.action.Step.{Step};
ghost use Rattle.mps_local.specs.Local.{LocalType};
ghost use Rattle.mps_show.specs.Plain.{AreShown, IsPlain};
ghost use Rattle.mps_show.specs.Shown.{shown, show_text, stand_text};
ghost use Rattle.serde_json.specs.Data.{Data};
ghost use Rattle.serde_json.specs.View.{view};
ghost use Rattle.serde_json.specs.Written.{has_float, compact_text};
ghost use Rattle.serde_json.specs.declared.value.Value.{Value};

/// A law: a JSON value that stands for a session's state has one text, that of `show_text`. No number in it is a float,
/// so what `serde_json` writes of it is known to the byte.
pub fn a_shown_value_has_one_text()
    ensures no_float { (names : List (List ℕ)) (types : List LocalType) (h : List Step)
        → has_float (shown names types h) ≡ false }
    ensures text { (names : List (List ℕ)) (types : List LocalType) (h : List Step) (v : Value)
        → view v ≡ shown names types h → compact_text (view v) ≡ show_text names types h }
{}

/// A law: the text of a session's state, or of how a role stands, begins with `{` and, where each text in it stands on one line, stands on one
/// line. So it can answer a line.
pub fn a_shown_text_is_one_line()
    ensures begins { (names : List (List ℕ)) (types : List LocalType) (h : List Step)
        → slice_get (show_text names types h) 0 ≡ Some 123 }
    ensures stand_begins { (names : List (List ℕ)) (types : List LocalType) (h : List Step) (p : ℕ)
        → slice_get (stand_text names types h p) 0 ≡ Some 123 }
    ensures shown { (d : Data) → IsPlain d → AreShown (compact_text d) }
{}
