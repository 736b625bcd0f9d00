//! A law of the form of a task set. The function does nothing: what it ensures holds for all values.

ghost use Rattle.std.specs.Prelude.{◌≡◌, ◌↔◌, true, None};
ghost use Rattle.serde_json.specs.Data.{Data};
ghost use Rattle.taskset_json.specs.Form.{has_set_form};
ghost use Rattle.taskset_json.specs.FormFaults.{first_misshapen};

/// A value has the form of a task set exactly if no place breaks it.
pub fn form_faults_are_exact()
    ensures { (d : Data) → (first_misshapen d ≡ None) ↔ (has_set_form d ≡ true) }
{}
