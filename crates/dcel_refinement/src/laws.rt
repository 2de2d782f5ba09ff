//! Worked rows of the definitions. These calls compute nothing: a caller learns what they ensure.

ghost use Rattle.std.specs.Prelude.{◌≡◌, ◌*◌, ◌+◌, pos, negsuc, true, false};
ghost use Rattle.std.specs.Float.Ieee.{nan, inf, fin};
ghost use Rattle.dcel_refinement.specs.Tangents.{Reaches, eighth, steps_of};

/// Degrees in steps of 1/65536: 20 and 20.5 exactly, half a step and two and a half rounded up, and
/// the nearest ones below 0 degrees, above 45 and for NaN.
pub fn worked_degrees()
    ensures whole { steps_of (fin false 5 (pos 2)) ≡ 20 * 65536 }
    ensures half { steps_of (fin false 41 (negsuc 0)) ≡ 20 * 65536 + 32768 }
    ensures rounded { (steps_of (fin false 1 (negsuc 16)) ≡ 1) × (steps_of (fin false 5 (negsuc 16)) ≡ 3) }
    ensures least { (steps_of (fin true 5 (pos 2)) ≡ 0) × (steps_of (inf true) ≡ 0) × (steps_of nan ≡ 0) }
    ensures most { (steps_of (fin false 45 (pos 0)) ≡ eighth) × (steps_of (fin false 15 (pos 2)) ≡ eighth) × (steps_of (inf false) ≡ eighth) }
{}

/// Tangents times 65535 rounded up: that of 20 degrees is 23852.8.., that of 30 degrees 37836.6..,
/// that of 45 degrees 65535.
pub fn worked_tangents()
    ensures none { Reaches 0 0 65535 }
    ensures twenty { Reaches (20 * 65536) 23853 65535 × ¬ Reaches (20 * 65536) 23852 65535 }
    ensures thirty { Reaches (30 * 65536) 37837 65535 × ¬ Reaches (30 * 65536) 37836 65535 }
    ensures forty_five { Reaches eighth 65535 65535 × ¬ Reaches eighth 65534 65535 }
{}
