ghost use Rattle.std.specs.Prelude.{◌≡◌, ◌≤◌, pos, ◌+ℤ◌, ◌-ℤ◌, ◌*ℤ◌, ◌≤ℤ◌, IfSome};
ghost use Rattle.fixed_geom.specs.Division.{IsFloor};
ghost use Rattle.fixed_geom.specs.Vectors.{IsWithin};
ghost use Rattle.camera.specs.Cameras.{depth_of};
ghost use Rattle.camera.specs.SampleRanges.{IsRangeOf};
ghost use Rattle.camera.specs.declared.camera.CameraFields.{CameraFields as Fields};

use crate::camera::Camera;
use crate::shared::is_between;

/// The raw samples that a camera takes: those from `least` to `most`, each the depth of that many units.
#[derive(Clone, Copy, Debug, PartialEq, Eq)]
pub struct SampleRange {
    pub unit: i64,
    pub least: i64,
    pub most: i64,
    ghost unit_low: { pos 1 ≤ℤ unit },
    ghost unit_high: { unit ≤ℤ pos 100000 },
    ghost least_within: { IsWithin (pos 16000001) least },
    ghost most_within: { IsWithin (pos 16000001) most },
}

impl SampleRange {
    /// The samples that this camera takes.
    pub fn of(camera: &Camera) -> SampleRange
        ensures { IsRangeOf camera.now result.unit result.least result.most }
    {
        let fields = camera.fields();
        SampleRange {
            unit: fields.unit,
            least: whole_units(fields.near - 1, fields.unit) + 1,
            most: whole_units(fields.far, fields.unit),
        }
    }

    /// The depth of a raw sample, in micrometres. `None` where the camera does not take it.
    pub fn depth(self, raw: u16) -> Option<i64>
        ensures value { (k : Fields) → IsRangeOf k self.unit self.least self.most → result ≡ depth_of k raw }
        ensures range { (k : Fields) → IsRangeOf k self.unit self.least self.most → IfSome result (λ d. (pos 1 ≤ℤ d) × (d ≤ℤ k.far)) }
    {
        is_between(self.least, self.most, i64::from(raw)).then_some(units(raw, self.unit))
    }
}

/// The number of whole units in a depth.
fn whole_units(depth: i64, unit: i64) -> i64
    requires depth { pos 0 ≤ℤ depth }
    requires depth_high { depth ≤ℤ pos 16000000 }
    requires unit { pos 1 ≤ℤ unit }
    ensures value { IsFloor depth unit result }
    ensures low { pos 0 ≤ℤ result }
    ensures high { result ≤ℤ pos 16000000 }
{
    depth.div_euclid(unit)
}

/// The depth of `raw` units.
fn units(raw: u16, unit: i64) -> i64
    requires low { pos 1 ≤ℤ unit }
    requires high { unit ≤ℤ pos 100000 }
    ensures { result ≡ pos raw *ℤ unit }
{
    i64::from(raw) * unit
}
