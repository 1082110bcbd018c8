// One material's direct factors.
ghost use Rattle.std.specs.Prelude.{◌≤◌};

// Ten-thousandths, at flooded sites and at the others.
#[derive(Clone, Copy)]
pub struct ByWater {
    pub flooded: u16,
    pub not_flooded: u16,
    ghost within: { (flooded ≤ 1000) × (not_flooded ≤ 1000) },
}
