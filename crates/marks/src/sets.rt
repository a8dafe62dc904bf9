// Sets of units as bits: the unit i is the bit i - 1.
ghost use Rattle.std.specs.Prelude.{◌≡◌, ◌||◌, if◌then◌else◌, nat_lt};
ghost use Rattle.rules.specs.Units.{has, with_unit};

// Whether a set has a unit.
pub fn has(set: u32, unit: usize) -> bool
    ensures { result ≡ has set unit }
{
    let place = unit.saturating_sub(1);
    place < 32 && (set >> place) & 1 == 1
}

// A set with a unit put to it; the set as it is if it has the unit, or if the unit is above 32.
pub fn with_unit(set: u32, unit: usize) -> u32
    ensures { result ≡ (if nat_lt 32 unit || has set unit then set else with_unit set unit) }
{
    if unit > 32 || has(set, unit) {
        return set;
    }
    set + (1 << unit.saturating_sub(1))
}
