ghost use Rattle.std.specs.Prelude.{◌≡◌, ◌<◌, ◌≤◌, if◌then◌else◌, false, length, slice_index_or};
ghost use Rattle.energy_model.specs.{Copied.{arrivals_in}, Counts.{most_run}, Overlay.{checks_in}};

use profile_runner::Profile;

/// How often control entered a region by block `b`.
pub(crate) fn checks_at(profile: &Profile, borders: &[bool], b: usize) -> u128
    requires inside { b < length borders.now }
    requires same { length profile.now.arrivals.items ≡ length borders.now }
    ensures { result ≡ (if slice_index_or borders.now b false then arrivals_in profile.now b else 0) }
{
    if borders[b] {
        u128::from(profile.arrivals[b])
    } else {
        0
    }
}

/// How often a check is made where control enters a region, which `borders` tells of each block.
pub fn count_checks(profile: &Profile, borders: &[bool]) -> u128
    requires same { length profile.now.arrivals.items ≡ length borders.now }
    requires few { checks_in profile.now borders.now (length borders.now) ≤ most_run }
    ensures { result ≡ checks_in profile.now borders.now (length borders.now) }
{
    let mut total = 0;
    for b in 0..borders.len() {
        total += checks_at(profile, borders, b);
    }
    total
}
