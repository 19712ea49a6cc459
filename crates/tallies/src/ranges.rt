// Refusal 12: what is in range.
ghost use Rattle.std.specs.Prelude.{◌≡◌, length};
ghost use Rattle.tallies.specs.Zones.{below_in, zones_fit, move_fits};

use crate::tally::ZONES;

fn all_below(zones: &[u64], n: usize) -> bool
    ensures { result ≡ below_in n zones.now (length zones.now) }
{
    // One way out, so that several zones are looked at at once: `all` takes half as long again.
    let mut ok = true;
    for z in zones {
        ok &= (*z as usize) < n;
    }
    ok
}

// At most 256 tallies, a zone for each of so many particles, and each zone below the number of tallies.
pub fn zones_fit(particles: usize, zones: &[u64], tallies: usize) -> bool
    ensures { result ≡ zones_fit particles zones.now tallies }
{
    (tallies <= ZONES) & ((zones.len() == particles) & all_below(zones, tallies))
}

// And particle p and zone z are in range too.
pub fn move_fits(particles: usize, p: usize, z: usize, zones: &[u64], tallies: usize) -> bool
    ensures { result ≡ move_fits particles p z zones.now tallies }
{
    zones_fit(particles, zones, tallies) & ((p < particles) & (z < tallies))
}
