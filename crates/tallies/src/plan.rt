// What a call does with each tally that is lent to it, by value: its refusal, and the particles listed in each zone.
ghost use Rattle.std.specs.Prelude.{◌≡◌, true, cond, ◌&&◌, ◌/◌, eqb, length, get_or};
ghost use Rattle.answers.specs.Refusals.{wrong_length, tally_full};
ghost use Rattle.record.specs.Layout.{floats};
ghost use Rattle.particles.specs.Pass.{sized};
ghost use Rattle.tallies.specs.Zones.{below_in, zones_fit, move_fits};
ghost use Rattle.tallies.specs.Tallies.{clear_refusal, move_refusal, move_zones, has_room, with_particles};
ghost use Rattle.tallies.specs.Plans.{Counts, Planned, planned};

use crate::tally::Tally;
use crate::{ranges, tally};

// 0 leaves a tally as it is, 1 counts its particles afresh, 2 clears it besides.
#[derive(Clone, Copy)]
pub struct Plan {
    pub refusal: u8,
    pub what: u64,
    pub counts: [u64; 256],
}

// How many particles are listed in each zone.
#[tactic(auto, using(crate::proofs::ZoneLaws::below_at, crate::proofs::ZoneLaws::listed_most))]
fn counted(zones: &[u64]) -> [u64; 256]
    requires { below_in 256 zones.now (length zones.now) ≡ true }
    ensures { Counts zones.now result }
{
    let mut r = [0; 256];
    for z in zones {
        r[*z as usize] += 1;
    }
    r
}

// What goes, or is refused and changes nothing.
fn decided(goes: bool, what: u64, refusal: u8, zones: &[u64]) -> Plan
    requires { goes ≡ true → below_in 256 zones.now (length zones.now) ≡ true }
    ensures { (result.refusal ≡ cond goes 0 refusal) × Planned what goes zones.now result }
{
    if goes {
        let counts = counted(zones);
        return Plan {
            refusal: 0,
            what,
            counts,
        };
    }
    Plan {
        refusal,
        what: 0,
        counts: [0; 256],
    }
}

pub fn to_clear(particles: usize, zones: &[u64], n: usize) -> Plan
    ensures { (result.refusal ≡ clear_refusal particles zones.now n) × Planned 2 (zones_fit particles zones.now n) zones.now result }
{
    let goes = ranges::zones_fit(particles, zones, n);
    decided(goes, 2, answers::BAD_ZONE, zones)
}

// The particles listed in zone z; none in a zone beyond the last.
fn count_at(counts: &[u64], z: usize) -> u64
    ensures { result ≡ get_or counts.now z 0 }
{
    if z < counts.len() {
        return counts[z];
    }
    0
}

// Whether tally z has room for an outcome of every particle listed there, and those before it had.
pub fn room_too(before: bool, t: Tally, counts: &[u64], z: usize) -> bool
    ensures { result ≡ (before && has_room (with_particles (get_or counts.now z 0) t)) }
{
    let u = tally::with_particles(t, count_at(counts, z));
    before & tally::has_room(u)
}

// Tally z after the call.
pub fn settled(t: Tally, what: u64, counts: &[u64], z: usize) -> Tally
    ensures { result ≡ planned what counts.now z t }
{
    let n = count_at(counts, z);
    if what == 1 {
        return tally::with_particles(t, n);
    }
    if what == 2 {
        return tally::with_particles(tally::empty(), n);
    }
    t
}

// The look for room that a pass begins with: 8, then 12.
pub fn to_pass(words: usize, places: usize, zones: &[u64], n: usize) -> Plan
    ensures { (result.refusal ≡ cond (sized words places) (clear_refusal (words / floats) zones.now n) wrong_length) × Planned 0 (sized words places && zones_fit (words / floats) zones.now n) zones.now result }
{
    if particles::well_sized(words, places) {
        let goes = ranges::zones_fit(words / record::FLOATS, zones, n);
        return decided(goes, 0, answers::BAD_ZONE, zones);
    }
    decided(false, 0, answers::LENGTH, zones)
}

// After it: 13, or particles are counted afresh.
pub fn to_count(p: Plan, room: bool) -> Plan
    ensures { (result.refusal ≡ cond (eqb p.refusal 0) (cond room 0 tally_full) p.refusal) × (result.what ≡ cond (eqb p.refusal 0 && room) 1 p.what) × (result.counts ≡ p.counts) }
{
    let code = p.refusal;
    let counts = p.counts;
    if code == 0 {
        if room {
            return Plan {
                refusal: 0,
                what: 1,
                counts,
            };
        }
        return Plan {
            refusal: answers::TALLY_FULL,
            what: p.what,
            counts,
        };
    }
    p
}

// Particle p goes to zone z of the list, and all are counted afresh; or 12, and the list stays.
pub fn to_move(particles: usize, p: usize, z: usize, zones: &mut [u64], n: usize) -> Plan
    ensures { (result.refusal ≡ move_refusal particles p z zones.old n) × (zones.new ≡ move_zones particles p z zones.old n) × Planned 1 (move_fits particles p z zones.old n) zones.new result }
{
    if ranges::move_fits(particles, p, z, &zones[..], n) {
        zones[p] = z as u64;
        return decided(true, 1, answers::BAD_ZONE, &zones[..]);
    }
    decided(false, 1, answers::BAD_ZONE, &zones[..])
}
