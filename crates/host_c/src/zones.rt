// Tallies by zone: clearing them, moving one particle, and the passes that keep them.
ghost use Rattle.std.specs.Prelude.{◌≡◌, [], ◌∷◌};
ghost use Rattle.host_lists.specs.Called.{called};
ghost use Rattle.host_passes.specs.Zones.{clear_by, move_by, zones_pass, failure_zones_pass};

#[unsafe(no_mangle)]
pub extern "C" fn pasoletu_clear_tallies(particles: u64, zones: &[u64], tallies: &mut [u64]) -> u8
    ensures { called result (tallies.new ∷ []) ≡ clear_by particles zones.now tallies.old }
{
    host_passes::pasoletu_clear_tallies(particles, zones, tallies)
}

#[unsafe(no_mangle)]
pub extern "C" fn pasoletu_move_particle(
    particles: u64,
    particle: u64,
    zone: u64,
    zones: &mut [u64],
    tallies: &mut [u64],
) -> u8
    ensures { called result (zones.new ∷ tallies.new ∷ []) ≡ move_by particles particle zone zones.old tallies.old }
{
    host_passes::pasoletu_move_particle(particles, particle, zone, zones, tallies)
}

#[unsafe(no_mangle)]
pub extern "C" fn pasoletu_pass_by_zone(
    model: u64,
    parameters: &[u64],
    zones: &[u64],
    records: &mut [u64],
    answers: &mut [u64],
    tallies: &mut [u64],
) -> u8
    ensures { called result (records.new ∷ answers.new ∷ tallies.new ∷ []) ≡ zones_pass model parameters.now zones.now records.old answers.old tallies.old }
{
    host_passes::pasoletu_pass_by_zone(model, parameters, zones, records, answers, tallies)
}

#[unsafe(no_mangle)]
pub extern "C" fn pasoletu_pass_with_failure_by_zone(
    model: u64,
    parameters: &[u64],
    limits: &[u64],
    corotated: &[u64],
    zones: &[u64],
    records: &mut [u64],
    answers: &mut [u64],
    tallies: &mut [u64],
) -> u8
    ensures { called result (records.new ∷ answers.new ∷ tallies.new ∷ []) ≡ failure_zones_pass model parameters.now limits.now corotated.now zones.now records.old answers.old tallies.old }
{
    host_passes::pasoletu_pass_with_failure_by_zone(
        model, parameters, limits, corotated, zones, records, answers, tallies,
    )
}
