// Tallies by zone: clearing them, moving one particle, and the passes that keep them.
ghost use Rattle.std.specs.Prelude.{◌≡◌, [], ◌∷◌};
ghost use Rattle.host_lists.specs.Called.{called};
ghost use Rattle.host_passes.specs.Zones.{clear_by, move_by, zones_pass, failure_zones_pass};

pub fn pasoletu_clear_tallies(particles: u64, zones: &[u64], tallies: &mut [u64]) -> u8
    ensures { called result (tallies.new ∷ []) ≡ clear_by particles zones.now tallies.old }
{
    tallies::clear_words(particles as usize, zones, tallies)
}

pub fn pasoletu_move_particle(
    particles: u64,
    particle: u64,
    zone: u64,
    zones: &mut [u64],
    tallies: &mut [u64],
) -> u8
    ensures { called result (zones.new ∷ tallies.new ∷ []) ≡ move_by particles particle zone zones.old tallies.old }
{
    tallies::move_particle_words(
        particles as usize,
        particle as usize,
        zone as usize,
        zones,
        tallies,
    )
}

pub fn pasoletu_pass_by_zone(
    model: u64,
    parameters: &[u64],
    zones: &[u64],
    records: &mut [u64],
    answers: &mut [u64],
    tallies: &mut [u64],
) -> u8
    ensures { called result (records.new ∷ answers.new ∷ tallies.new ∷ []) ≡ zones_pass model parameters.now zones.now records.old answers.old tallies.old }
{
    if model::fit(model, parameters)
        & particles::well_sized(records.len(), answers.len())
        & tallies::whole_words(tallies.len())
    {
        if model::known(model, parameters) {
            return tallies::pass_words(
                model::model_of(model, parameters),
                records,
                answers,
                zones,
                tallies,
            );
        }
        return answers::UNKNOWN;
    }
    answers::LENGTH
}

pub fn pasoletu_pass_with_failure_by_zone(
    model: u64,
    parameters: &[u64],
    limits: &[u64],
    corotated: &[u64],
    zones: &[u64],
    records: &mut [u64],
    answers: &mut [u64],
    tallies: &mut [u64],
) -> u8
    ensures { called result (records.new ∷ answers.new ∷ tallies.new ∷ []) ≡ failure_zones_pass model parameters.now limits.now corotated.now zones.now records.old answers.old tallies.old }
{
    if model::fit(model, parameters)
        & (limits.len() == 2)
        & (corotated.len() == 4)
        & particles::well_sized(records.len(), answers.len())
        & tallies::whole_words(tallies.len())
    {
        if model::known(model, parameters) & model::is_flag(record::word(corotated, 0)) {
            return tallies::pass_with_failure_words(
                model::model_of(model, parameters),
                host_lists::limits(limits),
                host_lists::corotated(corotated),
                records,
                answers,
                zones,
                tallies,
            );
        }
        return answers::UNKNOWN;
    }
    answers::LENGTH
}
