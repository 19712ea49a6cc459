// Monaghan's equation of state for hosts.
ghost use Rattle.std.specs.Prelude.{◌≡◌, [], ◌∷◌};
ghost use Rattle.eos_monaghan_sph.specs.Pressure.{pressure_of};
ghost use Rattle.host_lists.specs.Called.{called};
ghost use Rattle.host_lists.specs.Out.{number_in, matrix_in};
ghost use Rattle.host.specs.Calls.{eos_of, monaghan_kirchhoff_stress, monaghan_timestep_bound};

use eos_monaghan_sph::MonaghanSphEos;

fn eos(pressure0: f64, gamma: u32, viscosity: f64, max_neg_pressure: f64) -> MonaghanSphEos
    ensures { result ≡ eos_of pressure0 gamma viscosity max_neg_pressure }
{
    MonaghanSphEos {
        pressure0,
        gamma,
        viscosity,
        max_neg_pressure,
    }
}

pub fn pasoletu_monaghan_pressure(
    pressure0: f64,
    gamma: u32,
    viscosity: f64,
    max_neg_pressure: f64,
    mass: f64,
    volume: f64,
    density: f64,
    out: &mut [u64],
) -> u8
    ensures { called result (out.new ∷ []) ≡ number_in (pressure_of (eos_of pressure0 gamma viscosity max_neg_pressure) mass volume density) out.old }
{
    let law = eos(pressure0, gamma, viscosity, max_neg_pressure);
    host_lists::put(law.pressure(mass, volume, density), out)
}

pub fn pasoletu_monaghan_kirchhoff_stress(
    pressure0: f64,
    gamma: u32,
    viscosity: f64,
    max_neg_pressure: f64,
    mass: f64,
    volume: f64,
    density: f64,
    det: f64,
    gradient: &[u64],
    out: &mut [u64],
) -> u8
    ensures { called result (out.new ∷ []) ≡ matrix_in (monaghan_kirchhoff_stress (eos_of pressure0 gamma viscosity max_neg_pressure) mass volume density det gradient.now) out.old }
{
    let ok = gradient.len() == 9;
    let law = eos(pressure0, gamma, viscosity, max_neg_pressure);
    let a = law.kirchhoff_stress(mass, volume, density, det, host_lists::matrix(gradient));
    host_lists::put_matrix(host_lists::sized_matrix(ok, a), out)
}

pub fn pasoletu_monaghan_timestep_bound(
    pressure0: f64,
    gamma: u32,
    viscosity: f64,
    max_neg_pressure: f64,
    j: f64,
    mass: f64,
    volume: f64,
    density: f64,
    velocity: &[u64],
    width: f64,
    out: &mut [u64],
) -> u8
    ensures { called result (out.new ∷ []) ≡ number_in (monaghan_timestep_bound (eos_of pressure0 gamma viscosity max_neg_pressure) j mass volume density velocity.now width) out.old }
{
    let ok = velocity.len() == 3;
    let law = eos(pressure0, gamma, viscosity, max_neg_pressure);
    let a = law.timestep_bound(j, mass, volume, density, host_lists::row(velocity), width);
    host_lists::put(host_lists::sized(ok, a), out)
}
