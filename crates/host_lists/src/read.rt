// Rows and matrices of a host's list, each place read as `record::float` does.
ghost use Rattle.std.specs.Prelude.{◌≡◌, ◌≤◌};
ghost use Rattle.record.specs.Layout.{row_at, mat_at};
ghost use Rattle.host_lists.specs.Read.{decomposed_of};

use decomposed::DecomposedTensor;

fn row_at(r: &[u64], at: usize) -> [f64; 3]
    requires { at ≤ 6 }
    ensures { result ≡ row_at r.now at }
{
    [
        record::float(r, at),
        record::float(r, at + 1),
        record::float(r, at + 2),
    ]
}

pub fn row(r: &[u64]) -> [f64; 3]
    ensures { result ≡ row_at r.now 0 }
{
    row_at(r, 0)
}

pub fn matrix(r: &[u64]) -> [[f64; 3]; 3]
    ensures { result ≡ mat_at r.now 0 }
{
    [row_at(r, 0), row_at(r, 3), row_at(r, 6)]
}

pub fn decomposed(spherical: f64, deviatoric: &[u64]) -> DecomposedTensor
    ensures { result ≡ decomposed_of spherical deviatoric.now }
{
    let d = tensor::to_rows(matrix(deviatoric));
    DecomposedTensor {
        deviatoric_part: d,
        spherical_part: spherical,
    }
}
