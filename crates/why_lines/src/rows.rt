// A law is a row: where its sentences, its steps and its parameters begin in the texts, in the words of docs/STEPS.md and calls.toml, which
// tools/reasons.py holds to each other.
use crate::texts::{print_line, print_sentence};
use model::Law;
use std::io;

#[derive(Clone, Copy)]
struct Row {
    sentences: usize,
    steps: usize,
    parameters: usize,
}

const OWN_STEPS: usize = 63;

// Snow makes no test; of a number that names no law nothing is printed.
fn row_of(law: Law) -> Row {
    match law {
        Law::Snow => Row {
            sentences: 33,
            steps: 0,
            parameters: 0,
        },
        Law::Rankine => Row {
            sentences: 0,
            steps: 4,
            parameters: 3,
        },
        Law::DruckerPrager => Row {
            sentences: 12,
            steps: 14,
            parameters: 7,
        },
        Law::Nacc => Row {
            sentences: 21,
            steps: 33,
            parameters: 15,
        },
        Law::Unknown => Row {
            sentences: 33,
            steps: 65,
            parameters: 21,
        },
    }
}

// The words of the last test, by the branch that it chose: before the first number, between the two, behind the second.
pub fn print_test(rt: &impl Print, law: Law, branch: usize, a: f64, b: f64) -> io::Result<()> {
    print_sentence(
        rt,
        ": the largest stress \n is within the softened strength \n; untouched\n\
            : were the largest strain brought down to the next, the largest stress \n would be within the softened strength \n; one strain is returned\n\
            : were all strains brought down to the least, the stress \n would be within the softened strength \n; two strains are returned\n\
            : were all strains brought down to the least, the stress \n would be over the softened strength \n; all three strains are returned\n\
            : its distance past the cone \n is at most \n; untouched\n\
            : it came apart, \n is below the sum of its strains \n; sigma are all ones\n\
            : its distance past the cone \n is over \n; returned to the cone\n\
            : its distance past the ellipse \n is below \n; untouched\n\
            : the largest pressure \n is below its pressure \n; returned to the upper tip\n\
            : its pressure \n is below the lowest \n; returned to the lower tip\n\
            : its distance past the ellipse \n is at least \n; returned to the ellipse\n",
        row_of(law).sentences,
        branch,
        a,
        b,
    )
}

fn print_step(rt: &impl Print, first: usize, k: usize) -> io::Result<()> {
    print_line(
        rt,
        ": each sigma: maximum with the lower bound 1 - min_epsilon\n\
            : then minimum with the upper bound 1 + max_epsilon\n\
            : the exponential of hardening_coeff * (1 - plastic determinant), and the determinant in it\n\
            : the results: F, sigma, plastic determinant, elastic hardening\n\
            : the moduli lambda and mu are finite\n\
            : the logarithms of sigma, in index order\n\
            : s, the softened strength\n\
            : test: the first side is at most s\n\
            : test: the second side is at most s\n\
            : test: the third side is at most s\n\
            : the norm of the change\n\
            : the plastic hardening, and its cap\n\
            : the exponentials of the strains, in index order\n\
            : the results: F, sigma, plastic hardening\n\
            : test: it is active only when failed, and phase isn't 0.0\n\
            : exp(-h2 q)\n\
            : the sine of the angle\n\
            : root(2/3), which refuses nothing\n\
            : alpha\n\
            : the logarithms of sigma, in index order\n\
            : the strain, its trace, its deviatoric part\n\
            : test: the deviatoric part is all zero\n\
            : test: 0 is below the trace\n\
            : the norm of the strain, dq of branch 1\n\
            : the norm of the deviatoric part\n\
            : gamma\n\
            : test: gamma is at most 0\n\
            : the strains on the cone\n\
            : their exponentials, in index order\n\
            : the new determinant (its own test is no branch) and the plastic determinant\n\
            : ln of the old product of sigma\n\
            : ln of the new determinant\n\
            : the results: F, sigma, plastic determinant, plastic hardening, log gain\n\
            : the moduli mu and kappa are finite\n\
            : max(-alpha, 0)\n\
            : sinh\n\
            : p0\n\
            : j to the power -2/3\n\
            : the square of the norm of s_tr, and p_tr\n\
            : test: p0 is below p_tr\n\
            : test: p_tr is below -beta p0\n\
            : y, and the test: y is below 1e-4\n\
            : a tip's J, a root\n\
            : a tip's sigma, a cube root\n\
            : a tip's alpha, a logarithm\n\
            : the four conditions of the hardening step, none of them a branch\n\
            : p_c\n\
            : root(3/2)\n\
            : the norm of s_tr\n\
            : the norm of the direction\n\
            : the direction\n\
            : the root of the quadratic\n\
            : both crossings\n\
            : which crossing\n\
            : J there, a root\n\
            : alpha there, a logarithm\n\
            : root(-y1/y0)\n\
            : j to the power 2/3\n\
            : their product over mu\n\
            : the norm of s_tr\n\
            : the squares of sigma on the surface\n\
            : their roots, in index order\n\
            : the results: F, sigma, alpha\n\
            : the stored determinant is that of F\n\
            : the determinant of the new F is finite, where the law stores\n",
        first,
        k,
    )
}

// Steps count from 1 in each law, 0 is the inputs; the record's own two, the last of the text, are 40 and 41.
pub fn print_refused(rt: &impl Print, law: Law, step: usize) -> io::Result<()> {
    match step {
        0 => Ok(()),
        1..40 => print_step(rt, row_of(law).steps, step - 1),
        _ => print_step(rt, OWN_STEPS, step - 40),
    }
}

// That parameter i of a law isn't finite, with its name.
pub fn print_parameter(rt: &impl Print, law: Law, i: usize) -> io::Result<()> {
    rt.print(" refused 1 at step 0: parameter ")?;
    rt.print(i)?;
    print_line(
        rt,
        ", min_epsilon\n\
            , max_epsilon\n\
            , hardening_coeff\n\
            , young_modulus\n\
            , poisson_ratio\n\
            , tensile_strength\n\
            , softening_rate\n\
            , h0\n\
            , h1\n\
            , h2\n\
            , h3\n\
            , lambda\n\
            , mu\n\
            , only_active_when_failed\n\
            , volume_correction\n\
            , young_modulus\n\
            , poisson_ratio\n\
            , cohesion\n\
            , hardening_enabled\n\
            , hardening_factor\n\
            , m\n",
        row_of(law).parameters,
        i,
    )
}
