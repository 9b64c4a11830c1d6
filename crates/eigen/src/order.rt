// Three values in ascending order, alone and with the columns of a matrix. Real is f64 (float::width).
ghost use Rattle.std.specs.Prelude.{◌≡◌, ◌<◌, [], ◌∷◌};
ghost use Rattle.matrix.specs.Square.{mat3, exchange_of};
ghost use Rattle.jacobi.specs.Order.{ordered, ascending};
ghost use Rattle.jacobi.specs.Pairs.{index_p, index_q};
ghost use Rattle.eigen.specs.Eigen3x3.{sorted, ranked, rank_of};
ghost use Rattle.eigen.specs.EigVals.{sort3_of};

use float::width::Real;
use jacobi::pairs::Pair;
use matrix::square::Mat3;

// Values, and the columns that belong to them.
#[derive(Clone, Copy)]
pub struct Sorted {
    pub values: [Real; 3],
    pub columns: Mat3,
}

fn indices(pair: Pair) -> (usize, usize)
    ensures is { result ≡ (index_p pair, index_q pair) }
    ensures below { (result.0 < 3) × (result.1 < 3) }
{
    match pair {
        Pair::P12 => (0, 1),
        Pair::P13 => (0, 2),
        Pair::P23 => (1, 2),
    }
}

fn exchanged(columns: Mat3, pair: Pair) -> Mat3
    ensures { result ≡ mat3 (exchange_of 3 (index_p pair) (index_q pair) columns.«data») }
{
    match pair {
        Pair::P12 => columns.swap12(),
        Pair::P13 => columns.swap13(),
        Pair::P23 => columns.swap23(),
    }
}

// The two values of a pair in ascending order, and their columns.
#[tactic(auto, unfolding(jacobi::specs::Order::ordered), using(crate::proofs::Swapped::values_swapped))]
fn ranked(mut w: Sorted, pair: Pair) -> Sorted
    ensures { result ≡ sorted (ordered 3 ascending (exchange_of 3) (index_p pair) (index_q pair) (ranked w)) }
{
    let (p, q) = indices(pair);
    if w.values[p] > w.values[q] {
        w.values.swap(p, q);
        w.columns = exchanged(w.columns, pair);
    }
    w
}

// The crate's three comparisons (dense3x3/eigen.rs, lines 400 to 425).
pub fn sort3_with_columns(a: Real, b: Real, c: Real, m: Mat3) -> Sorted
    ensures { result ≡ sorted (rank_of (record { values = a ∷ b ∷ c ∷ []; carried = m.«data» })) }
{
    let given = Sorted {
        values: [a, b, c],
        columns: m,
    };
    let first = ranked(given, Pair::P12);
    ranked(ranked(first, Pair::P13), Pair::P23)
}

// The values alone (lines 385 to 397): the columns do not matter to them.
pub fn sort3(a: Real, b: Real, c: Real) -> [Real; 3]
    ensures { result ≡ sort3_of (a ∷ b ∷ c ∷ []) }
{
    sort3_with_columns(a, b, c, Mat3::zeros()).values
}
