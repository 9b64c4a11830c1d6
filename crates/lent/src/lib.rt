// A rotation of a matrix where it stands, as the crate's `apply_rotation`: whoever holds the matrix lends it, and it is left as it was on refusal.
#![tactic(auto)]

ghost use Rattle.std.specs.Prelude.{◌≡◌};
ghost use Rattle.float.specs.Width.{F};
ghost use Rattle.matrix.specs.Codes.{code_of};
ghost use Rattle.matrix.specs.Indexed.{written};
ghost use Rattle.lent.specs.InPlace.{rotated_of, Left};

use eigen::pairs::apply_rotation;
use float::sign::all_finite;
use jacobi::pairs::Pair;
use jacobi::rotation::Rotation;
use matrix::answers::Unchanged;
use matrix::codes::Refusal;
use matrix::symmetric::Sym3;

// Rotates the pair of the lent matrix.
#[tactic(auto, unfolding(crate::specs::InPlace::rotated_of))]
pub fn rotate_in_place(a: &mut Sym3, p: Pair, r: Rotation) -> Result<(), Refusal>
    ensures { Left (rotated_of F p r a.old.«data») (code_of result) a.new }
{
    if !all_finite(&a.data) || !all_finite(&[r.c, r.s, r.t]) {
        return Err(Refusal::InputNotFinite);
    }
    let rotated = apply_rotation(*a, p, r);
    if !all_finite(&rotated.data) {
        return Err(Refusal::AnswerNotFinite);
    }
    *a = rotated;
    Ok(())
}

// The same on a copy, which it lends. A refusal hands the copy back as it was left.
pub fn rotate(mut a: Sym3, p: Pair, r: Rotation) -> Result<Sym3, Unchanged<Sym3>>
    ensures { written result ≡ rotated_of F p r a.«data» }
{
    match rotate_in_place(&mut a, p, r) {
        Ok(()) => Ok(a),
        Err(why) => Err(Unchanged { why, matrix: a }),
    }
}
