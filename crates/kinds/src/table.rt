// The kinds of requests, one row each.
ghost use Rattle.std.specs.Prelude.{◌≡◌, MatchResult};
ghost use Rattle.matrix.specs.declared.codes.Refusal.TheVariants.{UnknownKind};
ghost use Rattle.kinds.specs.Table.{kind_numbered, unknown, known_kind, known_way};
ghost use Rattle.kinds.specs.Read.{number_of_kind, row_of, columns, numbered_row, way_of_byte};

use matrix::codes::Refusal;

// A kind, with its number in a request: eigenvalues, singular values, a Cholesky factor, and a factor with a solution, of size 2 or 3.
#[derive(Clone, Copy, Debug, PartialEq, Eq)]
pub enum Kind {
    Eigen2x2 = 1,
    Eigen3x3 = 2,
    Svd2x2 = 3,
    Svd3x3 = 4,
    Factor2x2 = 5,
    Factor3x3 = 6,
    Solve2x2 = 7,
    Solve3x3 = 8,
}

// How many numbers a kind uses of the nine and of the three, whether its answer counts rotations, and whether its matrix is scaled unless the request's
// way says no.
#[derive(Clone, Copy, Debug, PartialEq, Eq)]
pub struct Row {
    pub nine: usize,
    pub three: usize,
    pub counts: bool,
    pub scales: bool,
}

// How a matrix is worked: scaled, as that of a kind that scales is unless the request says no, or as it is given.
#[derive(Clone, Copy, Debug, PartialEq, Eq)]
pub enum Way {
    Scaled,
    AsGiven,
}

impl From<Kind> for u8 {
    ghost from_gives = { λ k n. n ≡ number_of_kind k };

    fn from(k: Kind) -> u8 {
        k as u8
    }
}

// A cast goes from a kind to its number alone, so the way back is a list.
impl TryFrom<u8> for Kind {
    type Error = Refusal;

    ghost try_from_gives = { λ n r. MatchResult r (λ k. kind_numbered n ≡ row_of k) (λ e. (e ≡ UnknownKind) × (kind_numbered n ≡ unknown)) };

    fn try_from(n: u8) -> Result<Kind, Refusal> {
        match n {
            1 => Ok(Kind::Eigen2x2),
            2 => Ok(Kind::Eigen3x3),
            3 => Ok(Kind::Svd2x2),
            4 => Ok(Kind::Svd3x3),
            5 => Ok(Kind::Factor2x2),
            6 => Ok(Kind::Factor3x3),
            7 => Ok(Kind::Solve2x2),
            8 => Ok(Kind::Solve3x3),
            _ => Err(Refusal::UnknownKind),
        }
    }
}

impl Kind {
    pub fn row(self) -> Row
        ensures { result ≡ columns (row_of self) }
    {
        let (nine, three, counts, scales) = match self {
            Kind::Eigen2x2 => (3, 0, false, true),
            Kind::Eigen3x3 => (6, 0, true, true),
            Kind::Svd2x2 => (4, 0, false, true),
            Kind::Svd3x3 => (9, 0, true, true),
            Kind::Factor2x2 => (3, 0, false, false),
            Kind::Factor3x3 => (6, 0, false, false),
            Kind::Solve2x2 => (3, 2, false, false),
            Kind::Solve3x3 => (6, 3, false, false),
        };
        Row {
            nine,
            three,
            counts,
            scales,
        }
    }

    // The way that a request's byte names: 0, and 1 too where the kind's matrix is scaled.
    pub fn way(self, byte: u8) -> Result<Way, Refusal>
        ensures { result ≡ way_of_byte (row_of self) byte }
    {
        match (byte, self.row().scales) {
            (0, true) => Ok(Way::Scaled),
            (0, false) | (1, true) => Ok(Way::AsGiven),
            _ => Err(Refusal::Reserved),
        }
    }
}

// The kind of a number, if a kind has it, and its row; what has no kind uses, counts and scales nothing.
#[derive(Clone, Copy, Debug, PartialEq, Eq)]
pub struct Numbered {
    pub kind: Option<Kind>,
    pub row: Row,
}

// The row of any number.
pub fn kind_numbered(n: u8) -> Numbered
    ensures { numbered_row result ≡ kind_numbered n }
{
    match Kind::try_from(n) {
        Ok(k) => Numbered {
            kind: Some(k),
            row: k.row(),
        },
        Err(_) => Numbered {
            kind: None,
            row: Row {
                nine: 0,
                three: 0,
                counts: false,
                scales: false,
            },
        },
    }
}

pub fn is_known(n: u8) -> bool
    ensures { result ≡ known_kind n }
{
    Kind::try_from(n).is_ok()
}

// Whether a number's kind has the way: 0, and 1 too where its matrix is scaled.
pub fn has_way(n: u8, way: u8) -> bool
    ensures { result ≡ known_way n way }
{
    if kind_numbered(n).row.scales {
        way <= 1
    } else {
        way == 0
    }
}
