// What a run of rotations made, in the states and answers of both 3x3 kernels.
#[derive(Clone, Copy, Debug, PartialEq, Eq)]
pub struct Made {
    pub count: u8,
}
