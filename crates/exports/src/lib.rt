// Kernels as C functions on slices of doubles, for a host and for timing beside the Rust.
#![tactic(auto)]

pub mod kernels;
mod slices;
