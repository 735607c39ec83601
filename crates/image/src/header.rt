// Where the sizes P, N and L stand in an image, one byte each, and the clock, four.
pub const PROCESSOR_COUNT: usize = 0;

pub const NODE_COUNT: usize = 1;

pub const LEVEL_COUNT: usize = 2;

pub const CLOCK: usize = 3;
