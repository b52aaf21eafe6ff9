// What instructions take from the stack, demand of it and leave on it.
pub mod arrays;
pub mod calls;
pub mod comparisons;
pub mod fields;
pub mod moves;
pub mod numbers;
pub mod references;
pub mod steps;
