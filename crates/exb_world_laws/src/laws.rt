//! What is true of worlds in motion.
pub mod runs;
pub mod steps;
