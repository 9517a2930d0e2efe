//! What is the least age that a chain of a cluster of several rates can have?

mod age_cut;
mod answer;
mod laws;
mod least;

pub use answer::LeastAge;
pub use laws::ages_have_certificate_texts;
pub use least::least_age;
