//! Certificates judged as their texts come, piece by piece.
#![tactic(auto)]

mod error;
mod hearing;
mod laws;
mod stream;
mod verifying;

pub use error::StreamError;
pub use hearing::Hearing;
pub use laws::judged_as_read;
pub use stream::Stream;
pub use verifying::verify;
