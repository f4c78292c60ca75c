//! Fields of bytes: how numbers, strings of bytes and positions are spelled, and a reader that tells where a text is refused.
#![tactic(auto)]

mod decode_error;
mod field_error;
mod reader;
mod short;
mod writing;

pub use decode_error::DecodeError;
pub use field_error::FieldError;
pub use reader::Reader;
pub use short::Short;
pub use writing::{put_bytes, put_id, put_u8, put_u32, put_u64};
