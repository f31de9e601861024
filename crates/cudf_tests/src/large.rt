//! Values, lists, documents and statuses at the sizes at which a reader may take another way, and far beyond them: each is
//! read and kept, and memory is missed in none.
mod documents;
mod statuses;
mod values;

use std::alloc::{AllocError, Global};

/// `head`, and then the part so many times.
fn with_parts(alloc: Global, head: &str, part: &str, times: u64) -> Result<String, AllocError> {
    let mut text = String::from_str(alloc, head)?;
    for _ in 0..times {
        text.push_str(part)?;
    }
    Ok(text)
}
