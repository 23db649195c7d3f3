use crate::file_error::FileError;
use row_core::Bytes;

/// A name that stands for one file or folder below another, and for nothing else. One that is empty, is
/// no text, begins with a dot or has a slash or a zero byte is refused.
pub fn file_name(name: &Bytes) -> Result<&str, FileError> {
    let Ok(text) = str::from_utf8(name.as_slice()) else {
        return Err(FileError::Failed);
    };
    if text.is_empty() || text.starts_with('.') || text.contains('/') || text.contains('\0') {
        return Err(FileError::Failed);
    }
    Ok(text)
}
