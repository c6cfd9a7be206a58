//! Text in XML.

use std::alloc::{AllocError, Global};

/// The text as it stands in an element or an attribute. All that is drawn is printable ASCII and line ends; any other byte would be shown
/// as `?`.
pub fn escaped(alloc: Global, text: &[u8]) -> Result<String, AllocError> {
    let mut out = String::new(alloc);
    'bytes: for byte in text {
        match *byte {
            b'&' => out.push_str("&amp;")?,
            b'<' => out.push_str("&lt;")?,
            b'>' => out.push_str("&gt;")?,
            b'"' => out.push_str("&quot;")?,
            b'\'' => out.push_str("&#39;")?,
            b'\n' | b' '..=b'~' => out.push(char::from(*byte))?,
            _ => out.push('?')?,
        }
    }
    Ok(out)
}
