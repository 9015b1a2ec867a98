// Text on standard output. What cannot be written is left out, and the program goes on.

// Writes the text, as `print!` does.
macro_rules! say {
    ($rt:expr; $($text:tt)*) => {{
        let _ = print!($rt; $($text)*);
    }};
}

pub(crate) use say;

// Writes the bytes, each as two digits of base 16.
pub fn say_bytes(rt: &impl Print, bytes: &[u8]) {
    for byte in bytes {
        say!(rt; " {byte:02x}");
    }
}
