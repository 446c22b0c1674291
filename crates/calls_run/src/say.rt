// What is written on standard output: texts, numbers, refusals, bytes.
use display::{Refusal, refusal_number};
use std::fmt::Display;
use std::io::Stdout;

// To standard output; `streams::say_error` does the same to standard error, another handle.
pub(crate) fn say(output: Stdout, text: &[u8]) {
    let _ = output.write_all(text);
}

pub(crate) fn say_number(output: Stdout, n: u64) {
    let _ = print!(output; "{n}");
}

// A number after a space.
pub(crate) fn say_next<N: Display + Drop>(output: Stdout, n: N) {
    let _ = print!(output; " {n}");
}

pub(crate) fn say_refusal(output: Stdout, why: Refusal) {
    say(output, b"refused");
    say_next(output, refusal_number(why));
}

// What an answer has, or its refusal.
pub(crate) fn say_answer<T, F: FnOnce(Stdout, T)>(
    output: Stdout,
    answer: Result<T, Refusal>,
    say_value: F,
)
    requires { F.IsAlwaysCallable say_value }
{
    match answer {
        Ok(value) => say_value(output, value),
        Err(why) => say_refusal(output, why),
    }
}

// Bytes after a space.
pub(crate) fn say_bytes(output: Stdout, bytes: &[u8]) {
    say(output, b" ");
    for byte in bytes {
        let _ = print!(output; "{byte:02x}");
    }
}
