// The lines that the program prints. One that can't be printed is missing in what is compared.

use std::io::Print;

/// From this line on no call takes memory.
pub fn no_allocation<R: Print>(rt: &R) {
    let _ = rt.println("allocation: 0");
}

/// From this line on calls may take memory.
pub fn allocation<R: Print>(rt: &R) {
    let _ = rt.println("allocation: 1");
}

/// What calls answered, in this order.
pub fn print<R: Print>(rt: &R, calls: &str, answers: &[i128]) {
    let _ = rt.println(format_args!("{calls}: {answers:?}"));
}
