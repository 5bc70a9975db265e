//! Scripts whose readers and writers fail, limits, and when an answer is written.

mod faults;
mod refused;
mod timing;
