//! Modules on lines of text.

use crate::error::StepErr;
use crate::steps::check_times;
use hex::FromHexError;
use std::alloc::Global;
use std::thread::Threads;
use thiserror::Error;

/// Why the module on a line is not known to be valid.
#[derive(Debug, Drop, Error)]
pub enum LineErr {
    /// The line is no name and hexadecimal digits with a space between.
    #[error("no name and no digits")]
    Line,
    /// The digits spell no bytes.
    #[error("{0}")]
    Digits(#[from] FromHexError),
    /// The bytes spell no valid module within the limits.
    #[error("{0}")]
    Module(#[from] StepErr),
}

/// The name that a line begins with. What it then says, behind a space, is a module in hexadecimal
/// digits.
pub fn name_of(line: &str) -> &str {
    match line.split_once(' ') {
        Some((name, _)) => name,
        None => line,
    }
}

/// Whether the module on a line is valid.
pub fn check_line(rt: &(impl Threads + Sync), alloc: Global, line: &str) -> Result<(), LineErr> {
    let Some((_, digits)) = line.split_once(' ') else {
        return Err(LineErr::Line);
    };
    let bytes = hex::decode(alloc, digits)?;
    Ok(check_times(rt, alloc, bytes.as_slice(), 1)?)
}
