//! Lines of what came of a call.

use anyhow::Result;

/// These words alone.
pub(crate) fn print_words(rt: &HostRuntime, words: &str) -> Result<()> {
    println!(rt; "{words}")?;
    Ok(())
}

/// A number after these words.
pub(crate) fn print_number(rt: &HostRuntime, words: &str, number: u64) -> Result<()> {
    println!(rt; "{words} {number}")?;
    Ok(())
}
