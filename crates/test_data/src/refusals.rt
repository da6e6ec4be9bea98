//! What a test writes to standard output when it is run with one failing allocation, by `tools/refuse-memory`.

use std::test::Fail;

/// Prints that the call under test begins.
pub fn say_begins(rt: &impl Print) -> Result<(), Fail> {
    println!(rt; "begins")?;
    Ok(())
}

/// Prints how that call ended: that an allocation failed in it, or its usual result.
pub fn say_answered(rt: &impl Print, refused: bool) -> Result<(), Fail> {
    println!(rt; "{}", if refused { "refused" } else { "answered" })?;
    Ok(())
}
